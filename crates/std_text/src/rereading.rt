// The law of writing and reading.
ghost use Rattle.std_text.specs.Rereading.{WrittenIsRead};

/// The text of a lawful trace within the limits is read as the same events with the same names, whatever numbers the
/// names had.
pub fn written_text_is_read()
    ensures { WrittenIsRead }
{}
