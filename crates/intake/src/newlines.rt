// How long a text is.
ghost use Rattle.std.specs.Prelude.{◌≡◌, ◌≤◌, ◌<◌, length, ◌≢◌};
ghost use Rattle.intake.specs.Lengths.{newlines};

/// How many newlines there are.
pub fn count_newlines(bytes: &[u8]) -> usize
    ensures count { result ≡ newlines bytes.now }
    ensures few { result ≤ length bytes.now }
{
    bytes.iter().filter(|b| **b == b'\n').count()
}
