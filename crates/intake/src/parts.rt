// The two parts of an input: scripts, and a trace.
ghost use Rattle.std.specs.Prelude.{◌≡◌, ◌≤◌, not, ◌==◌, length};
ghost use Rattle.std.specs.List.{prefix_len};
ghost use Rattle.std_text.specs.Fields.{newline};
ghost use Rattle.intake.specs.Inputs.{is_mark, scripts_in, trace_in};

// Whether a line is the mark between scripts and trace.
fn is_mark(line: &[u8]) -> bool
    ensures { result ≡ is_mark line.now }
{
    let content = match line.split_last() {
        Some((b'\r', front)) => front,
        _ => line,
    };
    content == b"%%".as_slice()
}

// How many bytes stand before the first newline.
fn line_len(text: &[u8]) -> usize
    ensures value { result ≡ prefix_len (λ b. not (b == newline)) text.now }
    ensures within { result ≤ length text.now }
{
    for (i, b) in text.iter().enumerate() {
        if *b == b'\n' {
            return i;
        }
    }
    text.len()
}

/// The scripts and the trace of an input: what stands before the first line that is exactly `%%`, and what stands behind
/// it. One carriage return at the end of the line is dropped. Where there is no such line the trace is empty.
pub fn input_parts(input: &[u8]) -> (&[u8], &[u8])
    ensures scripts { result.0.now ≡ scripts_in input.now }
    ensures trace { result.1.now ≡ trace_in input.now }
    ensures few { length result.0.now ≤ length input.now }
{
    let mut start = 0;
    while start < input.len() {
        let end = start + line_len(&input[start..]);
        let next = (end + 1).min(input.len());
        if is_mark(&input[start..end]) {
            return (&input[..start], &input[next..]);
        }
        start = next;
    }
    (input, &input[input.len()..])
}
