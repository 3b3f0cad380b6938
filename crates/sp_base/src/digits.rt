//! Numbers as digits of a text.

ghost use Rattle.std.specs.Prelude.{◌≡◌, ◌≤◌, IfSome};
ghost use Rattle.sp_base.specs.Digits.{is_digit, number_written};

fn is_digit(byte: u8) -> bool
    ensures { result ≡ is_digit byte }
{
    b'0' <= byte && byte <= b'9'
}

/// The number that a word of decimal digits writes, where it is at most the bound. A word that is empty, or has a byte that
/// is no digit, writes none.
pub fn read_number(word: &[u8], bound: u64) -> Option<u64>
    ensures value { result ≡ number_written bound word.now }
    ensures within { IfSome result (λ n. n ≤ bound) }
{
    if word.is_empty() {
        return None;
    }
    let mut number = 0u128;
    for byte in word {
        if !is_digit(*byte) {
            return None;
        }
        number = number * 10 + u128::from(*byte - b'0');
        if number > u128::from(bound) {
            return None;
        }
    }
    Some(number as u64)
}
