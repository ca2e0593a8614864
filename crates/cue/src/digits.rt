// Characters to bytes.
ghost use Rattle.std.specs.Prelude.{◌≡◌, ◌+◌, ◌*◌, ◌≤◌, ◌<◌, length, not, position, IfSome};
ghost use Rattle.limits.specs.Limits as limits;
ghost use Rattle.lists.specs.Padded.{padded};
ghost use Rattle.cue.specs.Digits.{is_digit, digit_of, digit_in, bytes_of, ragged};

fn digit(c: u8) -> Option<u8>
    ensures is { result ≡ digit_in c }
    ensures small { IfSome result (λ d. d < 16) }
{
    match c {
        b'0'..=b'9' => Some(c - 48),
        b'a'..=b'f' => Some(c - 87),
        _ => None,
    }
}

fn is_digit(c: u8) -> bool
    ensures { result ≡ is_digit c }
{
    digit(c).is_some()
}

// The value of a digit, 0 of another character.
fn value(c: u8) -> u8
    ensures is { result ≡ digit_of c }
    ensures small { result < 16 }
{
    digit(c).unwrap_or(0)
}

// The place of the first character that is no digit.
pub fn first_other(text: &[u8]) -> Option<usize>
    ensures { result ≡ position (λ c. not (is_digit c)) text.now }
{
    text.iter().position(|c| !is_digit(*c))
}

fn byte(high: u8, low: u8) -> u8
    ensures { result ≡ digit_of high * 16 + digit_of low }
{
    value(high) * 16 + value(low)
}

pub fn bytes(text: &[u8]) -> [u8; limits::BYTES]
    requires { length text.now ≤ limits.digits }
    ensures { result ≡ padded limits.bytes 0 (bytes_of text.now) }
{
    let mut out = [0; limits::BYTES];
    for i in 0..text.len() / 2 {
        out[i] = byte(text[2 * i], text[2 * i + 1]);
    }
    out
}

// Odd, or the digits of 1 to 3 bytes.
pub fn is_ragged(digits: usize) -> bool
    ensures { result ≡ ragged digits }
{
    digits % 2 == 1 || (0 < digits && digits < 8)
}
