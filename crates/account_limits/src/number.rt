//! Numbers in texts.

ghost use Rattle.std.specs.Prelude.{◌≡◌, ◌≤◌, ◌<◌, length};
ghost use Rattle.std.specs.List.{list_all};
ghost use Rattle.account_limits.specs.Numbers as spec;

/// The number that a text is, in decimal digits with no zero before others, if it is one of at most so much.
pub(crate) fn read_number(text: &[u8], most: u32) -> Option<u32>
    requires { most ≤ 1000000 }
    ensures { result ≡ spec.number_in most text.now }
{
    if !is_number(text) {
        return None;
    }
    let mut number = 0;
    for octet in text {
        if number > most {
            return None;
        }
        number = number * 10 + u32::from(octet.saturating_sub(b'0'));
    }
    (number <= most).then_some(number)
}

/// Whether a text is decimal digits, with no zero before others.
fn is_number(text: &[u8]) -> bool
    ensures { result ≡ spec.is_number text.now }
{
    match text {
        [] => false,
        [_] => are_digits(text),
        [first, ..] => *first != b'0' && are_digits(text),
    }
}

/// Whether all octets are decimal digits.
fn are_digits(text: &[u8]) -> bool
    ensures { result ≡ list_all spec.is_digit text.now }
{
    text.iter().all(|octet| b'0' <= *octet && *octet <= b'9')
}

/// What stands behind a place of a text.
pub(crate) fn behind(text: &[u8], place: usize) -> &[u8]
    requires { place < length text.now }
    ensures { result.now ≡ spec.behind place text.now }
{
    &text[place + 1..]
}
