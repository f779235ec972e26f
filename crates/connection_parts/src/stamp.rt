//! A moment as text.

ghost use Rattle.std.specs.Prelude.{◌≡◌, ◌<◌};
ghost use Rattle.connection_parts.specs.Stamps.{stamp_of, three_digits};

use crate::moments::moment_at;
use smpp_time::write_time;

/// The moment so many milliseconds since 1970-01-01T00:00:00Z by ISO 8601, in UTC, as `2026-11-29T15:30:08.123Z`. One before the year 2000, or behind 2099, is
/// told as the first or the last second of these years.
pub fn stamp_at(milliseconds: u64) -> [u8; 24]
    ensures { result ≡ stamp_of milliseconds }
{
    let [y, z, m, n, d, e, h, i, p, q, s, t, ..] = write_time(moment_at(milliseconds / 1_000));
    let [f, g, k] = three(milliseconds % 1_000);
    [
        b'2', b'0', y, z, b'-', m, n, b'-', d, e, b'T', h, i, b':', p, q, b':', s, t, b'.', f, g,
        k, b'Z',
    ]
}

/// The three digits of a number.
fn three(number: u64) -> [u8; 3]
    requires { number < 1000 }
    ensures { result ≡ three_digits number }
{
    [
        b'0' + (number / 100) as u8,
        b'0' + (number % 100 / 10) as u8,
        b'0' + (number % 10) as u8,
    ]
}
