//! A moment as a text.

ghost use Rattle.std.specs.Prelude.{◌≡◌, ◌<◌, take};
ghost use Rattle.smpp_time.specs.Texts.{time_text, two_digits};

use crate::calendar::{date_of_day, year_of};
use mc_types::Moment;

/// The text of a moment in UTC: 16 characters that end with `000+` (SMPP 3.4, section 7.1.1). No memory is taken.
pub fn write_time(moment: Moment) -> [u8; 16]
    ensures { result ≡ time_text moment }
{
    let today = date_of_day(moment.seconds() / 86400);
    let clock = moment.seconds() % 86400;
    let [y, years] = two(year_of(today) - 2000);
    let [m, months] = two(u32::from(today.month));
    let [d, days] = two(u32::from(today.day));
    let [h, hours] = two(clock / 3600);
    let [i, minutes] = two(clock / 60 % 60);
    let [s, seconds] = two(clock % 60);
    [
        y, years, m, months, d, days, h, hours, i, minutes, s, seconds, b'0', b'0', b'0', b'+',
    ]
}

/// The date of a moment as a receipt has it, YYMMDDhhmm (SMPP 3.4, appendix B): the first ten characters of its text.
pub fn receipt_date(moment: Moment) -> [u8; 10]
    ensures { result ≡ take 10 (time_text moment) }
{
    let [a, b, c, d, e, f, g, h, i, j, ..] = write_time(moment);
    [a, b, c, d, e, f, g, h, i, j]
}

/// The two digits of a number.
fn two(number: u32) -> [u8; 2]
    requires { number < 100 }
    ensures { result ≡ two_digits number }
{
    [b'0' + (number / 10) as u8, b'0' + (number % 10) as u8]
}
