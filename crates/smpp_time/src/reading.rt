//! The moment that a text names.

ghost use Rattle.std.specs.Prelude.{◌≡◌, ◌<◌, ◌≤◌, ◌≤ℤ◌, ◌+◌, length, pos};
ghost use Rattle.std.specs.Str.{all_ascii_digits};
ghost use Rattle.smpp_time.specs.Texts.{time_said, digit_at, number_at, is_shaped, is_clock, is_real, date_in, clock_in, utc_seconds};
ghost use Rattle.smpp_time.specs.Texts.{moment_of, said_of_absolute, said_of_relative};
ghost use Rattle.smpp_time.specs.Dates.{plain_date, IsDateIf};

use crate::calendar::{date_of_day, date_of_parts, day_of_date, months_after};
use crate::fault::TimeFault;
use jiff_core::civil::Date;
use mc_types::Moment;

/// The moment that a text of 16 characters names to who reads it now (SMPP 3.4, section 7.1.1); none for an empty text.
/// No memory is taken, and nothing is looped over but the text. Shape if it has not that form, Field if a part of it is
/// out of range, Range if the moment is before 2000 or after 2099.
pub fn read_time(text: &[u8], now: Moment) -> Result<Option<Moment>, TimeFault>
    ensures { result ≡ time_said text.now now }
{
    let today = date_of_day(now.seconds() / DAY);
    if text.is_empty() {
        return Ok(None);
    }
    if !has_shape(text) {
        return Err(TimeFault::Shape);
    }
    if text[15] == b'R' {
        relative(text, now, today)
    } else {
        absolute(text)
    }
}

/// The seconds of a day, of an hour, of a quarter of an hour and of a minute.
const DAY: u32 = 86400;

/// Whether it is fifteen digits and a mark.
fn has_shape(text: &[u8]) -> bool
    ensures { result ≡ is_shaped text.now }
{
    text.len() == 16 && are_digits(&text[..15]) && matches!(text[15], b'+' | b'-' | b'R')
}

fn are_digits(octets: &[u8]) -> bool
    ensures { result ≡ all_ascii_digits octets.now }
{
    match octets {
        [] => true,
        [first, rest @ ..] => first.is_ascii_digit() && are_digits(rest),
    }
}

/// The number that the two digits from a place on write.
fn number(text: &[u8], place: usize) -> u32
    requires { place + 1 < length text.now }
    ensures value { result ≡ number_at text.now place }
    ensures bound { result ≤ 2277 }
{
    10 * digit(text, place) + digit(text, place + 1)
}

fn digit(text: &[u8], place: usize) -> u32
    requires { place < length text.now }
    ensures value { result ≡ digit_at text.now place }
    ensures bound { result ≤ 207 }
{
    u32::from(text[place].saturating_sub(b'0'))
}

/// Hours, minutes and seconds in seconds.
fn clock(text: &[u8]) -> u64
    requires { length text.now ≡ 16 }
    ensures value { result ≡ clock_in text.now }
    ensures bound { result ≤ 10000000 }
{
    let hours = u64::from(number(text, 6));
    let minutes = u64::from(number(text, 8));
    3600 * hours + 60 * minutes + u64::from(number(text, 10))
}

/// Whether it has a time of the day, and at most 48 quarters of an hour.
fn has_clock(text: &[u8]) -> bool
    requires { length text.now ≡ 16 }
    ensures { result ≡ is_clock text.now }
{
    number(text, 6) < 24 && number(text, 8) < 60 && number(text, 10) < 60 && number(text, 13) <= 48
}

/// The date of an absolute time, if it and the time of the day are real.
fn real_date(text: &[u8]) -> Option<Date>
    requires { length text.now ≡ 16 }
    ensures { IsDateIf (is_real text.now) (date_in text.now) result }
{
    if !has_clock(text) {
        return None;
    }
    date_of_parts(2000 + number(text, 0), number(text, 2), number(text, 4))
}

fn absolute(text: &[u8]) -> Result<Option<Moment>, TimeFault>
    requires { length text.now ≡ 16 }
    ensures { result ≡ said_of_absolute text.now }
{
    match real_date(text) {
        None => Err(TimeFault::Field),
        Some(date) => moment(utc(text, 86400 * day_of_date(date) + clock(text))),
    }
}

/// The seconds in UTC of so many in the local time of a text.
fn utc(text: &[u8], local: u64) -> u64
    requires length { length text.now ≡ 16 }
    requires most { local ≤ 300000000000 }
    ensures { result ≡ utc_seconds local text.now }
{
    let away = 900 * u64::from(number(text, 13));
    if text[15] == b'+' {
        local.saturating_sub(away)
    } else {
        local + away
    }
}

fn relative(text: &[u8], now: Moment, today: Date) -> Result<Option<Moment>, TimeFault>
    requires length { length text.now ≡ 16 }
    requires least { pos 1970 ≤ℤ today.year }
    requires most { today.year ≤ℤ pos 2500 }
    ensures { result ≡ said_of_relative text.now now (plain_date today) }
{
    if digit(text, 12) != 0 || number(text, 13) != 0 {
        return Err(TimeFault::Field);
    }
    let date = months_after(today, 12 * number(text, 0) + number(text, 2));
    let days = day_of_date(date) + u64::from(number(text, 4));
    moment(86400 * days + u64::from(now.seconds() % DAY) + clock(text))
}

fn moment(seconds: u64) -> Result<Option<Moment>, TimeFault>
    ensures { result ≡ moment_of seconds }
{
    let Ok(seconds) = u32::try_from(seconds) else {
        return Err(TimeFault::Range);
    };
    match Moment::make(seconds) {
        Ok(moment) => Ok(Some(moment)),
        Err(_) => Err(TimeFault::Range),
    }
}
