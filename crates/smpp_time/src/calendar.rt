//! Dates by the number of their day, over the dates of `jiff_core`.

ghost use Rattle.std.specs.Prelude.{◌≡◌, ◌≤◌, ◌≤ℤ◌, pos, unsigned_abs};
ghost use Rattle.smpp_time.specs.Calendar.{date_of, date_at, is_date, day_number, months_later};
ghost use Rattle.smpp_time.specs.Dates.{plain_date, IsDateIf};

use jiff_core::civil::Date;

/// The date of a day, by the days since 1970-01-01; up to 100,000. Day 10,957 is 2000-01-01, and day 47,481 is 2099-12-31.
pub fn date_of_day(day: u32) -> Date
    requires { day ≤ 100000 }
    ensures value { plain_date result ≡ date_of day }
    ensures least { pos 1970 ≤ℤ result.year }
    ensures most { result.year ≤ℤ pos 2500 }
    ensures from_2000 { 10957 ≤ day → 2000 ≤ (plain_date result).year }
    ensures to_2099 { day ≤ 47481 → (plain_date result).year ≤ 2099 }
{
    Date::from_unix_epoch_day(i64::from(day)).unwrap()
}

/// The days from 1970-01-01 to a date.
pub fn day_of_date(date: Date) -> u64
    requires { pos 1970 ≤ℤ date.year }
    ensures value { result ≡ day_number (plain_date date) }
    ensures bound { result ≤ 3000000 }
{
    u64::from(date.to_unix_epoch_day().unsigned_abs())
}

/// The date so many months later, on the same day or on the month's last.
pub fn months_after(date: Date, months: u32) -> Date
    requires least { pos 1970 ≤ℤ date.year }
    requires most { date.year ≤ℤ pos 2500 }
    requires months { months ≤ 40000 }
    ensures value { plain_date result ≡ months_later (plain_date date) months }
    ensures year { pos 1970 ≤ℤ result.year }
{
    let sum = 12 * year_of(date) + u32::from(date.month - 1) + months;
    Date::constrain((sum / 12) as i16, (sum % 12 + 1) as u8, date.day)
}

/// The date of a year from 1970 on, a month and a day, if the calendar has it.
pub fn date_of_parts(year: u32, month: u32, day: u32) -> Option<Date>
    requires least { 1970 ≤ year }
    requires most { year ≤ 9999 }
    ensures { IsDateIf (is_date (date_at year month day)) (date_at year month day) result }
{
    if month > 12 || day > 31 {
        return None;
    }
    Date::new(year as i16, month as i8, day as i8).ok()
}

/// The year of a date from 1970 on.
pub fn year_of(date: Date) -> u32
    requires { pos 1970 ≤ℤ date.year }
    ensures { result ≡ (plain_date date).year }
{
    u32::from(date.year.unsigned_abs())
}
