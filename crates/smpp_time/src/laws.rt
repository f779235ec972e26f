//! Laws of days and texts, each the contract of a function that does nothing.

ghost use Rattle.std.specs.Prelude.{◌≡◌, ◌<◌, ◌↔◌, ℕ, Some, Ok, All, length};
ghost use Rattle.mc_model.specs.message.Ids.{IsMoment};
ghost use Rattle.smpp_time.specs.Calendar.{Date, IsDateOf, date_of};
ghost use Rattle.smpp_time.specs.Texts.{time_said, time_text};

/// A date is that of a day exactly if the calendar has it and it has the day's number.
pub fn a_day_has_one_date()
    ensures { (day : ℕ) (date : Date) → (date ≡ date_of day) ↔ IsDateOf day date }
{}

/// What is written of a moment names that moment, whenever it is read.
pub fn what_is_written_is_read()
    ensures { (moment now : ℕ) → IsMoment moment → time_said (time_text moment) now ≡ Ok (Some moment) }
{}

/// Two moments have different texts.
pub fn moments_are_their_texts()
    ensures { (one other : ℕ) → IsMoment one → IsMoment other → time_text one ≡ time_text other → one ≡ other }
{}

/// What is written of a moment has 16 octets, none of which is zero.
pub fn times_fit_their_field()
    ensures { (moment : ℕ) → (length (time_text moment) ≡ 16) × All (λ octet. 0 < octet) (time_text moment) }
{}
