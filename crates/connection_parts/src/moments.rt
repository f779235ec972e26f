//! The moment of a clock.

ghost use Rattle.std.specs.Prelude.{◌≡◌, max, min};

use mc_types::Moment;

/// The moment of so many seconds since 1970-01-01T00:00:00Z; the least one, 946684800, or the greatest one, 4102444799, if it is before or
/// behind them.
pub fn moment_at(seconds: u64) -> Moment
    ensures { result ≡ min (max seconds 946684800) 4102444799 }
{
    let least = Moment::least();
    let later = seconds.saturating_sub(u64::from(least.seconds()));
    least.later(u32::try_from(later).unwrap_or(u32::MAX))
}
