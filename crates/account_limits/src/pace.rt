//! How many come in a second.

ghost use Rattle.std.specs.Prelude.{◌≡◌};

/// How long a second is, in milliseconds.
const SECOND: u64 = 1_000;

/// How many came in a second: it begins with the first that comes once the one before is over, so that no more than twice the limit come in any second. It looks at
/// no clock: the moment of each call is given, in milliseconds.
#[derive(Clone, Copy, Debug, PartialEq, Eq)]
pub struct Pace {
    /// When the second began, in milliseconds.
    begun: u64,
    /// How many came in it.
    count: u32,
}

impl Pace {
    ghost use Rattle.std.specs.Prelude.{nat_lt};
    ghost use Rattle.account_limits.specs.Paces.{at_rest, came_at, counted, runs_at};

    /// None has come.
    pub fn at_rest() -> Pace
        ensures { result ≡ at_rest }
    {
        Pace { begun: 0, count: 0 }
    }

    /// One more comes at a moment, in milliseconds: it is let through, and counted, if fewer than so many were in the second.
    pub fn take(&mut self, moment: u64, most: u32) -> bool
        ensures taken { result ≡ nat_lt (came_at moment self.old) most }
        ensures left { self.new ≡ counted result moment self.old }
    {
        if !self.runs_at(moment) {
            if most == 0 {
                return false;
            }
            self.begun = moment;
            self.count = 1;
            return true;
        }
        if self.count >= most {
            return false;
        }
        self.count += 1;
        true
    }

    /// Whether the second in which some came runs at a moment.
    fn runs_at(&self, moment: u64) -> bool
        ensures { result ≡ runs_at moment self.now }
    {
        self.begun <= moment && moment - self.begun < SECOND
    }
}
