//! By what moments a server goes.

ghost use Rattle.std.specs.Prelude.{◌≡◌, ◌≤◌, ◌/◌, None, Some, min, max};
ghost use Rattle.connection_parts.specs.Timepieces.{after, comes_apart, is_near, is_new};

use crate::moments::moment_at;
use mc_types::Moment;
use std::marker::Model;

/// How far apart two clocks are that are near each other, in milliseconds: what a clock that is set right by and by has.
const NEAR: u64 = 5_000;

/// How long the clock of the system has to stay apart before it is followed, in milliseconds: ten minutes.
const PATIENCE: u64 = 600_000;

/// By what moments a server goes. A clock that rises alone leads. That of the system is followed as long as it is near. Once it steps, by more than five
/// seconds, it is followed only if it stays apart for ten minutes: if it is ahead, at once; if it is behind, by time that takes half its pace, so that it
/// goes on.
#[derive(Drop)]
pub struct Timepiece {
    moment: u64,
    steady: u64,
    apart: Option<u64>,
}

impl Model for Timepiece {
    ghost use Rattle.connection_parts.specs.Timepieces.{Timepiece};

    ghost Value = { Timepiece };

    ghost view = { λ piece. record { moment = piece.moment; steady = piece.steady; apart = piece.apart } };
}

impl Timepiece {
    /// It tells the moment of the system's clock, as the other one says this. Both are in milliseconds, the former since 1970.
    pub fn make(steady: u64, system: u64) -> Timepiece
        ensures { result ≡ record { moment = system; steady = steady; apart = None } }
    {
        Timepiece {
            moment: system,
            steady,
            apart: None,
        }
    }

    /// The clock that rises alone and that of the system say this, in milliseconds, the latter since 1970. Whether the latter has stepped. What is told never
    /// goes back.
    pub fn read(&mut self, steady: u64, system: u64) -> bool
        ensures after { self.new ≡ after self.old steady system }
        ensures apart { result ≡ comes_apart self.old steady system }
        ensures rises { self.old.moment ≤ self.new.moment }
    {
        let gone = steady.saturating_sub(self.steady);
        let expected = self.moment.saturating_add(gone);
        self.steady = self.steady.max(steady);
        if is_near(expected, system) {
            self.moment = self.moment.max(system);
            self.apart = None;
            return false;
        }
        let Some(since) = self.apart else {
            self.moment = expected;
            self.apart = Some(self.steady);
            return true;
        };
        self.moment = if is_new(since, self.steady) {
            expected
        } else if expected < system {
            system
        } else {
            self.moment.saturating_add(gone / 2)
        };
        false
    }

    /// The moment that was told last, within the first one and the last one, 946684800 and 4102444799 seconds since 1970.
    pub fn moment(&self) -> Moment
        ensures { result ≡ min (max (self.now.moment / 1000) 946684800) 4102444799 }
    {
        moment_at(self.moment / 1_000)
    }
}

/// Whether two clocks are near each other.
fn is_near(one: u64, other: u64) -> bool
    ensures { result ≡ is_near one other }
{
    one.saturating_sub(other) <= NEAR && other.saturating_sub(one) <= NEAR
}

/// Whether a clock has been apart since then for less than ten minutes.
fn is_new(since: u64, steady: u64) -> bool
    ensures { result ≡ is_new (Some since) steady }
{
    steady.saturating_sub(since) < PATIENCE
}
