//! Claims on the journal.

ghost use Rattle.std.specs.Prelude.{◌≡◌};

use crate::begins::Begins;
use std::marker::PhantomData;

/// Room for one more entry of a journal, which `Register::admit` or `admit_anew` claimed: no other journal has the same ledger. It can't be copied, and can't be
/// let go: `Register::enter` spends it with an entry, or `give_back` without. So a journal counts as many claims as there are.
pub struct Claim<L: Begins> {
    part: PhantomData<L>,
}

impl<L: Begins> Claim<L> {
    /// A claim, which its journal counts from now on.
    pub(crate) fn make() -> Claim<L> {
        Claim { part: PhantomData }
    }

    /// Spends it, and does nothing else: its journal counts it no longer.
    pub(crate) fn spend(self) {
        let Claim { part: _ } = self;
    }
}

/// The claims of several entries of a journal. They can't be copied, and can't be let go: `Register::enter_each` spends them with entries, and `give_back_all`
/// without.
pub struct Claims<L: Begins> {
    count: usize,
    part: PhantomData<L>,
}

impl<L: Begins> Claims<L> {
    /// No claim.
    pub fn none() -> Claims<L>
        ensures { result.count ≡ 0 }
    {
        Claims {
            count: 0,
            part: PhantomData,
        }
    }

    /// One more.
    pub(crate) fn add(&mut self, claim: Claim<L>) {
        claim.spend();
        self.count = self.count.saturating_add(1);
    }

    /// One of them, if there is one.
    pub(crate) fn take(&mut self) -> Option<Claim<L>> {
        self.count = self.count.checked_sub(1)?;
        Some(Claim::make())
    }

    /// Spends them, and does nothing else: how many there were.
    pub(crate) fn spend(self) -> usize
        ensures { result ≡ self.count }
    {
        let Claims { count, part: _ } = self;
        count
    }
}
