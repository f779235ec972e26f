//! Which decree may follow which.

ghost use Rattle.std.specs.Prelude.{◌≡◌, ◌<◌, ◌≤◌, ◌↔◌, ◌∷◌, List, length, IsTrue};
ghost use Rattle.mc_model.specs.message.Decree.{Decree};
ghost use Rattle.mc_model.specs.message.Neighbours.{IsFailureOf, IsFirstAttempt, IsNextAttempt, IsTelling, MayFollow};
ghost use Rattle.mc_model.specs.message.Chain.{MayExtend, attempts_of, taken_in};
ghost use Rattle.fate_chain.specs.Kinds.{author_of, final_of};
ghost use Rattle.fate_chain.specs.Marks.{bare_kind, bare_message, IsMarkOf, IsStandingOf};

use crate::decree::{Author, Final};
use crate::terms::Terms;
use mc_types::{Moment, NodeNo};

/// How many decrees a chain has at most: what was taken, eight attempts, of each its failure, the fate, and that its receipt is told.
pub const MOST_DECREES: usize = 19;
/// How many attempts a message has at most.
const MOST_ATTEMPTS: usize = 8;
/// For how many seconds the next attempt waits after a failure, for each attempt so far.
const RETRY_AFTER: usize = 60;

/// What of a decree's kind decides which decree may follow.
#[derive(Clone, Copy)]
pub enum Act {
    Taken(Terms),
    Attempt(u8),
    Failed,
    Fate(Final),
    Told,
}

/// What of a decree decides which may follow it.
#[derive(Clone, Copy)]
pub struct Mark {
    pub author: Author,
    pub moment: Moment,
    pub act: Act,
}

impl Act {
    /// One if it begins an attempt, else none.
    fn attempts(self) -> usize
        ensures attempts { result ≡ attempts_of (bare_kind self) }
        ensures range { result ≤ 1 }
    {
        match self {
            Act::Attempt(_) => 1,
            _ => 0,
        }
    }
}

/// The cases of two neighbours, the older first, each with what it asks for. In no other case may they stand so.
macro_rules! on_case {
    ($neighbours:expr; $($older:pat, $newer:pat => $condition:expr;)*) => {
        match $neighbours {
            $(($older, $newer) => $condition,)*
            _ => false,
        }
    };
}

/// Where a chain stands: what decides which decree may come next.
#[derive(Clone, Copy)]
pub struct Standing {
    pub terms: Terms,
    /// The node that took the message.
    pub home: NodeNo,
    /// How many attempts were begun.
    pub attempts: usize,
    pub newest: Mark,
}

impl Standing {
    /// Whether a decree of this mark may come next.
    pub fn permits(&self, next: &Mark) -> bool
        ensures { (decrees : List Decree) (decree : Decree) →
            IsStandingOf decrees self.now → IsMarkOf decree next.now →
            IsTrue result ↔ MayExtend (taken_in decrees) decrees decree }
    {
        self.is_followed_by(next)
    }

    /// After one more decree, of this mark, that may come next.
    pub fn after(self, next: Mark) -> Standing
        ensures { (decrees : List Decree) (decree : Decree) →
            length decrees ≤ 19 → IsStandingOf decrees self → IsMarkOf decree next →
            MayExtend (taken_in decrees) decrees decree → IsStandingOf (decree ∷ decrees) result }
    {
        Standing {
            terms: self.terms,
            home: self.home,
            attempts: self.attempts.saturating_add(next.act.attempts()),
            newest: next,
        }
    }

    /// Whether moment, author and kind may follow those of the newest decree.
    fn is_followed_by(&self, next: &Mark) -> bool
        ensures { IsTrue result ↔ (self.now.newest.moment ≤ next.now.moment)
            × MayFollow (bare_message self.now.terms) self.now.home self.now.attempts
            (author_of self.now.newest.author) self.now.newest.moment (bare_kind self.now.newest.act)
            (author_of next.now.author) next.now.moment (bare_kind next.now.act) }
    {
        self.newest.moment <= next.moment && self.may_follow(next)
    }

    /// Whether author and kind may follow those of the newest decree.
    fn may_follow(&self, next: &Mark) -> bool
        ensures { IsTrue result ↔ MayFollow (bare_message self.now.terms) self.now.home self.now.attempts
            (author_of self.now.newest.author) self.now.newest.moment (bare_kind self.now.newest.act)
            (author_of next.now.author) next.now.moment (bare_kind next.now.act) }
    {
        let has_expired = self.terms.expiry <= next.moment;
        let same_author = next.author == self.newest.author;
        on_case! { (&self.newest.act, &next.act);
            Act::Taken(_), Act::Attempt(number) => self.is_first(next.moment, *number);
            Act::Taken(_), Act::Fate(Final::Expired) => has_expired;
            Act::Taken(_), Act::Fate(Final::Deleted) => true;
            Act::Attempt(_), Act::Failed => self.is_failure(next.author);
            Act::Attempt(_), Act::Fate(Final::Delivered) => same_author;
            Act::Attempt(_), Act::Fate(Final::Undeliverable) => same_author;
            Act::Attempt(_), Act::Fate(Final::Rejected) => same_author;
            Act::Failed, Act::Attempt(number) => self.is_next(next.moment, *number);
            Act::Failed, Act::Fate(Final::Expired) => has_expired;
            Act::Failed, Act::Fate(Final::Deleted) => true;
            Act::Failed, Act::Fate(Final::Undeliverable) => self.attempts == MOST_ATTEMPTS;
            Act::Fate(last), Act::Told => self.is_telling(*last, next.author);
        }
    }

    /// Whether the first attempt may be begun then, under this number.
    fn is_first(&self, moment: Moment, number: u8) -> bool
        ensures { IsTrue result ↔ IsFirstAttempt (bare_message self.now.terms) moment number }
    {
        number == 1 && self.terms.schedule <= moment && moment < self.terms.expiry
    }

    /// Whether another attempt may be begun then, under this number: one of eight, and a minute later for each
    /// attempt so far.
    fn is_next(&self, moment: Moment, number: u8) -> bool
        ensures { IsTrue result ↔ IsNextAttempt (bare_message self.now.terms) self.now.attempts self.now.newest.moment moment number }
    {
        if self.attempts >= MOST_ATTEMPTS || number as usize != self.attempts + 1 {
            return false;
        }
        let failed = self.newest.moment.seconds() as usize;
        moment < self.terms.expiry
            && failed + RETRY_AFTER * self.attempts <= moment.seconds() as usize
    }

    /// Whether this author may declare the newest attempt failed.
    fn is_failure(&self, author: Author) -> bool
        ensures { IsTrue result ↔ IsFailureOf (author_of self.now.newest.author) (author_of author) }
    {
        author.node == self.newest.author.node
            && author.incarnation >= self.newest.author.incarnation
    }

    /// Whether this author may tell the receipt on this final state.
    fn is_telling(&self, last: Final, author: Author) -> bool
        ensures { IsTrue result ↔ IsTelling (bare_message self.now.terms) self.now.home (final_of last) (author_of author) }
    {
        author.node == self.home && self.terms.asks_receipt(last)
    }
}
