//! By whom and at which clock a node decides.

ghost use Rattle.std.specs.Prelude.{◌≡◌, true, IfOk, IfSome, List, option_map};
ghost use Rattle.mc_model.specs.message.Decree.{Decree as DecreeValue};
ghost use Rattle.node_model.specs.Rules.{attempt_rule, is_attempt_by};
ghost use Rattle.node_model.specs.Starts.{is_idle, moment_behind};
ghost use Rattle.tick_rules.specs.Attempts.{attempted_at};
ghost use Rattle.tick_rules.specs.Dues.{IsBehind, IsDecreeBehind, IsDeletion, IsDueBehind, IsEnd, IsTelling, MayBeDue, MayEnd, fitting_for};
ghost use Rattle.tick_rules.specs.Standpoints.{kept_of, setup_of};

use crate::attempted::{Attempted, Closing};
use crate::due::Due;
use crate::reached::Reached;
use delivery::due;
use fate_chain::{Author, Chain, ChainFault, Decree, ErrorCode, Kind};
use mc_types::Moment;
use std::alloc::AllocError;

/// By whom a node's decrees are, and its clock.
#[derive(Clone, Copy, Debug, PartialEq, Eq)]
pub struct Standpoint {
    /// The node, in its incarnation.
    pub author: Author,
    pub clock: Moment,
}

impl Standpoint {
    /// What is due after a chain that is known: by what the node did with the attempt in which it ends, whether a cancel_sm that was
    /// settled waits that matches its message, and whether its target is up and an attempt of it may begin. It takes no memory.
    pub fn due(
        &self,
        chain: &Chain,
        attempted: Attempted,
        cancelled: bool,
        reached: Reached,
    ) -> Option<Due>
        ensures due { IsDueBehind self.now attempted cancelled reached chain.now.decrees result }
        ensures may { IfSome result (MayBeDue self.now chain.now.decrees) }
    {
        let newest = chain.newest();
        chain.bounds();
        if self.is_attempt(newest) {
            return self.attempt_due(newest, attempted, reached.up);
        }
        if cancelled && is_idle(newest) {
            return Some(Due::Delete);
        }
        match due(chain, self.moment_behind(newest), reached.begins) {
            Some(due) => Some(Due::Decree(due)),
            None => self.telling(chain),
        }
    }

    /// What is due after a chain that is known if a cancel_sm that was settled waits that matches its message: that it is deleted,
    /// unless an attempt is open or it has a final state. It takes no memory.
    pub fn deletion(&self, chain: &Chain, cancelled: bool) -> Option<Due>
        ensures due { IsDeletion self.now cancelled chain.now.decrees result }
        ensures may { IfSome result (MayBeDue self.now chain.now.decrees) }
    {
        let newest = chain.newest();
        chain.bounds();
        if cancelled && is_idle(newest) {
            Some(Due::Delete)
        } else {
            None
        }
    }

    /// What is due after a chain that is known if it ends in a fate on which the node owes a receipt: that it is told. It takes no memory.
    pub fn telling(&self, chain: &Chain) -> Option<Due>
        ensures due { IsTelling self.now chain.now.decrees result }
        ensures may { IfSome result (MayBeDue self.now chain.now.decrees) }
    {
        match chain.newest().kind {
            Kind::Fate(last, _)
                if self.author.node == chain.home() && chain.submission().asks_receipt(last) => {
                Some(Due::Told)
            }
            _ => None,
        }
    }

    /// What is due after a chain that is known and ends in an attempt of the node, in its incarnation, that was closed so. None if it
    /// ends otherwise. It takes no memory.
    pub fn end(&self, chain: &Chain, closing: Closing) -> Option<Due>
        ensures due { IsEnd self.now closing chain.now.decrees result }
        ensures may { IfSome result (MayBeDue self.now chain.now.decrees) }
    {
        let newest = chain.newest();
        chain.bounds();
        if self.is_attempt(newest) && newest.author.incarnation == self.author.incarnation {
            Some(Due::Close(closing))
        } else {
            None
        }
    }

    /// The chain with the decree that is due after it.
    pub fn behind(&self, chain: &Chain, due: Due) -> Result<Chain, AllocError>
        requires { MayBeDue self.now chain.now.decrees due }
        ensures id { IfOk result (λ next. next.id ≡ chain.now.id) }
        ensures decrees { IfOk result (λ next. IsBehind self.now chain.now.decrees due next.decrees) }
    {
        match chain.extended(self.decree(chain, due)) {
            Ok(next) => Ok(next),
            Err(ChainFault::Memory) => Err(AllocError),
            Err(_) => unreachable!(),
        }
    }

    /// The decree that is due after a chain.
    fn decree(&self, chain: &Chain, due: Due) -> Decree
        ensures { IsDecreeBehind self.now chain.now.decrees due result }
    {
        Decree {
            author: self.author,
            moment: self.moment_behind(chain.newest()),
            kind: due.kind(ErrorCode::of(chain.error())),
        }
    }

    /// What is due after an attempt of the node.
    fn attempt_due(&self, newest: &Decree, attempted: Attempted, up: bool) -> Option<Due>
        requires { is_attempt_by self.now.author.node newest.now newest.now.kind ≡ true }
        ensures due { (older : List DecreeValue) → option_map (fitting_for self.now newest.now older) result
            ≡ attempt_rule (setup_of self.now) (kept_of self.now) (attempted_at attempted) up newest.now older }
        ensures may { IfSome result (MayEnd self.now newest.now) }
    {
        if newest.author.incarnation < self.author.incarnation {
            Some(Due::Lose)
        } else if newest.author.incarnation > self.author.incarnation {
            None
        } else if let Some(closing) = attempted.closed {
            Some(Due::Close(closing))
        } else if attempted.granted || up {
            None
        } else {
            Some(Due::GiveUp)
        }
    }

    /// Whether the decree is an attempt by the node.
    fn is_attempt(&self, newest: &Decree) -> bool
        ensures { result ≡ is_attempt_by self.now.author.node newest.now newest.now.kind }
    {
        matches!(newest.kind, Kind::Attempt(_)) && newest.author.node == self.author.node
    }

    /// The moment of a decree after this one: the clock, or the moment of the other, if that is later.
    fn moment_behind(&self, newest: &Decree) -> Moment
        ensures { result ≡ moment_behind (kept_of self.now) newest.now }
    {
        self.clock.max(newest.moment)
    }
}

/// Whether the message was taken, or an attempt of it failed.
fn is_idle(newest: &Decree) -> bool
    ensures { result ≡ is_idle newest.now.kind }
{
    matches!(newest.kind, Kind::Taken(_) | Kind::Failed(_))
}
