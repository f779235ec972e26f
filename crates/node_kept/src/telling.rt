//! What a node does with what is told to a question of its own.

ghost use Rattle.std.specs.Prelude.{◌≡◌, ◌∷◌, [], IfOk, IfSome, None, option_map, true};
ghost use Rattle.std.specs.Option.{option_copied};
ghost use Rattle.node_model.specs.Kept.{message_at};
ghost use Rattle.node_model.specs.Packets.{on_tell, tells_about, told_to};
ghost use Rattle.node_model.specs.Proposer.{started};
ghost use Rattle.node_model.specs.Requests.{id_of, told_by};
ghost use Rattle.node_model.specs.Starts.{delete_for};
ghost use Rattle.synod_acceptor.specs.Votes.{told_vote};
ghost use Rattle.waiting_requests.specs.Waiting.{held_of, known_of};
ghost use Rattle.tick_rules.specs.Standpoints.{start_of};
ghost use Rattle.node_kept.specs.Keeping.{AreOwn, kept_of};
ghost use Rattle.node_kept.specs.Queueing.{IsSound};
ghost use Rattle.node_kept.specs.Steps.{IsQuietStep, IsStep};
ghost use Rattle.node_kept.specs.Telling.{IsVerdict, asked_by, next_told, started_alone};

use crate::kept::Kept;
use crate::queue_change::QueueChange;
use crate::step::{QuietStep, Step};
use fate_chain::Chain;
use mc_types::{MsgId, NodeNo};
use std::alloc::AllocError;
use synod_acceptor::{Name, Vote};
use tick_rules::follow;
use waiting_requests::{Held, Reply};

impl Kept {
    /// What it does with what a node tells.
    #[inline(always)]
    pub(crate) fn on_tell(
        &self,
        from: NodeNo,
        name: Name,
        told: Option<&Vote>,
    ) -> Result<Step, AllocError>
        requires { AreOwn self.now }
        ensures { IfOk result (IsStep self.now (on_tell self.now.setup (kept_of self.now) from name (told_vote (option_copied told.entry)))) }
    {
        let Some(held) = self.asked(name) else {
            return Ok(self.same());
        };
        if !held.is_told_by(told) {
            return Ok(self.same());
        }
        self.hear(held, from, told)
    }

    /// What it does with what a node tells to a question that is not of a request that waits here, or not about its message, which is nothing. It takes no
    /// memory.
    #[inline(always)]
    pub(crate) fn quiet_tell(
        &self,
        from: NodeNo,
        name: Name,
        told: Option<&Vote>,
    ) -> Option<QuietStep>
        ensures { IfSome result (IsQuietStep self.now
            (on_tell self.now.setup (kept_of self.now) from name (told_vote (option_copied told.entry)))) }
    {
        let Some(held) = self.asked(name) else {
            return Some(self.unmoved());
        };
        if held.is_told_by(told) {
            return None;
        }
        Some(self.unmoved())
    }

    /// What it does with what a node tells to a request that waits for it.
    #[inline(never)]
    fn hear(&self, held: &Held, from: NodeNo, told: Option<&Vote>) -> Result<Step, AllocError>
        requires sound { IsSound self.now.setup.node self.now.incarnation (held_of held.now) }
        requires own { AreOwn self.now }
        requires about { tells_about (told_vote (option_copied told)) (id_of (held_of held.now)) ≡ true }
        ensures { IfOk result (IsStep self.now (told_to self.now.setup (kept_of self.now)
            (message_at (kept_of self.now) (id_of (held_of held.now))).known (told_by (held_of held.now) from (told_vote (option_copied told.entry))))) }
    {
        let mut held = held.copy()?;
        held.hear(from, told)?;
        self.told_to(held)
    }

    /// The request that waits for what is told under this name, if it is the node's own.
    #[inline(always)]
    fn asked(&self, name: Name) -> Option<&Held>
        ensures { option_map held_of (option_copied result) ≡ asked_by self.now.setup (kept_of self.now) name }
    {
        if !name.is_of(self.setup.node, self.incarnation()) {
            return None;
        }
        self.queue.at(name.ticket)
    }

    /// The step by which this was told to a request that waits: it may settle it, answer it, or start a round.
    #[inline(never)]
    fn told_to(&self, mut held: Held) -> Result<Step, AllocError>
        requires own { AreOwn self.now }
        requires sound { IsSound self.now.setup.node self.now.incarnation (held_of held) }
        ensures { IfOk result (IsStep self.now (told_to self.now.setup (kept_of self.now)
            (message_at (kept_of self.now) (id_of (held_of held))).known (held_of held))) }
    {
        let id = held.id();
        let known = self.known(id);
        let settles = held.settles(self.nodes(), known);
        held.settle(self.nodes(), known);
        let next = self.next_told(&held, settles, known)?;
        let (replies, queue) = self.verdict(held, known)?;
        let mut step = self.starting(id, next)?;
        step.outputs.replies = replies;
        step.next.queue = queue;
        Ok(step)
    }

    /// The chain for which a round starts once this was told to a request: by which its message is deleted, if that settles it; else the one
    /// that was told and is not known yet.
    #[inline(never)]
    fn next_told(
        &self,
        held: &Held,
        settles: bool,
        known: Option<&Chain>,
    ) -> Result<Option<Chain>, AllocError>
        requires known { IfSome known (λ chain. chain.now.id ≡ id_of (held_of held.now)) }
        requires told { IfSome (held_of held.now).top (λ top. top.id ≡ id_of (held_of held.now)) }
        ensures start { IfOk result (λ next. option_map start_of next
            ≡ next_told self.now.setup (kept_of self.now) settles (known_of (option_copied known.entry)) (held_of held.now)) }
        ensures id { IfOk result (λ next. IfSome next (λ chain. chain.id ≡ id_of (held_of held.now))) }
    {
        if settles {
            return self.deletion_for(held, known);
        }
        match follow(known, held.told_by_most(self.nodes())) {
            Some(chain) => Ok(Some(chain.copy()?)),
            None => Ok(None),
        }
    }

    /// The chain by which the message of a cancel_sm is deleted that was settled, if it may be.
    fn deletion_for(&self, held: &Held, known: Option<&Chain>) -> Result<Option<Chain>, AllocError>
        requires known { IfSome known (λ chain. chain.now.id ≡ id_of (held_of held.now)) }
        ensures start { IfOk result (λ next. option_map start_of next
            ≡ delete_for self.now.setup (kept_of self.now) (id_of (held_of held.now)) (held_of held.now ∷ []) (known_of (option_copied known.entry))) }
        ensures id { IfOk result (λ next. IfSome next (λ chain. chain.id ≡ id_of (held_of held.now))) }
    {
        let Some(chain) = known else {
            return Ok(None);
        };
        self.deletion(chain, held.cancels(chain.id(), chain.submission()))
    }

    /// The reply to a request, if it has an answer, and what becomes of those that wait.
    #[inline(never)]
    fn verdict(
        &self,
        held: Held,
        known: Option<&Chain>,
    ) -> Result<(Vec<Reply>, QueueChange), AllocError>
        requires { IfSome known (λ chain. chain.now.id ≡ id_of (held_of held)) }
        ensures { IfOk result (IsVerdict self.now.setup.nodes (known_of (option_copied known.entry)) (held_of held)) }
    {
        let ticket = held.ticket();
        let mut replies = Vec::new(self.alloc);
        let Some(reply) = held.reply_now(self.nodes(), known)? else {
            let held = Box::new(self.alloc, held)?;
            return Ok((replies, QueueChange::Replace(held)));
        };
        replies.push(reply)?;
        Ok((replies, QueueChange::Remove(ticket)))
    }

    /// The step that starts a round for a chain of the message of this id, if there is one and it may start, and does nothing else.
    #[inline(never)]
    pub(crate) fn starting(&self, id: MsgId, next: Option<Chain>) -> Result<Step, AllocError>
        requires own { AreOwn self.now }
        requires id { IfSome next (λ chain. chain.id ≡ id) }
        ensures step { IfOk result (IsStep self.now (started_alone (started self.now.setup (kept_of self.now) id (option_map start_of next)))) }
        ensures given { IfOk result (λ step. step.next.given ≡ self.now.given) }
    {
        let Some(next) = next else {
            return Ok(self.same());
        };
        let mut message = self.taken(id)?;
        match message.start(next) {
            Some(packet) => self.leave(id, message, Some(packet), None),
            None => Ok(self.same()),
        }
    }

    /// The chain of the message of this id that is known. It takes no memory.
    fn known(&self, id: MsgId) -> Option<&Chain>
        ensures known { known_of (option_copied result) ≡ (message_at (kept_of self.now) id).known }
        ensures id { IfSome (option_copied result) (λ chain. chain.id ≡ id) }
    {
        match self.find(id) {
            Some(message) => message.known(id),
            None => None,
        }
    }
}
