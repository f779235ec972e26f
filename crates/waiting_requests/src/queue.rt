//! The requests that wait.

ghost use Rattle.std.specs.Prelude.{◌≡◌, ◌<◌, ◌≤◌, ◌++◌, ◌∷◌, ◌==◌, [], Some, filter, length, map, nat_le, not, option_map, IfOk, IfSome, IsTrue, OnErr};
ghost use Rattle.std.specs.Box.{box_value};
ghost use Rattle.std.specs.List.{list_any};
ghost use Rattle.std.specs.Option.{option_copied};
ghost use Rattle.std.specs.Vec.{vec_capacity, vec_len};
ghost use Rattle.mc_model.specs.message.Chain.{taken_in};
ghost use Rattle.mc_model.specs.synod.Lists.{In};
ghost use Rattle.mc_model.specs.message.Submission.{Submission as SubmissionValue};
ghost use Rattle.mc_model.specs.node.Room.{most_waiting};
ghost use Rattle.mc_model.specs.node.Setup.{Setup};
ghost use Rattle.node_model.specs.Answers.{replies_to, still_waits};
ghost use Rattle.node_model.specs.Kept.{Kept};
ghost use Rattle.node_model.specs.Packets.{settled_for};
ghost use Rattle.node_model.specs.Requests.{held_at, is_untold, ticket_of, with_held};
ghost use Rattle.node_model.specs.Rules.{shown_to, taken_for};
ghost use Rattle.node_model.specs.Starts.{cancels};
ghost use Rattle.node_model.specs.Ticks.{is_late, late_reply};
ghost use Rattle.synod_acceptor.specs.Packets.{packet_of};
ghost use Rattle.synod_acceptor.specs.Votes.{told_vote};
ghost use Rattle.waiting_requests.specs.Questions.{question_by};
ghost use Rattle.waiting_requests.specs.Queues.{IsAbove, timely, is_answered};
ghost use Rattle.waiting_requests.specs.Numbers.{IsLeastFrom, ids_in};
ghost use Rattle.waiting_requests.specs.Replying.{reply_given};
ghost use Rattle.waiting_requests.specs.Submits.{AreNumberedBy, start_of};
ghost use Rattle.waiting_requests.specs.Waiting.{held_in, held_of};

use crate::answer::Reply;
use crate::held::Held;
use crate::walk::{
    cancels, cancels_then, find, first_taken, keep_others, keep_timely, keep_waiting, late,
    next_id, questions, replace, replies, settle, shown,
};
use fate_chain::{Chain, Submission};
use mc_types::{Incarnation, Moment, MsgId, NodeNo};
use std::alloc::{AllocError, Global};
use std::marker::Model;
use synod_acceptor::{Packet, Vote};

/// How many requests wait at most.
const MOST_WAITING: usize = 1000;

/// The requests that wait, 1,000 at most, by ascending tickets. There is room for all of them from the first on.
#[derive(Drop)]
pub struct Queue {
    held: Vec<Box<Held>>,
}

impl Model for Queue {
    ghost use Rattle.std.specs.Prelude.{◌≤◌, List, map};
    ghost use Rattle.std.specs.Box.{box_value};
    ghost use Rattle.std.specs.Vec.{vec_capacity};
    ghost use Rattle.waiting_requests.specs.Waiting.{Waits};
    ghost use Rattle.waiting_requests.specs.Queues.{IsQueue};

    ghost Value = { List Waits };

    ghost view = { λ q. map box_value q.held.items };

    ghost invariant = { λ q. IsQueue (vec_capacity q.held) (map box_value q.held.items) };
}

impl Queue {
    /// No request, and room for 1,000.
    pub fn make(alloc: Global) -> Result<Queue, AllocError>
        ensures { IfOk result (λ queue. queue ≡ []) }
    {
        Ok(Queue {
            held: Vec::with_capacity(alloc, MOST_WAITING)?,
        })
    }

    /// How many wait.
    pub fn len(&self) -> usize
        ensures { result ≡ length self.now }
    {
        self.held.len()
    }

    /// Whether 1,000 wait.
    pub fn is_full(&self) -> bool
        ensures { result ≡ nat_le most_waiting (length self.now) }
    {
        MOST_WAITING <= self.held.len()
    }

    /// Lets a request wait after all others. Its ticket is higher than theirs, and there is room for it. It takes no memory.
    #[inline(never)]
    pub fn push(&mut self, held: Box<Held>)
        requires room { length self.old < most_waiting }
        requires above { IsAbove (held_in self.old) (box_value held).waiting.ticket }
        ensures { self.new ≡ self.old ++ box_value held ∷ [] }
    {
        push_reserved(&mut self.held, held);
    }

    /// The request of a ticket; none if there is none. It goes through those that wait.
    pub fn at(&self, ticket: u64) -> Option<&Held>
        ensures { option_map held_of (option_copied result) ≡ held_at (held_in self.now) ticket }
    {
        find(&self.held, ticket)
    }

    /// Puts a request in the place of the one of its ticket, if there is one. It takes no memory.
    #[inline(never)]
    pub fn replace(&mut self, held: Box<Held>)
        ensures { held_in self.new ≡ with_held (held_in self.old) (held_of (box_value held)) }
    {
        replace(&mut self.held, held);
    }

    /// Takes away the request of a ticket, if there is one. It takes no memory.
    #[inline(never)]
    pub fn remove(&mut self, ticket: u64)
        ensures { held_in self.new ≡ filter (λ h. not (ticket_of h == ticket)) (held_in self.old) }
    {
        keep_others(&mut self.held, ticket);
    }

    /// The replies once this chain is known, which may settle a cancel_sm of its message first, by ascending tickets. An `Err` is
    /// want of memory, which only those need that have an answer then.
    #[inline(never)]
    pub fn replies(&self, nodes: u8, chain: &Chain) -> Result<Vec<Reply>, AllocError>
        ensures replies { IfOk result (λ replies. map reply_given replies.items
            ≡ replies_to nodes (Some chain.now.decrees) chain.now.id (map (settled_for nodes chain.now.id chain.now.decrees) (held_in self.now))) }
        ensures memory { OnErr result (IsTrue (list_any (is_answered nodes chain.now.id chain.now.decrees) (held_in self.now))) }
    {
        replies(*self.held.allocator(), &self.held, nodes, chain)
    }

    /// Settles what is settled once this chain is known, and takes away what has an answer then. It takes no memory.
    #[inline(never)]
    pub fn settle(&mut self, nodes: u8, chain: &Chain)
        ensures { held_in self.new ≡ filter (still_waits nodes (Some chain.now.decrees) chain.now.id)
            (map (settled_for nodes chain.now.id chain.now.decrees) (held_in self.old)) }
    {
        settle(&mut self.held, nodes, chain);
        keep_waiting(&mut self.held, nodes, chain);
    }

    /// Whether the message of this chain is to be deleted for a cancel_sm once the chain is known, which may settle the cancel_sm.
    pub fn cancels_then(&self, nodes: u8, chain: &Chain) -> bool
        ensures { (message : SubmissionValue) → taken_in chain.now.decrees ≡ Some message →
            result ≡ list_any (cancels chain.now.id message) (map (settled_for nodes chain.now.id chain.now.decrees) (held_in self.now)) }
    {
        cancels_then(&self.held, nodes, chain)
    }

    /// Whether the message of an id is to be deleted for a cancel_sm that was settled and did not wait too long at this clock.
    pub fn cancels(&self, clock: Moment, id: MsgId, message: &Submission) -> bool
        ensures { result ≡ list_any (cancels id message.now) (timely clock (held_in self.now)) }
    {
        cancels(&self.held, clock, id, message)
    }

    /// The replies to those that waited for 30 seconds or longer, by ascending tickets. An `Err` is want of memory, which only those
    /// need.
    #[inline(never)]
    pub fn late(&self, clock: Moment) -> Result<Vec<Reply>, AllocError>
        ensures replies { IfOk result (λ replies. map reply_given replies.items ≡ map late_reply (filter (is_late clock) (held_in self.now))) }
        ensures memory { OnErr result (IsTrue (list_any (is_late clock) (held_in self.now))) }
    {
        late(*self.held.allocator(), &self.held, clock)
    }

    /// Takes away those that waited for 30 seconds or longer. It takes no memory.
    #[inline(never)]
    pub fn expire(&mut self, clock: Moment)
        ensures { held_in self.new ≡ timely clock (held_in self.old) }
    {
        keep_timely(&mut self.held, clock);
    }

    /// The questions of those that did not wait too long at this clock and to which no majority of so many nodes told, for the node and
    /// the incarnation in which they wait, by ascending tickets. An `Err` is want of memory, which only those need.
    #[inline(never)]
    pub fn questions(
        &self,
        clock: Moment,
        node: NodeNo,
        incarnation: Incarnation,
        nodes: u8,
    ) -> Result<Vec<Packet>, AllocError>
        ensures packets { IfOk result (λ packets. map packet_of packets.items
            ≡ map (question_by node incarnation) (filter (is_untold nodes) (timely clock (held_in self.now)))) }
        ensures memory { OnErr result (IsTrue (list_any (is_untold nodes) (timely clock (held_in self.now)))) }
    {
        questions(
            *self.held.allocator(),
            &self.held,
            clock,
            node,
            incarnation,
            nodes,
        )
    }

    /// The least id from this number on, of the messages that those are about which did not wait too long at this clock; none if there is
    /// none. It takes no memory.
    pub fn next_id(&self, clock: Moment, from: u64) -> Option<MsgId>
        ensures { IsLeastFrom from (λ id. In id (ids_in (timely clock (held_in self.now)))) result }
    {
        next_id(&self.held, clock, from)
    }

    /// The chain by which the message of an id is taken, if a submit_sm of it waits that did not wait too long at this clock. It takes no
    /// memory.
    pub fn taken(&self, clock: Moment, id: MsgId) -> Option<&Chain>
        ensures start { (setup : Setup) (k : Kept) → AreNumberedBy setup.node k.incarnation (timely clock (held_in self.now)) →
            option_map start_of (option_copied result) ≡ taken_for setup k id (timely clock (held_in self.now)) }
        ensures id { IfSome (option_copied result) (λ chain. chain.id ≡ id) }
    {
        match first_taken(&self.held, clock, id) {
            Some(taken) => Some(taken.chain()),
            None => None,
        }
    }

    /// The highest of a vote and of those that were told to the requests of an id that did not wait too long at this clock.
    pub fn shown<'a>(&'a self, clock: Moment, id: MsgId, told: Option<&'a Vote>) -> Option<&'a Vote>
        ensures { told_vote (option_copied result) ≡ shown_to id (timely clock (held_in self.now)) (told_vote (option_copied told.entry)) }
    {
        shown(&self.held, clock, id, told)
    }
}

/// Puts an item at the end of a vector that has room for it.
fn push_reserved<T: Drop>(items: &mut Vec<T>, item: T)
    requires { vec_len items.old < vec_capacity items.old }
    ensures items { items.new.items ≡ items.old.items ++ item ∷ [] }
    ensures capacity { vec_capacity items.old ≤ vec_capacity items.new }
{
    if items.push(item).is_err() {
        unreachable!();
    }
}
