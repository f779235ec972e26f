//! Requests that wait.

ghost use Rattle.std.specs.Prelude.{◌≡◌, ◌&&◌, ◌||◌, None, Some, IfOk, IfSome, IsTrue, OnErr, OnOk, false, option_map, if◌then◌else◌};
ghost use Rattle.std.specs.Option.{ForSome, option_copied};
ghost use Rattle.mc_model.specs.message.Chain.{taken_in};
ghost use Rattle.mc_model.specs.message.Submission.{Submission as SubmissionValue};
ghost use Rattle.mc_model.specs.node.Replies.{Unknown};
ghost use Rattle.node_model.specs.Answers.{answer_to, still_waits};
ghost use Rattle.node_model.specs.Packets.{settled_for, tells_about};
ghost use Rattle.mc_model.specs.node.Setup.{Setup};
ghost use Rattle.node_model.specs.Kept.{Kept};
ghost use Rattle.node_model.specs.Requests.{asks, begun, higher_top, id_of, is_cancel, is_settled, is_untold, settled_by, settles, ticket_of, told_by};
ghost use Rattle.node_model.specs.Starts.{cancels, take_for};
ghost use Rattle.node_model.specs.Ticks.{is_late, late_reply};
ghost use Rattle.synod_acceptor.specs.Packets.{packet_of};
ghost use Rattle.synod_acceptor.specs.Votes.{told_vote};
ghost use Rattle.waiting_requests.specs.Questions.{question_by};
ghost use Rattle.waiting_requests.specs.Replying.{ShowsChain, answer_given, answer_with, reply_given, reply_to, reply_with};
ghost use Rattle.waiting_requests.specs.Queues.{is_answered};
ghost use Rattle.waiting_requests.specs.Showing.{IsAbout};
ghost use Rattle.waiting_requests.specs.Submits.{IsNumberedBy, begun_of, start_of};
ghost use Rattle.waiting_requests.specs.Tops.{Passes, over, shown_by, told_by_most};
ghost use Rattle.waiting_requests.specs.Waiting.{IsSince, held_of, known_of, request_of};

use crate::answer::{Answer, Reply};
use crate::request::Request;
use crate::taken::Taken;
use crate::told::{higher, is_majority, is_reached, passes, raise};
use crate::verdict::Verdict;
use fate_chain::{Chain, Submission};
use mc_types::{Incarnation, Moment, MsgId, NodeNo, NodeSet};
use std::alloc::AllocError;
use std::marker::Model;
use synod_acceptor::{Name, Packet, Vote};

/// How long a request waits at most, in seconds.
const LONGEST_WAIT: u32 = 30;

/// A request that waits under a ticket, since a moment: whether it was settled, who told to its questions, and of what they told the
/// vote at the highest place, and there at the highest ballot.
#[derive(Drop)]
pub struct Held {
    ticket: u64,
    since: Moment,
    request: Request,
    settled: bool,
    tellers: NodeSet,
    top: Option<Vote>,
}

impl Model for Held {
    ghost use Rattle.waiting_requests.specs.Waiting.{IsSince, Waits, request_of};
    ghost use Rattle.synod_acceptor.specs.Votes.{told_vote};

    ghost Value = { Waits };

    ghost view = { λ h. record {
      waiting = record { ticket = h.ticket; since = h.since; request = request_of h.request; settled = h.settled };
      tellers = h.tellers;
      top = told_vote h.top;
    } };

    ghost invariant = { λ h. IsSince h.since h.request };
}

impl Held {
    /// A request that begins to wait. The message of a submit_sm was taken at this moment.
    pub fn begin(ticket: u64, since: Moment, request: Request) -> Held
        requires { IsSince since request }
        ensures { held_of result ≡ begun ticket since (request_of request) }
    {
        Held {
            ticket,
            since,
            request,
            settled: false,
            tellers: NodeSet::empty(),
            top: None,
        }
    }

    /// Its ticket.
    pub fn ticket(&self) -> u64
        ensures { result ≡ ticket_of (held_of self.now) }
    {
        self.ticket
    }

    /// The id of the message that it is about.
    pub fn id(&self) -> MsgId
        ensures { result ≡ id_of (held_of self.now) }
    {
        self.request.id()
    }

    /// The request.
    pub fn request(&self) -> &Request
        ensures { request_of result.now ≡ (held_of self.now).waiting.request }
    {
        &self.request
    }

    /// Whether what is told is told of its message; that nothing is told may be of every message.
    pub fn is_told_by(&self, told: Option<&Vote>) -> bool
        ensures { result ≡ tells_about (told_vote (option_copied told.entry)) (id_of (held_of self.now)) }
    {
        match told {
            Some(vote) => vote.chain.id() == self.id(),
            None => true,
        }
    }

    /// Takes in what a node told of its message: that it told, and its vote, if that is higher than what was told before. An `Err` is
    /// want of memory, which only a higher vote needs, and changes nothing.
    pub fn hear(&mut self, from: NodeNo, told: Option<&Vote>) -> Result<(), AllocError>
        ensures ok { OnOk result (held_of self.new ≡ told_by (held_of self.old) from (told_vote (option_copied told.entry))) }
        ensures err { OnErr result (self.new ≡ self.old) }
        ensures memory { OnErr result (Passes (held_of self.old).top (told_vote (option_copied told.entry))) }
    {
        let higher = self.higher_copy(told)?;
        raise(&mut self.top, higher);
        self.tellers.add(from);
        Ok(())
    }

    /// A copy of the vote that is told, if it is higher than what was told before.
    fn higher_copy(&self, told: Option<&Vote>) -> Result<Option<Vote>, AllocError>
        ensures copy { IfOk result (λ copy. higher_top (held_of self.now).top (told_vote (option_copied told.entry))
            ≡ over (told_vote copy) (held_of self.now).top) }
        ensures memory { OnErr result (Passes (held_of self.now).top (told_vote (option_copied told.entry))) }
    {
        let Some(vote) = told else {
            return Ok(None);
        };
        if !passes(vote, self.top.as_ref()) {
            return Ok(None);
        }
        Ok(Some(vote.copy()?))
    }

    /// Whether a majority of so many nodes told, and what is known reaches all that they told.
    pub(crate) fn is_settled(&self, nodes: u8, known: Option<&Chain>) -> bool
        ensures { result ≡ is_settled nodes (known_of (option_copied known.entry)) (held_of self.now) }
    {
        is_majority(nodes, self.tellers) && is_reached(known, self.top.as_ref())
    }

    /// Whether it is a cancel_sm that is to be settled now, and was not before.
    pub fn settles(&self, nodes: u8, known: Option<&Chain>) -> bool
        ensures { result ≡ settles nodes (known_of (option_copied known.entry)) (held_of self.now) }
    {
        self.request.is_cancel() && !self.settled && self.is_settled(nodes, known)
    }

    /// Settles a cancel_sm, if it is to be settled now. It takes no memory.
    pub fn settle(&mut self, nodes: u8, known: Option<&Chain>)
        ensures { held_of self.new ≡ settled_by nodes (known_of (option_copied known.entry)) (held_of self.old) }
    {
        if self.settles(nodes, known) {
            self.settled = true;
        }
    }

    /// Whether it asks questions to which no majority of so many nodes told.
    pub(crate) fn is_untold(&self, nodes: u8) -> bool
        ensures { result ≡ is_untold nodes (held_of self.now) }
    {
        self.request.asks() && !is_majority(nodes, self.tellers)
    }

    /// The highest vote that was told, once a majority of so many nodes told.
    pub fn told_by_most(&self, nodes: u8) -> Option<&Vote>
        ensures { told_vote (option_copied result) ≡ told_by_most nodes (held_of self.now) }
    {
        if is_majority(nodes, self.tellers) {
            self.top.as_ref()
        } else {
            None
        }
    }

    /// Its question, for the node and the incarnation in which it waits.
    pub fn question(&self, node: NodeNo, incarnation: Incarnation) -> Packet
        ensures { packet_of result ≡ question_by node incarnation (held_of self.now) }
    {
        Packet::Ask {
            from: node,
            id: self.id(),
            name: Name {
                node,
                incarnation,
                ticket: self.ticket,
            },
        }
    }

    /// Whether it came 30 seconds before this clock, or earlier.
    pub(crate) fn is_late(&self, clock: Moment) -> bool
        ensures { result ≡ is_late clock (held_of self.now) }
    {
        self.since.seconds() + LONGEST_WAIT <= clock.seconds()
    }

    /// What it is answered by what is known of its message; nothing if it still waits. An `Err` is want of memory, which only the
    /// copy of a chain needs.
    pub fn answer(&self, nodes: u8, known: Option<&Chain>) -> Result<Option<Answer>, AllocError>
        ensures answer { IfOk result (λ answer. option_map answer_given answer ≡ answer_to nodes (known_of (option_copied known.entry)) (held_of self.now)) }
        ensures about { IfSome known.entry (λ chain. chain.now.id ≡ id_of (held_of self.now)) → IfOk result (λ answer. IfSome answer (IsAbout (id_of (held_of self.now)))) }
        ensures memory { OnErr result (ShowsChain (answer_to nodes (known_of (option_copied known.entry)) (held_of self.now))) }
    {
        let Some(chain) = known else {
            return Ok(self.answer_unheard(nodes));
        };
        match self.verdict(nodes, chain) {
            Some(verdict) => Ok(Some(verdict.answer(chain)?)),
            None => Ok(None),
        }
    }

    /// What it is answered if nothing is known of its message.
    fn answer_unheard(&self, nodes: u8) -> Option<Answer>
        ensures answer { option_map answer_given result ≡ answer_to nodes None (held_of self.now) }
        ensures about { IfSome result (IsAbout (id_of (held_of self.now))) }
    {
        if self.is_unknown(nodes) {
            Some(Answer::Unknown)
        } else {
            None
        }
    }

    /// Whether it is answered that there is no such message, if nothing is known of it.
    fn is_unknown(&self, nodes: u8) -> bool
        ensures { answer_to nodes None (held_of self.now) ≡ (if result then Some Unknown else None) }
    {
        self.request.asks() && self.is_settled(nodes, None)
    }

    /// What it is answered by a chain of its message.
    fn verdict(&self, nodes: u8, chain: &Chain) -> Option<Verdict>
        ensures { option_map (answer_with chain.now.decrees) result ≡ answer_to nodes (Some chain.now.decrees) (held_of self.now) }
    {
        let reached = self.is_settled(nodes, Some(chain));
        Verdict::of(&self.request, self.settled, reached, chain)
    }

    /// The reply to it by what is known of its message; none if it still waits. An `Err` is want of memory, which only the copy of a chain needs.
    pub fn reply_now(&self, nodes: u8, known: Option<&Chain>) -> Result<Option<Reply>, AllocError>
        requires { IfSome known (λ chain. chain.now.id ≡ id_of (held_of self.now)) }
        ensures reply { IfOk result (λ reply. option_map reply_given reply
            ≡ reply_with (held_of self.now) (answer_to nodes (known_of (option_copied known.entry)) (held_of self.now))) }
        ensures memory { OnErr result (ShowsChain (answer_to nodes (known_of (option_copied known.entry)) (held_of self.now))) }
    {
        Ok(self.reply_with(self.answer(nodes, known)?))
    }

    /// Whether it still waits once this chain is known: it is about another message, or has no answer by it. It takes no memory.
    pub(crate) fn still_waits(&self, nodes: u8, chain: &Chain) -> bool
        ensures { result ≡ still_waits nodes (Some chain.now.decrees) chain.now.id (held_of self.now) }
    {
        self.id() != chain.id() || self.verdict(nodes, chain).is_none()
    }

    /// The reply to it once this chain is known, by which a cancel_sm may be settled; none if it still waits then. An `Err` is want
    /// of memory, which only a reply needs.
    pub(crate) fn reply(&self, nodes: u8, chain: &Chain) -> Result<Option<Reply>, AllocError>
        ensures reply { IfOk result (λ reply. option_map reply_given reply
            ≡ reply_to nodes (Some chain.now.decrees) chain.now.id (settled_for nodes chain.now.id chain.now.decrees (held_of self.now))) }
        ensures memory { OnErr result (IsTrue (is_answered nodes chain.now.id chain.now.decrees (held_of self.now))) }
    {
        if self.id() != chain.id() {
            return Ok(None);
        }
        let answer = match self.verdict_then(nodes, chain) {
            Some(verdict) => Some(verdict.answer(chain)?),
            None => None,
        };
        Ok(self.reply_with(answer))
    }

    /// What it is answered by a chain of its message, by which it may be settled.
    fn verdict_then(&self, nodes: u8, chain: &Chain) -> Option<Verdict>
        ensures { option_map (answer_with chain.now.decrees) result
            ≡ answer_to nodes (Some chain.now.decrees) (settled_by nodes (Some chain.now.decrees) (held_of self.now)) }
    {
        let reached = self.is_settled(nodes, Some(chain));
        Verdict::of(&self.request, self.is_settled_then(reached), reached, chain)
    }

    /// Whether it was settled, or is a cancel_sm that is settled now.
    fn is_settled_then(&self, reached: bool) -> bool
        ensures { result ≡ ((held_of self.now).waiting.settled || (is_cancel (held_of self.now).waiting.request && reached)) }
    {
        self.settled || (self.request.is_cancel() && reached)
    }

    /// The reply to it with this answer, if there is one.
    fn reply_with(&self, answer: Option<Answer>) -> Option<Reply>
        requires { ForSome answer (IsAbout (id_of (held_of self.now))) }
        ensures { option_map reply_given result ≡ reply_with (held_of self.now) (option_map answer_given answer) }
    {
        Some(self.reply_of(answer?))
    }

    /// The reply to it once it waited too long.
    pub(crate) fn late_reply(&self) -> Reply
        ensures { reply_given result ≡ late_reply (held_of self.now) }
    {
        self.reply_of(Answer::TooLate)
    }

    /// The reply to it with this answer.
    fn reply_of(&self, answer: Answer) -> Reply
        requires { IsAbout (id_of (held_of self.now)) answer }
        ensures { reply_given result ≡ record { ticket = ticket_of (held_of self.now); id = id_of (held_of self.now); answer = answer_given answer } }
    {
        let ticket = self.ticket;
        Reply {
            ticket,
            id: self.id(),
            answer,
        }
    }

    /// Whether it is a settled cancel_sm of the message of this id, and matches it.
    pub fn cancels(&self, id: MsgId, message: &Submission) -> bool
        ensures { result ≡ cancels id message.now (held_of self.now) }
    {
        self.settled && self.request.matches(id, message)
    }

    /// Whether it is a cancel_sm that is settled once this chain is known, of the message of this chain, and matches it.
    pub(crate) fn cancels_then(&self, nodes: u8, chain: &Chain) -> bool
        ensures { (message : SubmissionValue) → taken_in chain.now.decrees ≡ Some message →
            result ≡ cancels chain.now.id message (settled_for nodes chain.now.id chain.now.decrees (held_of self.now)) }
    {
        if self.id() != chain.id() {
            return self.cancels(chain.id(), chain.submission());
        }
        let settled = self.settled || self.settles(nodes, Some(chain));
        settled && self.request.matches(chain.id(), chain.submission())
    }

    /// Settles a cancel_sm of the message of this chain, if it is to be settled now. It takes no memory.
    pub(crate) fn settle_for(&mut self, nodes: u8, chain: &Chain)
        ensures { held_of self.new ≡ settled_for nodes chain.now.id chain.now.decrees (held_of self.old) }
    {
        if self.id() == chain.id() {
            self.settle(nodes, Some(chain));
        }
    }

    /// The chain by which its message is taken, if it is a submit_sm, of its id. An `Err` is want of memory, which only a submit_sm needs.
    pub fn chain(&self) -> Result<Option<Chain>, AllocError>
        ensures start { IfOk result (λ chain. (setup : Setup) (k : Kept) → IsNumberedBy setup.node k.incarnation (held_of self.now).waiting.request →
            option_map start_of chain ≡ take_for setup k (held_of self.now) (held_of self.now).waiting.request) }
        ensures id { IfOk result (λ chain. IfSome chain (λ it. it.id ≡ id_of (held_of self.now))) }
        ensures asks { IfOk result (λ chain. IfSome chain (λ it. asks (held_of self.now).waiting.request ≡ false)) }
        ensures memory { OnErr result (asks (held_of self.now).waiting.request ≡ false) }
    {
        match &self.request {
            Request::Submit(taken) => Ok(Some(taken.chain().copy()?)),
            _ => Ok(None),
        }
    }

    /// Its question, for the node and the incarnation in which it waits, if it asks one.
    pub fn asked(&self, node: NodeNo, incarnation: Incarnation) -> Option<Packet>
        ensures { option_map packet_of result ≡
            (if asks (held_of self.now).waiting.request then Some (question_by node incarnation (held_of self.now)) else None) }
    {
        if !self.request.asks() {
            return None;
        }
        Some(self.question(node, incarnation))
    }

    /// The message of a submit_sm of this id.
    pub(crate) fn taken(&self, id: MsgId) -> Option<&Taken>
        ensures { option_copied result ≡ begun_of id (held_of self.now) }
    {
        if self.id() != id {
            return None;
        }
        match &self.request {
            Request::Submit(taken) => Some(taken),
            _ => None,
        }
    }

    /// The highest of a vote and of those that were told to it, if it is about the message of this id; else that vote.
    pub(crate) fn shown<'a>(&'a self, id: MsgId, top: Option<&'a Vote>) -> Option<&'a Vote>
        ensures { told_vote (option_copied result) ≡ shown_by id (held_of self.now) (told_vote (option_copied top.entry)) }
    {
        if self.id() != id {
            return top;
        }
        higher(top, self.top.as_ref())
    }

    /// The same once more.
    pub fn copy(&self) -> Result<Held, AllocError>
        ensures { IfOk result (λ held. held ≡ self.now) }
    {
        let top = match &self.top {
            Some(vote) => Some(vote.copy()?),
            None => None,
        };
        Ok(Held {
            ticket: self.ticket,
            since: self.since,
            request: self.request.copy()?,
            settled: self.settled,
            tellers: self.tellers,
            top,
        })
    }
}
