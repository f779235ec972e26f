//! What a node keeps of one message.

ghost use Rattle.std.specs.Prelude.{◌≡◌, ◌≤◌, ◌<◌, ℕ, true, Ok, Some, None, IfErr, IfOk, IfSome, IsSome, OnErr, OnOk, option_map, if◌then◌else◌};
ghost use Rattle.std.specs.Option.{option_copied};
ghost use Rattle.mc_model.specs.node.Setup.{Setup};
ghost use Rattle.mc_model.specs.synod.Packet.{Slot as SlotValue};
ghost use Rattle.mc_model.specs.synod.Acceptor.{blank, with_record};
ghost use Rattle.node_model.specs.Acceptor.{prepare_judged, propose_judged, told_of};
ghost use Rattle.node_model.specs.Message.{Message as MessageValue, unseen};
ghost use Rattle.node_model.specs.Kept.{Kept as KeptValue};
ghost use Rattle.node_model.specs.Attempts.{concluded, known_refusal, newest_refusal};
ghost use Rattle.node_model.specs.Proposer.{runs_at, unless_reached};
ghost use Rattle.node_model.specs.Answers.{had_fate};
ghost use Rattle.mc_model.specs.message.Ids.{IsId};
ghost use Rattle.synod_proposer.specs.Proposing.{IsOfSame as IsOfSameProposer, message_of as message_proposed};
ghost use Rattle.synod_acceptor.specs.Records.{held_at, record_at};
ghost use Rattle.synod_acceptor.specs.Votes.{record_of, report_of, slot_in, slot_recorded, slot_reported, told_vote, vote_of};
ghost use Rattle.delivery.specs.Kept.{outcome_kept};
ghost use Rattle.tick_rules.specs.declared.standpoint.Standpoint.{Standpoint as StandpointValue};
ghost use Rattle.tick_rules.specs.Attempts.{closed_as};
ghost use Rattle.tick_rules.specs.Standpoints.{kept_of, setup_of, start_of};
ghost use Rattle.synod_learner.specs.Counts.{known_in};
ghost use Rattle.synod_learner.specs.Hearing.{IsRecount};
ghost use Rattle.node_parts.specs.Counting.{IsHeardAnewFor, recounted_in};
ghost use Rattle.node_parts.specs.Recording.{HasRecordRoom, recorded_in};
ghost use Rattle.node_parts.specs.Attempting.{IsBacked, IsBy, IsTried, granted_in, reason_of};
ghost use Rattle.node_model.specs.Ticks.{ruled};
ghost use Rattle.node_model.specs.Rules.{first_rule, known_rule};
ghost use Rattle.node_model.specs.Granted.{is_open_in};
ghost use Rattle.tick_rules.specs.Dues.{rule_of};
ghost use Rattle.delivery.specs.Targets.{is_up};
ghost use Rattle.node_parts.specs.Turning.{IsAtRest, IsOfTurn, gives_up, ruled_as, ruled_by, turned};
ghost use Rattle.node_parts.specs.Messages.{IsConcluded, IsHeard, IsJudged, IsOf, IsPromised, IsRefused, IsStarted, IsStartedFor};
ghost use Rattle.node_parts.specs.Messages.{IsTriedSo, closed_at, granted_at, message_of, rested};
ghost use Rattle.node_parts.specs.Living.{is_decided, is_over};
ghost use Rattle.node_parts.specs.Reaching.{reach_of, reach_with};
ghost use Rattle.node_parts.specs.Sleeping.{IsAsleep, sleep_of};
ghost use Rattle.node_parts.specs.Renewal.{renewed};
ghost use Rattle.waiting_requests.specs.Queues.{timely};
ghost use Rattle.waiting_requests.specs.Waiting.{held_in, known_of};
ghost use Rattle.node_parts.specs.Told.{AreToldOf};

use crate::attempts::Attempts;
use crate::grant_refusal::GrantRefusal;
use crate::reach::{Reach, reached_with};
use crate::ruling::Ruling;
use crate::turn::Turn;
use delivery::Outcome;
use fate_chain::{Author, Chain, Decree, Kind};
use mc_types::{Ballot, Moment, MsgId, NodeNo, Slot};
use pdu_codec::SystemId;
use std::alloc::{AllocError, Global};
use synod_acceptor::{Acceptor, Change, Packet, Record, RecordRoom, Report, Verdict, Vote};
use synod_learner::{Learner, Recount};
use synod_proposer::Proposer;
use tick_rules::{Attempted, Closing, Due, Standpoint, follow, until_due};
use waiting_requests::Queue;

/// What a node keeps of one message: the records of its acceptor, what it heard and knows, what it proposes, and what it did with its
/// attempts.
#[derive(Drop)]
pub struct Message {
    acceptor: Acceptor,
    learner: Learner,
    proposer: Proposer,
    attempts: Attempts,
}

impl Message {
    /// What an author, a node in an incarnation, keeps of a message that was never heard of, in a cluster of so many nodes. It takes no
    /// memory.
    pub fn fresh(alloc: Global, me: Author, nodes: u8) -> Message
        ensures records { (slot : SlotValue) → record_at result.acceptor slot ≡ blank }
        ensures message { (id : ℕ) → message_of id result ≡ unseen }
        ensures own { (id : ℕ) → IsId id → IsOf me.node me.incarnation nodes id result }
    {
        Message {
            acceptor: Acceptor::empty(alloc),
            learner: Learner::make(alloc, nodes),
            proposer: Proposer::make(me, nodes),
            attempts: Attempts::none(),
        }
    }

    /// What the acceptor of the node of this number answers to a Prepare, and the change that is to be saved before. It changes nothing, and takes memory
    /// only to copy a vote.
    pub fn judge_prepare(
        &self,
        node: NodeNo,
        slot: Slot,
        ballot: Ballot,
    ) -> Result<Verdict, AllocError>
        ensures judged { IfOk result (IsJudged self.now slot (prepare_judged node slot ballot (record_at self.now.acceptor slot))) }
        ensures memory { OnErr result ((record_at self.now.acceptor slot).promised < ballot) }
        ensures votes { OnErr result (IsSome (record_at self.now.acceptor slot).vote) }
    {
        self.acceptor.judge_prepare(node, slot, ballot)
    }

    /// What the acceptor of the node of this number answers to a Propose, and the change that is to be saved before. It changes nothing, and takes memory
    /// only to copy the vote.
    pub fn judge_propose(&self, node: NodeNo, vote: &Vote) -> Result<Verdict, AllocError>
        ensures judged { IfOk result (IsJudged self.now (slot_in vote.now)
            (propose_judged node (slot_in vote.now) (vote_of vote.now) (record_at self.now.acceptor (slot_in vote.now)))) }
        ensures memory { OnErr result ((record_at self.now.acceptor (slot_in vote.now)).promised ≤ vote.now.ballot) }
    {
        self.acceptor.judge_propose(node, vote)
    }

    /// Room for the record of a change, to be handed to `apply`. It takes memory only for the first record of a slot, and changes nothing.
    pub fn record_room(&self, change: &Change) -> Result<RecordRoom, AllocError>
        ensures room { IfOk result (HasRecordRoom self.now change.now) }
        ensures memory { OnErr result (held_at self.now.acceptor (slot_recorded change.now.after) ≡ None) }
    {
        self.acceptor.room(change.after.slot())
    }

    /// Makes a change of a record; there is room for it. It takes no memory.
    pub fn apply(&mut self, change: Change, room: RecordRoom)
        requires { HasRecordRoom self.old change room }
        ensures { self.new ≡ recorded_in self.old change }
    {
        self.acceptor.apply_in(change, room);
    }

    /// The record of a slot; none if nothing was promised and nothing voted there. It takes no memory.
    pub fn record(&self, slot: Slot) -> Option<&Record>
        ensures record { option_map record_of (option_copied result) ≡ held_at self.now.acceptor slot }
        ensures slot { IfSome (option_copied result) (λ kept. slot_recorded kept ≡ slot) }
    {
        self.acceptor.record(slot)
    }

    /// Whether a round of this slot runs at this ballot. It takes no memory.
    pub fn runs_at(&self, slot: Slot, ballot: Ballot) -> bool
        ensures { (id : ℕ) → result ≡ runs_at (message_of id self.now).round slot ballot }
    {
        self.proposer.runs_at(slot, ballot)
    }

    /// Counts a promise of a node, with its report, in the round that runs at its slot and ballot, and gives the Propose if it completes a
    /// majority. An `Err` is want of memory, after which the message is worth nothing.
    #[inline(never)]
    pub fn promised_by(
        &mut self,
        from: NodeNo,
        ballot: Ballot,
        report: &Report,
    ) -> Result<Option<Packet>, AllocError>
        ensures { IfOk result (IsPromised self.old from ballot (slot_reported report.now) (report_of report.now) self.new) }
    {
        self.proposer.on_promise(from, ballot, report)
    }

    /// Counts a vote that a node tells of. `true` if its chain is known from then on; then a round that it reaches ends. An `Err` is want
    /// of memory, after which the message is worth nothing.
    #[inline(never)]
    pub fn heard(&mut self, from: NodeNo, vote: &Vote) -> Result<bool, AllocError>
        ensures { IfOk result (IsHeard self.old from vote.now self.new) }
    {
        let grows = self.learner.on_vote(from, vote)?;
        if grows {
            end_reached(&mut self.proposer, &vote.chain);
        }
        Ok(grows)
    }

    /// How a vote that a node tells of is counted, if its chain was voted for at its ballot before, and does not become known by it. None if the
    /// vote is the first of its chain and ballot, or makes its chain known. It takes no memory.
    pub fn recount(&self, from: NodeNo, vote: &Vote) -> Option<Recount>
        ensures { IsHeardAnewFor self.now from vote.now result }
    {
        self.learner.recount(from, vote)
    }

    /// Counts a vote as `recount` has it of this message as it is. It takes no memory.
    pub fn count_anew(&mut self, recount: Recount)
        requires { IsRecount self.old.learner recount }
        ensures { self.new ≡ recounted_in self.old recount }
    {
        self.learner.count_anew(recount);
    }

    /// Whether a final state of the message of this id is known. It takes no memory.
    pub fn has_fate(&self, id: MsgId) -> bool
        ensures { result ≡ had_fate (message_of id self.now).known }
    {
        match self.learner.known(id) {
            Some(chain) => chain.fate().is_some(),
            None => false,
        }
    }

    /// Whether nothing is to be decided on the message of this id any more: its receipt is told, or a final state is known of which none was asked for,
    /// and its acceptor did not vote beyond that. It takes no memory.
    pub fn is_decided(&self, id: MsgId) -> bool
        ensures { result ≡ is_decided id self.now }
    {
        match self.learner.known(id) {
            Some(chain) => {
                is_over(chain) && follow(Some(chain), self.acceptor.tell(id)).is_none()
            }
            None => false,
        }
    }

    /// The moment before which no rule of a tick of this author fits the message of this id, with these accounts of which a session may receive, and if an
    /// attempt may begin or not, while no request asks of it; the greatest, if none ever does. None if one fits now, or if a round of it runs. It takes no
    /// memory.
    pub fn until(&self, id: MsgId, me: &Author, up: &[SystemId], tries: bool) -> Option<Moment>
        ensures until { result ≡ sleep_of me.now (reach_with (is_up up.now) tries) id self.now }
        ensures asleep { IfSome result (λ until. (s : StandpointValue) → s.author ≡ me.now → s.clock < until → IsAsleep s (reach_with (is_up up.now) tries) id self.now) }
    {
        let known = self.learner.known(id);
        if self.proposer.running().is_some() || follow(known, self.acceptor.tell(id)).is_some() {
            return None;
        }
        match known {
            Some(chain) => {
                chain.bounds();
                let reached = reached_with(up, tries, chain.submission());
                until_due(*me, chain, self.attempts.at(chain.place()), reached)
            }
            None => Some(Moment::least().later(u32::MAX)),
        }
    }

    /// Ends the round that runs, if any. It takes no memory.
    pub fn drop_round(&mut self)
        ensures { self.new ≡ rested self.old }
    {
        self.proposer.drop_round();
    }

    /// Starts the round for a chain of it, and gives its Prepare, if no round runs and a number is left: its round is one above the highest
    /// at that place, of the own record, of refusals and of earlier rounds, and at most 2^32 - 1. Else it changes nothing. It takes no
    /// memory.
    pub fn start(&mut self, chain: Chain) -> Option<Packet>
        ensures { IsStarted self.old chain self.new result }
    {
        if self.proposer.running().is_some() {
            return None;
        }
        let slot = Slot {
            id: chain.id(),
            place: chain.place(),
        };
        let own = match self.acceptor.record(slot) {
            Some(record) => record.promised().round(),
            None => 0,
        };
        self.proposer.start(chain, own).ok()
    }

    /// Starts the round for a chain of it, if there is one, and gives its Prepare, if it may start. Else it changes nothing. It takes no
    /// memory.
    pub fn start_for(&mut self, next: Option<Chain>) -> Option<Packet>
        ensures { (id : ℕ) → IfSome next (λ chain. chain.id ≡ id) → IsStartedFor self.old id (option_map start_of next) self.new result }
    {
        self.start(next?)
    }

    /// The chain of the message of this id that is known. It takes no memory.
    pub fn known(&self, id: MsgId) -> Option<&Chain>
        ensures known { known_of (option_copied result) ≡ (message_of id self.now).known }
        ensures id { IfSome (option_copied result) (λ chain. chain.id ≡ id) }
    {
        self.learner.known(id)
    }

    /// The chain of the message of this id that is known, if the attempt in which it ends may be granted to an author. Else the first reason
    /// that fits why it may not. It takes no memory.
    pub fn attempt(&self, id: MsgId, me: Author) -> Result<&Chain, GrantRefusal>
        ensures known { IfOk result (λ chain. (message_of id self.now).known ≡ Some chain.now.decrees) }
        ensures id { IfOk result (λ chain. chain.now.id ≡ id) }
        ensures given { IfOk result (λ chain. (setup : Setup) (k : KeptValue) → IsBy setup k me →
            known_refusal setup k (message_of id self.now) (message_of id self.now).known ≡ None) }
        ensures refused { IfErr result (λ refusal. (setup : Setup) (k : KeptValue) → IsBy setup k me →
            option_map reason_of (known_refusal setup k (message_of id self.now) (message_of id self.now).known) ≡ Some refusal) }
    {
        let Some(chain) = self.learner.known(id) else {
            return Err(GrantRefusal::NotChosen);
        };
        match refusal(chain.newest(), me, self.attempts.at(chain.place())) {
            Some(refusal) => Err(refusal),
            None => Ok(chain),
        }
    }

    /// Whether the attempt at a place was granted and is not closed. It takes no memory.
    pub fn is_open(&self, place: u8) -> bool
        ensures { (id : ℕ) → result ≡ is_open_in (message_of id self.now) place }
    {
        let attempted = self.attempts.at(place);
        attempted.granted && attempted.closed.is_none()
    }

    /// Notes that the attempt at a place was granted. It takes no memory.
    pub fn grant(&mut self, place: u8)
        requires { place ≤ 18 }
        ensures { IsTriedSo self.old (λ m. granted_at m place) self.new }
    {
        let closed = self.attempts.at(place).closed;
        self.attempts.note(
            place,
            Attempted {
                granted: true,
                closed,
            },
        );
    }

    /// Notes what closed the attempt at a place. It takes no memory.
    pub fn close(&mut self, place: u8, closing: Closing)
        requires { place ≤ 18 }
        ensures { IsTriedSo self.old (λ m. closed_at m place (closed_as closing)) self.new }
    {
        let granted = self.attempts.at(place).granted;
        self.attempts.note(
            place,
            Attempted {
                granted,
                closed: Some(closing),
            },
        );
    }

    /// Closes the attempt in a slot with what came of it, and gives the Prepare of the round for its decree, if the attempt is the newest
    /// that is known, no round runs, and a number is left. An `Err` is want of memory, after which the message is worth nothing.
    #[inline(never)]
    pub fn conclude(
        &mut self,
        slot: Slot,
        outcome: Outcome,
        at: &Standpoint,
    ) -> Result<Option<Packet>, AllocError>
        requires { granted_in self.old.attempts slot.place ≡ true }
        ensures { IfOk result (λ packet. IsOf at.now.author.node at.now.author.incarnation self.old.learner.nodes slot.id self.old →
            IsConcluded at.now self.old slot (outcome_kept outcome) self.new packet) }
    {
        let closing = Closing::Answered(outcome);
        let next = next_behind(&self.learner, slot, &closing, at)?;
        self.close(slot.place, closing);
        match next {
            Some(next) => Ok(self.start(next)),
            None => Ok(None),
        }
    }

    /// What a tick makes of the message of this id, if it is not kept as it was, once no round of it runs. `reach` has the accounts of which a
    /// session may receive and the messages of which an attempt may begin, `queue` the requests that wait, of which those count that did not wait too long. If no rule fits, it is kept
    /// as it was, and no memory is taken.
    #[inline(never)]
    pub fn turn(
        &self,
        id: MsgId,
        at: &Standpoint,
        queue: &Queue,
        reach: &Reach,
    ) -> Result<Option<Turn>, AllocError>
        requires { AreToldOf (timely at.now.clock (held_in queue.now)) }
        ensures same { IfOk result (IsOfTurn id self.now) }
        ensures turned { IfOk result (λ turn. (setup : Setup) (k : KeptValue) → IsAtRest setup k (timely at.now.clock (held_in queue.now)) id self.now at.now →
            IsOf setup.node k.incarnation setup.nodes id self.now → turned k id turn ≡ ruled setup k id (first_rule setup k (reach_of reach.now) id)) }
        ensures idle { (setup : Setup) (k : KeptValue) → IsAtRest setup k (timely at.now.clock (held_in queue.now)) id self.now at.now →
            first_rule setup k (reach_of reach.now) id ≡ None → result ≡ Ok None }
    {
        let Some(ruling) = self.ruling(id, at, queue, reach)? else {
            return Ok(None);
        };
        let mut message = self.copy()?;
        message.drop_round();
        let Ruling { chain, given_up } = ruling;
        match given_up {
            Some(place) => {
                message.close(place, Closing::GivenUp);
                let packet = message.start(chain);
                Ok(Some(Turn { message, packet }))
            }
            None => match message.start(chain) {
                Some(packet) => Ok(Some(Turn {
                    message,
                    packet: Some(packet),
                })),
                None => Ok(None),
            },
        }
    }

    /// What a tick decides on the message of this id by the first rule that fits, if one does: it is taken for a submit_sm that waits, the highest vote
    /// beyond what is known is followed that is its own or was told to a request, or it is decided what is due after that. `reach` has the accounts of
    /// which a session may receive and the messages of which an attempt may begin, and `queue` the requests that wait, of which those count that did not
    /// wait too long. It takes memory only if a rule fits.
    pub fn ruling(
        &self,
        id: MsgId,
        at: &Standpoint,
        queue: &Queue,
        reach: &Reach,
    ) -> Result<Option<Ruling>, AllocError>
        requires { AreToldOf (timely at.now.clock (held_in queue.now)) }
        ensures rule { IfOk result (λ ruling. (setup : Setup) (k : KeptValue) → IsAtRest setup k (timely at.now.clock (held_in queue.now)) id self.now at.now →
            option_map ruled_as ruling ≡ option_map ruled_by (first_rule setup k (reach_of reach.now) id)) }
        ensures idle { (setup : Setup) (k : KeptValue) → IsAtRest setup k (timely at.now.clock (held_in queue.now)) id self.now at.now →
            first_rule setup k (reach_of reach.now) id ≡ None → result ≡ Ok None }
        ensures id { IfOk result (λ ruling. IfSome ruling (λ it. it.chain.id ≡ id)) }
        ensures place { IfOk result (λ ruling. IfSome ruling (λ it. IfSome it.given_up (λ place. place ≤ 18))) }
    {
        if let Some(chain) = queue.taken(at.clock, id) {
            let chain = chain.copy()?;
            return Ok(Some(Ruling {
                chain,
                given_up: None,
            }));
        }
        let known = self.learner.known(id);
        if let Some(chain) = follow(known, queue.shown(at.clock, id, self.acceptor.tell(id))) {
            let chain = chain.copy()?;
            return Ok(Some(Ruling {
                chain,
                given_up: None,
            }));
        }
        match known {
            Some(chain) => self.ruling_behind(chain, at, queue, reach),
            None => Ok(None),
        }
    }

    /// What a tick decides after a chain of the message that is known, if anything is due there. It takes memory only if something is.
    fn ruling_behind(
        &self,
        chain: &Chain,
        at: &Standpoint,
        queue: &Queue,
        reach: &Reach,
    ) -> Result<Option<Ruling>, AllocError>
        ensures rule { IfOk result (λ ruling. (setup : Setup) (k : KeptValue) → IsAtRest setup k
            (timely at.now.clock (held_in queue.now)) chain.now.id self.now at.now →
            option_map ruled_as ruling ≡ option_map ruled_by (known_rule setup k (reach_of reach.now) chain.now.id (Some chain.now.decrees))) }
        ensures idle { (setup : Setup) (k : KeptValue) → IsAtRest setup k (timely at.now.clock (held_in queue.now)) chain.now.id self.now at.now →
            known_rule setup k (reach_of reach.now) chain.now.id (Some chain.now.decrees) ≡ None → result ≡ Ok None }
        ensures id { IfOk result (λ ruling. IfSome ruling (λ it. it.chain.id ≡ chain.now.id)) }
        ensures place { IfOk result (λ ruling. IfSome ruling (λ it. IfSome it.given_up (λ place. place ≤ 18))) }
    {
        let place = chain.place();
        let taken = chain.submission();
        let cancelled = queue.cancels(at.clock, chain.id(), taken);
        let reached = reach.reached(chain.id(), taken);
        let Some(due) = at.due(chain, self.attempts.at(place), cancelled, reached) else {
            return Ok(None);
        };
        let given_up = given_up(&due, place);
        let chain = at.behind(chain, due)?;
        Ok(Some(Ruling { chain, given_up }))
    }

    /// Takes in that a ballot was refused for a promise at another; one of another node or incarnation changes nothing. It takes no
    /// memory.
    pub fn refused(&mut self, slot: Slot, ballot: Ballot, promised: Ballot)
        ensures { IsRefused self.old slot ballot promised self.new }
    {
        self.proposer.on_refused(slot, ballot, promised);
    }

    /// Takes in a record of its store.
    #[inline(never)]
    pub fn file(&mut self, stored: Record) -> Result<(), AllocError>
        ensures records { OnOk result ((slot : SlotValue) →
            record_at self.new.acceptor slot ≡ with_record (record_at self.old.acceptor) (slot_recorded stored) (record_of stored) slot) }
        ensures others { OnOk result ((id : ℕ) → message_of id self.new ≡ message_of id self.old) }
        ensures own { OnOk result ((me starts nodes id : ℕ) → IsOf me starts nodes id self.old → IsOf me starts nodes id self.new) }
    {
        self.acceptor.apply(Change { after: stored })?;
        Ok(())
    }

    /// The vote at the highest place of the message of this id at which its acceptor voted; none if it did not. It takes no memory.
    pub fn told(&self, id: MsgId) -> Option<&Vote>
        ensures { told_vote (option_copied result) ≡ told_of (record_at self.now.acceptor) id }
    {
        self.acceptor.tell(id)
    }

    /// Keeps it for this node in this incarnation from now on.
    pub fn act_for(&mut self, me: Author)
        ensures { self.new ≡ renewed me self.old }
    {
        self.proposer.act_for(me);
    }

    /// The same message once more.
    #[inline(never)]
    pub fn copy(&self) -> Result<Message, AllocError>
        ensures { IfOk result (λ message. message ≡ self.now) }
    {
        Ok(Message {
            acceptor: self.acceptor.copy()?,
            learner: self.learner.copy()?,
            proposer: self.proposer.copy()?,
            attempts: self.attempts,
        })
    }
}

/// Whether nothing may follow a chain: it ends in a Told, or in a final state of which no receipt was asked for.
fn is_over(chain: &Chain) -> bool
    ensures { result ≡ is_over chain.now.decrees }
{
    match chain.newest().kind {
        Kind::Fate(last, _) => !chain.submission().asks_receipt(last),
        Kind::Told => true,
        _ => false,
    }
}

/// The place of the attempt that is given up, if that is due after the chain at this place.
fn given_up(due: &Due, place: u8) -> Option<u8>
    ensures place { result ≡ (if gives_up (rule_of due.now) then Some place else None) }
    ensures same { IfSome result (λ found. found ≡ place) }
{
    match due {
        Due::GiveUp => Some(place),
        _ => None,
    }
}

/// The chain that is known, with the decree after it on the attempt in which it ends, that of this slot, if it ends there.
fn next_behind(
    learner: &Learner,
    slot: Slot,
    closing: &Closing,
    at: &Standpoint,
) -> Result<Option<Chain>, AllocError>
    ensures start { IfOk result (λ next. IsBacked at.now.author.node at.now.author.incarnation slot.place (known_in learner.now.known slot.id) →
        option_map start_of next ≡ concluded (setup_of at.now) (kept_of at.now) slot (closed_as closing.now) (known_in learner.now.known slot.id)) }
    ensures id { IfOk result (λ next. IfSome next (λ chain. chain.id ≡ slot.id)) }
{
    let Some(chain) = learner.known(slot.id) else {
        return Ok(None);
    };
    if chain.place() != slot.place {
        return Ok(None);
    }
    let Some(due) = at.end(chain, *closing) else {
        return Ok(None);
    };
    let next = at.behind(chain, due)?;
    Ok(Some(next))
}

/// Why an attempt is not granted to an author, by the newest decree of what is known and by what was done with the attempt.
fn refusal(newest: &Decree, me: Author, attempted: Attempted) -> Option<GrantRefusal>
    ensures { (setup : Setup) (k : KeptValue) (m : MessageValue) (place : ℕ) → IsBy setup k me → IsTried m place attempted →
        result ≡ option_map reason_of (newest_refusal setup k m newest.now place newest.now.kind) }
{
    if !matches!(newest.kind, Kind::Attempt(_)) {
        Some(GrantRefusal::NotChosen)
    } else if newest.author.node != me.node {
        Some(GrantRefusal::NotMine)
    } else if newest.author.incarnation != me.incarnation {
        Some(GrantRefusal::OlderIncarnation)
    } else if attempted.granted {
        Some(GrantRefusal::AlreadyGranted)
    } else if attempted.closed.is_some() {
        Some(GrantRefusal::Closed)
    } else {
        None
    }
}

/// Ends the round that runs, if the chain reaches its place. It takes no memory.
fn end_reached(proposer: &mut Proposer, chain: &Chain)
    ensures round { (message_proposed proposer.new).round ≡ unless_reached chain.now.decrees (message_proposed proposer.old).round }
    ensures seen { proposer.new.seen ≡ proposer.old.seen }
    ensures same { IsOfSameProposer proposer.old proposer.new }
{
    let Some(slot) = proposer.running() else {
        return;
    };
    if slot.place <= chain.place() {
        proposer.drop_round();
    }
}
