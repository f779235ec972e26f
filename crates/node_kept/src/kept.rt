//! What a node keeps.

ghost use Rattle.std.specs.Prelude.{◌≡◌, ℕ, suc, ◌+◌, ◌≤◌, ◌&&◌, length, [], None, IfErr, IfOk, IfSome, IsOk, OnOk, not, option_map, false, true};
ghost use Rattle.std.specs.Option.{option_copied};
ghost use Rattle.mc_model.specs.node.Setup.{Setup as SetupValue};
ghost use Rattle.mc_model.specs.synod.Acceptor.{Records};
ghost use Rattle.node_model.specs.Acceptor.{told_of};
ghost use Rattle.node_model.specs.Answers.{is_told_by, receipts_of};
ghost use Rattle.node_model.specs.Outputs.{leaves};
ghost use Rattle.mc_model.specs.message.Ids.{IsId};
ghost use Rattle.mc_model.specs.node.Room.{is_busy, last_ticket};
ghost use Rattle.node_model.specs.Kept.{message_at};
ghost use Rattle.node_model.specs.Proposer.{is_own_ballot, runs_at};
ghost use Rattle.node_model.specs.Packets.{is_member, on_ask, on_packet, on_prepare, on_promise, on_propose, on_refused};
ghost use Rattle.synod_acceptor.specs.Packets.{packet_of};
ghost use Rattle.shelf.specs.Shelved.{value_at, with_value};
ghost use Rattle.synod_acceptor.specs.Records.{entries_of, record_at};
ghost use Rattle.synod_acceptor.specs.Votes.{report_of, slot_in, slot_reported, told_vote, vote_of};
ghost use Rattle.node_parts.specs.Lists.{listed};
ghost use Rattle.node_kept.specs.Grouping.{IsAlone};
ghost use Rattle.node_kept.specs.Idling.{FindsNothing};
ghost use Rattle.node_kept.specs.Keeping.{AreOwn, IsOpen, IsTaken, kept_of};
ghost use Rattle.node_kept.specs.Listing.{ListsRecorded};
ghost use Rattle.node_kept.specs.Queueing.{HasPlace, requeued};
ghost use Rattle.node_kept.specs.declared.queue_change.QueueChange.TheVariants.{Same};
ghost use Rattle.waiting_requests.specs.Waiting.{held_in};
ghost use Rattle.node_kept.specs.Voting.{IsCountedSo, id_concerns, voted_in};
ghost use Rattle.node_kept.specs.Preparing.{IsPrepared};
ghost use Rattle.node_kept.specs.Steps.{HasRoom, IsAnswer, IsCounting, IsFault, IsInstalled, IsLeft, IsNext, IsQuietStep, IsStep, IsTakenQuietly, MayCount, MayRecord, PutsOne};
ghost use Rattle.node_kept.specs.Steps.{counted_if, entries_after, entries_before, giving, recorded_if, refused_by, rested_if};
ghost use Rattle.node_model.specs.Reported.{receipt_of};

use crate::queue_change::QueueChange;
use crate::setup::Setup;
use crate::step::{Counted, Next, Put, QuietStep, Step};
use fate_chain::{Author, Chain, Decree, Kind};
use mc_types::{Ballot, Incarnation, Moment, MsgId, NodeNo, Slot};
use node_parts::{Input, Message, MessageShelf, Outputs, Reach, StepFault, sender};
use std::alloc::{AllocError, Global};
use synod_acceptor::{Change, Name, Packet, Record, RecordRoom, Report, Verdict, Vote};
use tick_rules::Standpoint;
use waiting_requests::Queue;

/// What a node keeps in an incarnation: its clock, the serial of its next message, how many tickets were given, the requests that wait,
/// and what it knows of each message of which it heard.
#[derive(Drop)]
pub struct Kept {
    pub(crate) alloc: Global,
    pub(crate) setup: Setup,
    incarnation: Incarnation,
    pub(crate) clock: Moment,
    serial: u32,
    given: u64,
    pub(crate) queue: Queue,
    pub(crate) messages: MessageShelf,
}

impl Kept {
    /// What a node keeps that opens in an incarnation over these records; of several of a slot the first counts.
    #[inline(never)]
    pub fn open(
        alloc: Global,
        setup: Setup,
        incarnation: Incarnation,
        records: Vec<Record>,
    ) -> Result<Kept, AllocError>
        ensures { IfOk result (IsOpen setup incarnation (record_at (entries_of records.items))) }
    {
        let serial = setup.first_serial;
        let mut kept = Kept {
            alloc,
            setup,
            incarnation,
            clock: Moment::least(),
            serial,
            given: 0,
            queue: Queue::make(alloc)?,
            messages: MessageShelf::empty(alloc),
        };
        kept.file_all(records)?;
        Ok(kept)
    }

    /// Begins in this incarnation, of a node that opened and took no step yet. It takes no memory.
    pub fn begin(&mut self, incarnation: Incarnation)
        ensures { (with : SetupValue) (starts : ℕ) (records : Records) → IsOpen with starts records self.old → IsOpen with incarnation records self.new }
    {
        self.incarnation = incarnation;
        let me = self.author();
        self.messages.renew(me);
    }

    /// What a proof takes of its messages: each of which there is a record is among them. The call does nothing.
    pub fn lists(&self)
        ensures { ListsRecorded (kept_of self.now) }
    {
        self.messages.ascends();
    }

    /// The step that an input leads to, and the packet that came, if one did. It changes nothing, and copies what is kept of the input's message
    /// alone, or of those that a tick does not leave as they are. A refusal comes before any memory is taken, and a tick that finds nothing due
    /// takes none.
    #[inline(always)]
    pub fn step(&self, input: Input) -> Result<(Step, Option<Packet>), StepFault>
        requires { AreOwn self.now }
        ensures ok { IfOk result (λ prepared. IsPrepared self.now input prepared.0 prepared.1) }
        ensures faults { IfErr result (IsFault (refused_by self.now.setup (kept_of self.now) input)) }
        ensures idle { FindsNothing self.now.setup (kept_of self.now) input → IsOk result }
    {
        match input {
            Input::Packet(packet) => {
                let step = self.on_packet(&packet)?;
                Ok((step, Some(packet)))
            }
            Input::Request(account, request) => {
                let step = self.on_request(&account, request)?;
                Ok((step, None))
            }
            Input::Grant(id) => {
                let step = self.on_grant(id)?;
                Ok((step, None))
            }
            Input::Answered(slot, outcome) => {
                let step = self.on_answered(slot, outcome)?;
                Ok((step, None))
            }
            Input::Tick(moment, reach) => {
                let step = self.on_tick(moment, reach)?;
                Ok((step, None))
            }
        }
    }

    /// Takes the step of a packet, if it is one that gives nothing out, saves nothing and copies nothing: a promise for which no round runs, a vote that does
    /// not concern the node or is counted where it stands, and what is told to a question that is not its own. False leaves it as it was. It takes no memory.
    #[inline(always)]
    pub fn take_quietly(&mut self, packet: &Packet) -> bool
        requires { AreOwn self.old }
        ensures taken { result ≡ true → IsTakenQuietly self.old packet.now self.new }
        ensures stays { result ≡ false → self.new ≡ self.old }
    {
        match self.quiet_step(packet) {
            Some(quiet) => {
                count_if(&mut self.messages, quiet.counted);
                true
            }
            None => false,
        }
    }

    /// What the step of a packet does, if it is one that `take_quietly` takes.
    #[inline(always)]
    fn quiet_step(&self, packet: &Packet) -> Option<QuietStep>
        requires { AreOwn self.now }
        ensures { IfSome result (IsQuietStep self.now (on_packet self.now.setup (kept_of self.now) (packet_of packet.now))) }
    {
        if !self.is_member(sender(packet)) {
            return Some(self.unmoved());
        }
        match packet {
            Packet::Promise {
                from,
                ballot,
                report,
            } => self.quiet_promise(*from, *ballot, report),
            Packet::Voted { from, vote } => self.quiet_vote(*from, vote),
            Packet::Tell { from, name, told } => self.quiet_tell(*from, *name, told.as_ref()),
            _ => None,
        }
    }

    /// What a step does that leaves all as it is: nothing.
    #[inline(always)]
    pub(crate) fn unmoved(&self) -> QuietStep
        ensures { IsQuietStep self.now (leaves (kept_of self.now)) result }
    {
        QuietStep { counted: None }
    }

    /// The step that a packet leads to. An `Err` is want of memory.
    #[inline(always)]
    fn on_packet(&self, packet: &Packet) -> Result<Step, AllocError>
        requires { AreOwn self.now }
        ensures { IfOk result (IsStep self.now (on_packet self.now.setup (kept_of self.now) (packet_of packet.now))) }
    {
        if !self.is_member(sender(packet)) {
            return Ok(self.same());
        }
        match packet {
            Packet::Prepare { slot, ballot, .. } => self.on_prepare(*slot, *ballot),
            Packet::Propose { vote, .. } => self.on_propose(vote),
            Packet::Ask { id, name, .. } => self.on_ask(*id, *name),
            Packet::Promise {
                from,
                ballot,
                report,
            } => self.on_promise(*from, *ballot, report),
            Packet::Refused {
                slot,
                ballot,
                promised,
                ..
            } => self.on_refused(*slot, *ballot, *promised),
            Packet::Voted { from, vote } => self.on_voted(*from, vote),
            Packet::Tell { from, name, told } => self.on_tell(*from, *name, told.as_ref()),
        }
    }

    /// Keeps what is to be kept after a step; there is room for it. It takes no memory.
    #[inline(always)]
    pub fn install(&mut self, next: Next)
        requires room { HasRoom self.old.messages next }
        requires place { HasPlace self.old.queue next.queue }
        requires count { MayCount self.old.messages.entries next.counted }
        requires change { MayRecord (entries_before self.old.messages.entries next) next.change next.records }
        ensures { IsInstalled self.old next self.new }
    {
        let Next {
            clock,
            serial,
            given,
            counted,
            drops_rounds,
            queue,
            messages,
            room,
            change,
            records,
            reach,
        } = next;
        self.clock = clock;
        self.serial = serial;
        self.given = given;
        if let Some(room) = room {
            self.messages.make_room(room);
        }
        requeue(&mut self.queue, queue, self.setup.nodes);
        count_if(&mut self.messages, counted);
        rest_if(&mut self.messages, drops_rounds);
        put_each(&mut self.messages, messages);
        record_if(&mut self.messages, change, records);
        let at = self.standpoint();
        doze_if(&mut self.messages, &at, reach);
    }

    /// Whether the node is one of the cluster.
    #[inline(always)]
    pub(crate) fn is_member(&self, node: NodeNo) -> bool
        ensures { result ≡ is_member self.now.setup node }
    {
        node.number() <= self.setup.nodes
    }

    /// A step that does nothing.
    #[inline(always)]
    pub(crate) fn same(&self) -> Step
        ensures step { IsStep self.now (leaves (kept_of self.now)) result }
        ensures ticket { result.outputs.ticket ≡ None }
        ensures refused { result.outputs.refused ≡ None }
        ensures packets { result.outputs.packets.items ≡ [] }
        ensures replies { result.outputs.replies.items ≡ [] }
        ensures receipts { result.outputs.receipts.items ≡ [] }
    {
        Step {
            outputs: Outputs::nothing(self.alloc),
            next: self.unchanged(),
        }
    }

    /// What is kept is to stay as it is.
    #[inline(always)]
    pub(crate) fn unchanged(&self) -> Next
        ensures clock { result.clock ≡ self.now.clock }
        ensures serial { result.serial ≡ self.now.serial }
        ensures given { result.given ≡ self.now.given }
        ensures counted { result.counted ≡ None }
        ensures drops { result.drops_rounds ≡ false }
        ensures queue { result.queue ≡ Same }
        ensures messages { result.messages.items ≡ [] }
        ensures room { result.room ≡ None }
        ensures change { result.change ≡ None }
        ensures reach { result.reach ≡ None }
    {
        Next {
            clock: self.clock,
            serial: self.serial,
            given: self.given,
            counted: None,
            drops_rounds: false,
            queue: QueueChange::Same,
            messages: Vec::new(self.alloc),
            room: None,
            change: None,
            records: RecordRoom::none(self.alloc),
            reach: None,
        }
    }

    /// What it does with a Prepare.
    #[inline(never)]
    pub(crate) fn on_prepare(&self, slot: Slot, ballot: Ballot) -> Result<Step, AllocError>
        ensures step { IfOk result (IsStep self.now (on_prepare self.now.setup (kept_of self.now) slot ballot)) }
        ensures alone { AreOwn self.now → IfOk result (IsAlone slot.id self.now (λ setup kept. on_prepare setup kept slot ballot)) }
    {
        let id = slot.id;
        self.messages.ascends();
        match self.find(id) {
            Some(message) => {
                let verdict = message.judge_prepare(self.node(), slot, ballot)?;
                self.answer(message, verdict)
            }
            None => {
                let message = self.first(id);
                let verdict = message.judge_prepare(self.node(), slot, ballot)?;
                self.answer_first(id, message, verdict)
            }
        }
    }

    /// What it does with a Propose.
    #[inline(never)]
    pub(crate) fn on_propose(&self, vote: &Vote) -> Result<Step, AllocError>
        ensures step { IfOk result (IsStep self.now (on_propose self.now.setup (kept_of self.now) (slot_in vote.now) (vote_of vote.now))) }
        ensures alone { AreOwn self.now → IfOk result (IsAlone (slot_in vote.now).id self.now (λ setup kept. on_propose setup kept (slot_in vote.now) (vote_of vote.now))) }
    {
        let id = vote.chain.id();
        self.messages.ascends();
        match self.find(id) {
            Some(message) => {
                let verdict = message.judge_propose(self.node(), vote)?;
                self.answer(message, verdict)
            }
            None => {
                let message = self.first(id);
                let verdict = message.judge_propose(self.node(), vote)?;
                self.answer_first(id, message, verdict)
            }
        }
    }

    /// What it does with a question.
    #[inline(never)]
    fn on_ask(&self, id: MsgId, name: Name) -> Result<Step, AllocError>
        ensures { IfOk result (IsStep self.now (on_ask self.now.setup (kept_of self.now) id name)) }
    {
        let told = match self.told(id) {
            Some(vote) => Some(vote.copy()?),
            None => None,
        };
        let mut step = self.same();
        step.outputs.packets.push(Packet::Tell {
            from: self.setup.node,
            name,
            told,
        })?;
        Ok(step)
    }

    /// What it does with a promise.
    #[inline(always)]
    fn on_promise(&self, from: NodeNo, ballot: Ballot, report: &Report) -> Result<Step, AllocError>
        requires { AreOwn self.now }
        ensures { IfOk result (IsStep self.now (on_promise self.now.setup (kept_of self.now) from (slot_reported report.now) ballot (report_of report.now))) }
    {
        match self.quiet_promise(from, ballot, report) {
            Some(quiet) => Ok(self.quietly(quiet)),
            None => self.promised(from, ballot, report),
        }
    }

    /// What it does with a promise for which no round runs, which is nothing. It takes no memory.
    #[inline(always)]
    fn quiet_promise(&self, from: NodeNo, ballot: Ballot, report: &Report) -> Option<QuietStep>
        ensures step { IfSome result (IsQuietStep self.now
            (on_promise self.now.setup (kept_of self.now) from (slot_reported report.now) ballot (report_of report.now))) }
        ensures runs { result ≡ None →
            runs_at (message_at (kept_of self.now) (slot_reported report.now).id).round (slot_reported report.now) ballot ≡ true }
    {
        if self.runs_for(ballot, report) {
            return None;
        }
        Some(self.unmoved())
    }

    /// What it does with a promise in a round that runs.
    #[inline(never)]
    fn promised(&self, from: NodeNo, ballot: Ballot, report: &Report) -> Result<Step, AllocError>
        requires own { AreOwn self.now }
        requires runs { runs_at (message_at (kept_of self.now) (slot_reported report.now).id).round (slot_reported report.now) ballot ≡ true }
        ensures { IfOk result (IsStep self.now (on_promise self.now.setup (kept_of self.now) from (slot_reported report.now) ballot (report_of report.now))) }
    {
        let slot = report.slot();
        let id = slot.id;
        let mut message = self.taken(id)?;
        let packet = message.promised_by(from, ballot, report)?;
        self.leave(id, message, packet, None)
    }

    /// Whether the round runs that a promise at this ballot, with this report, is for. It takes no memory.
    #[inline(always)]
    fn runs_for(&self, ballot: Ballot, report: &Report) -> bool
        ensures { result ≡ runs_at (message_at (kept_of self.now) (slot_reported report.now).id).round (slot_reported report.now) ballot }
    {
        let slot = report.slot();
        self.runs_at(slot.id, slot, ballot)
    }

    /// Whether a round of this slot, of the message of this id, runs at this ballot. It takes no memory.
    #[inline(always)]
    fn runs_at(&self, id: MsgId, slot: Slot, ballot: Ballot) -> bool
        ensures { result ≡ runs_at (message_at (kept_of self.now) id).round slot ballot }
    {
        match self.find(id) {
            Some(message) => message.runs_at(slot, ballot),
            None => false,
        }
    }

    /// What it does with a vote that is told.
    #[inline(always)]
    fn on_voted(&self, from: NodeNo, vote: &Vote) -> Result<Step, AllocError>
        requires { AreOwn self.now }
        ensures { IfOk result (IsStep self.now (voted_in self.now.setup (kept_of self.now) from (slot_in vote.now) (vote_of vote.now))) }
    {
        match self.quiet_vote(from, vote) {
            Some(quiet) => Ok(self.quietly(quiet)),
            None => self.heard(from, vote),
        }
    }

    /// What it does with a vote that is told, if that does not concern it, or is counted where it stands. It takes no memory.
    #[inline(always)]
    fn quiet_vote(&self, from: NodeNo, vote: &Vote) -> Option<QuietStep>
        requires { AreOwn self.now }
        ensures step { IfSome result (IsQuietStep self.now (voted_in self.now.setup (kept_of self.now) from (slot_in vote.now) (vote_of vote.now))) }
        ensures concerns { result ≡ None → id_concerns self.now.setup (kept_of self.now) vote.now.chain.id ≡ true }
    {
        if !self.concerns(vote.chain.id()) {
            return Some(self.unmoved());
        }
        let counted = self.counted(from, vote)?;
        Some(QuietStep {
            counted: Some(counted),
        })
    }

    /// What it does with a vote that concerns it.
    #[inline(never)]
    fn heard(&self, from: NodeNo, vote: &Vote) -> Result<Step, AllocError>
        requires own { AreOwn self.now }
        requires concerns { id_concerns self.now.setup (kept_of self.now) vote.now.chain.id ≡ true }
        ensures { IfOk result (IsStep self.now (voted_in self.now.setup (kept_of self.now) from (slot_in vote.now) (vote_of vote.now))) }
    {
        let id = vote.chain.id();
        let mut message = self.taken(id)?;
        let had_fate = message.has_fate(id);
        if !message.heard(from, vote)? {
            return self.leave(id, message, None, None);
        }
        self.learned(message, had_fate, &vote.chain)
    }

    /// How a vote that a node tells of is counted, if its chain was voted for at its ballot before, and does not become known by it. It takes
    /// no memory.
    #[inline(always)]
    fn counted(&self, from: NodeNo, vote: &Vote) -> Option<Counted>
        ensures { IfSome result (IsCountedSo self.now from vote.now) }
    {
        let id = vote.chain.id();
        let message = self.find(id)?;
        let recount = message.recount(from, vote)?;
        Some(Counted { id, recount })
    }

    /// The step that counts a vote so, if one is to be counted, and does nothing else. It takes no memory.
    #[inline(always)]
    fn quietly(&self, quiet: QuietStep) -> Step
        ensures { IsCounting self.now quiet.counted result }
    {
        let mut next = self.unchanged();
        next.counted = quiet.counted;
        Step {
            outputs: Outputs::nothing(self.alloc),
            next,
        }
    }

    /// Whether votes on the message of an id concern it: of its own messages only those that it has taken do.
    #[inline(always)]
    fn concerns(&self, id: MsgId) -> bool
        ensures { result ≡ id_concerns self.now.setup (kept_of self.now) id }
    {
        id.node() != self.setup.node
            || id.incarnation() < self.incarnation
            || (id.incarnation() == self.incarnation && id.serial() < self.serial)
    }

    /// The chain, once more, if it ends in a Told of this node, in this incarnation: then the node writes its receipt.
    #[inline(never)]
    pub(crate) fn receipt(&self, chain: &Chain) -> Result<Option<Chain>, AllocError>
        ensures { IfOk result (λ receipt. listed (option_map receipt_of receipt)
            ≡ receipts_of self.now.setup.node self.now.incarnation chain.now.id None chain.now.decrees) }
    {
        chain.bounds();
        if !self.is_told_here(chain.newest()) {
            return Ok(None);
        }
        Ok(Some(chain.copy()?))
    }

    /// Whether a decree is a Told of this node, in this incarnation.
    fn is_told_here(&self, newest: &Decree) -> bool
        ensures { result ≡ is_told_by self.now.setup.node self.now.incarnation newest.now.author newest.now.kind }
    {
        match newest.kind {
            Kind::Told => {
                newest.author.node == self.setup.node
                    && newest.author.incarnation == self.incarnation
            }
            _ => false,
        }
    }

    /// What it does with a refusal.
    #[inline(never)]
    fn on_refused(&self, slot: Slot, ballot: Ballot, promised: Ballot) -> Result<Step, AllocError>
        requires { AreOwn self.now }
        ensures { IfOk result (IsStep self.now (on_refused self.now.setup (kept_of self.now) slot ballot promised)) }
    {
        if !self.is_own(ballot) {
            return Ok(self.same());
        }
        let id = slot.id;
        let mut message = self.taken(id)?;
        message.refused(slot, ballot, promised);
        self.leave(id, message, None, None)
    }

    /// Whether the ballot is one of its own, of this incarnation.
    fn is_own(&self, ballot: Ballot) -> bool
        ensures { result ≡ is_own_ballot self.now.setup (kept_of self.now) ballot }
    {
        ballot.node() == self.setup.node && ballot.incarnation() == self.incarnation
    }

    /// The vote at the highest place of a message at which it voted; none if it did not. It takes no memory.
    fn told(&self, id: MsgId) -> Option<&Vote>
        ensures { told_vote (option_copied result) ≡ told_of (kept_of self.now).records id }
    {
        self.find(id)?.told(id)
    }

    /// A copy of what is kept of a message.
    #[inline(always)]
    pub(crate) fn taken(&self, id: MsgId) -> Result<Message, AllocError>
        ensures { IfOk result (IsTaken self.now id) }
    {
        match self.find(id) {
            Some(message) => message.copy(),
            None => Ok(self.first(id)),
        }
    }

    /// What is kept of a message at first. It takes no memory.
    fn first(&self, id: MsgId) -> Message
        requires { value_at self.now.messages.entries id ≡ None }
        ensures { IsTaken self.now id result }
    {
        id.bounds();
        Message::fresh(self.alloc, self.author(), self.nodes())
    }

    /// What is kept of a message; none if it was never heard of. It takes no memory.
    pub(crate) fn find(&self, id: MsgId) -> Option<&Message>
        ensures value { option_copied result ≡ value_at self.now.messages.entries id }
        ensures named { IsId id }
    {
        id.bounds();
        self.messages.get(id)
    }

    /// Where its memory comes from.
    pub fn alloc(&self) -> Global
        ensures { result ≡ self.now.alloc }
    {
        self.alloc
    }

    /// With what it is set up.
    pub fn setup(&self) -> Setup
        ensures { result ≡ self.now.setup }
    {
        self.setup
    }

    /// Its clock.
    pub fn clock(&self) -> Moment
        ensures { result ≡ self.now.clock }
    {
        self.clock
    }

    /// The serial of its next message, 100000 if none is left.
    pub(crate) fn serial(&self) -> u32
        ensures { result ≡ self.now.serial }
    {
        self.serial
    }

    /// Whether no request more may wait: 1,000 wait, or no ticket is left.
    pub(crate) fn is_busy(&self) -> bool
        ensures { result ≡ is_busy (length self.now.queue) (suc self.now.given) }
    {
        self.queue.is_full() || self.given == u64::MAX
    }

    /// The ticket of the next request, if one is left.
    pub(crate) fn next_ticket(&self) -> u64
        requires { suc self.now.given ≤ last_ticket }
        ensures { result ≡ suc self.now.given }
    {
        self.given + 1
    }

    /// The incarnation.
    pub fn incarnation(&self) -> Incarnation
        ensures { result ≡ self.now.incarnation }
    {
        self.incarnation
    }

    /// By whom its decrees are, and its clock.
    pub(crate) fn standpoint(&self) -> Standpoint
        ensures node { result.author.node ≡ self.now.setup.node }
        ensures incarnation { result.author.incarnation ≡ self.now.incarnation }
        ensures clock { result.clock ≡ self.now.clock }
    {
        Standpoint {
            author: self.author(),
            clock: self.clock,
        }
    }

    /// By whom its decrees are.
    pub(crate) fn author(&self) -> Author
        ensures node { result.node ≡ self.now.setup.node }
        ensures incarnation { result.incarnation ≡ self.now.incarnation }
    {
        Author {
            node: self.setup.node,
            incarnation: self.incarnation,
        }
    }

    /// How many nodes the cluster has.
    pub(crate) fn nodes(&self) -> u8
        ensures { result ≡ self.now.setup.nodes }
    {
        self.setup.nodes
    }

    /// Its number.
    pub(crate) fn node(&self) -> NodeNo
        ensures { result ≡ self.now.setup.node }
    {
        self.setup.node
    }

    /// The step that answers by the verdict of a message, and makes its change in what is kept of that.
    #[inline(always)]
    fn answer(&self, message: &Message, verdict: Verdict) -> Result<Step, AllocError>
        ensures answer { IfOk result (IsAnswer self.now message.now verdict) }
        ensures messages { IfOk result (λ step. step.next.messages.items ≡ []) }
    {
        let Verdict { answer, change } = verdict;
        let mut next = self.unchanged();
        if let Some(change) = &change {
            next.records = message.record_room(change)?;
        }
        next.change = change;
        let outputs = Outputs::of(self.alloc, Some(answer), None)?;
        Ok(Step { outputs, next })
    }

    /// The step that answers by the verdict of a message that was never heard of, keeps that under its id, and makes its change there.
    #[inline(always)]
    fn answer_first(
        &self,
        id: MsgId,
        message: Message,
        verdict: Verdict,
    ) -> Result<Step, AllocError>
        ensures answer { IfOk result (IsAnswer self.now message verdict) }
        ensures messages { IfOk result (λ step. PutsOne id message step.next.messages.items) }
        ensures room { IfOk result (λ step. HasRoom self.now.messages step.next) }
    {
        let mut step = self.answer(&message, verdict)?;
        let message = Box::new(self.alloc, message)?;
        step.next.messages.push(Put { id, message })?;
        step.next.room = Some(self.messages.room(self.alloc, 1)?);
        Ok(step)
    }

    /// The step that sends this packet and writes this receipt, as far as there are any, and keeps this message under the id.
    #[inline(always)]
    pub(crate) fn leave(
        &self,
        id: MsgId,
        message: Message,
        packet: Option<Packet>,
        receipt: Option<Chain>,
    ) -> Result<Step, AllocError>
        ensures { IfOk result (IsLeft self.now id message (giving (listed (option_map packet_of packet)) (listed (option_map receipt_of receipt)))) }
    {
        let next = self.next(id, message)?;
        let outputs = Outputs::of(self.alloc, packet, receipt)?;
        Ok(Step { outputs, next })
    }

    /// This message is to take the place of what is kept of the id, and nothing else changes.
    #[inline(always)]
    pub(crate) fn next(&self, id: MsgId, message: Message) -> Result<Next, AllocError>
        ensures { IfOk result (IsNext self.now id message) }
    {
        let mut next = self.unchanged();
        let message = Box::new(self.alloc, message)?;
        next.messages.push(Put { id, message })?;
        next.room = Some(self.messages.room(self.alloc, 1)?);
        Ok(next)
    }
}

/// Makes of the requests that wait what a step makes of them. It takes no memory.
#[inline(always)]
fn requeue(queue: &mut Queue, change: QueueChange, nodes: u8)
    requires { HasPlace queue.old change }
    ensures { held_in queue.new ≡ requeued nodes (held_in queue.old) change }
{
    match change {
        QueueChange::Same => {}
        QueueChange::Push(held) => queue.push(held),
        QueueChange::Replace(held) => queue.replace(held),
        QueueChange::Remove(ticket) => queue.remove(ticket),
        QueueChange::Settle(chain) => queue.settle(nodes, &chain),
        QueueChange::Expire(clock) => queue.expire(clock),
    }
}

/// Counts a vote anew, if one is to be counted so. It takes no memory.
#[inline(always)]
fn count_if(kept: &mut MessageShelf, counted: Option<Counted>)
    requires { MayCount kept.old.entries counted }
    ensures entries { kept.new.entries ≡ counted_if counted kept.old.entries }
    ensures room { kept.new.room ≡ kept.old.room }
    ensures listings { kept.new.listings ≡ kept.old.listings }
{
    if let Some(Counted { id, recount }) = counted {
        kept.count_anew(id, recount);
    }
}

/// Makes a change in what is kept of its message, if there is one; there is room for its record. It takes no memory.
#[inline(always)]
fn record_if(kept: &mut MessageShelf, change: Option<Change>, room: RecordRoom)
    requires { MayRecord kept.old.entries change room }
    ensures entries { kept.new.entries ≡ recorded_if change kept.old.entries }
    ensures room { kept.new.room ≡ kept.old.room }
    ensures listings { kept.new.listings ≡ kept.old.listings }
{
    if let Some(change) = change {
        let id = change.after.slot().id;
        kept.apply(id, change, room);
    }
}

/// Ends the round of each message, if rounds end. It takes no memory.
#[inline(always)]
fn rest_if(kept: &mut MessageShelf, ends: bool)
    ensures entries { kept.new.entries ≡ rested_if ends kept.old.entries }
    ensures room { kept.new.room ≡ kept.old.room }
    ensures listings { kept.new.listings ≡ kept.old.listings }
{
    if ends {
        kept.rest();
    }
}

/// Puts messages in the places of what was kept of their ids, the last of them first; there is room for them. It takes no memory.
#[inline(always)]
fn put_each(kept: &mut MessageShelf, mut messages: Vec<Put>)
    requires room { length messages.items ≤ kept.old.room }
    requires listings { length messages.items ≤ kept.old.listings }
    ensures entries { kept.new.entries ≡ entries_after kept.old.entries messages.items }
    ensures left { kept.old.room ≤ kept.new.room + length messages.items }
    ensures listings_left { kept.old.listings ≤ kept.new.listings + length messages.items }
{
    while let Some(put) = messages.pop() {
        kept.put(put.id, put.message);
    }
}

/// Notes until when messages sleep, if it was a tick, by what it was told of accounts and of messages. It takes no memory.
#[inline(always)]
fn doze_if(kept: &mut MessageShelf, at: &Standpoint, reach: Option<Reach>)
    ensures entries { kept.new.entries ≡ kept.old.entries }
    ensures room { kept.new.room ≡ kept.old.room }
    ensures listings { kept.new.listings ≡ kept.old.listings }
{
    if let Some(reach) = reach {
        kept.doze(at, reach);
    }
}
