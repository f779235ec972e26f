//! What stands at a node of a server: the service of its ESMEs, and their connections.

ghost use Rattle.std.specs.Prelude.{◌≡◌, [], map, max, None, false, OnOk};
ghost use Rattle.node_model.specs.Reported.{receipt_of};
ghost use Rattle.waiting_requests.specs.Replying.{reply_given};
ghost use Rattle.esme_service.specs.Sessions.{put_at, session_in, without_session};
ghost use Rattle.esme_site.specs.Puts.{given_out, mail_in};
ghost use Rattle.serve_nodes.specs.Frames.{Puts};

use crate::carriage::Carriage;
use crate::frames::Frames;
use connection_parts::{Frame, Job, Tally};
use esme_service::{HeardPdu, Service};
use esme_site::{post_for_all, reply_all, tell};
use mc_types::{Moment, MsgId, Slot};
use node_core::{MayBegin, MessageIds, Outputs, Reach};
use pdu_codec::SystemId;
use serve_sessions::{Arrival, Berth, Connection, Mark, Reason, Whom};
use sessions::{Delivery, Pushed, Session, SessionState, WINDOW};
use status_page::NodeStatus;
use std::alloc::{AllocError, Global};
use std::collections::BTreeMap;
use std::rt::Clock;
use std::sync::{Arc, Wait};
use waiting_messages::{Backlog, Lanes, Naming, Presence};
use waiting_requests::Reply;

/// How long a node with few message_ids left waits for a quiet moment in which to start anew, in milliseconds.
const PATIENCE: u64 = 30_000;

/// For how long it begins no attempts, so that it comes to rest, in milliseconds.
const HOLD: u64 = 2_000;

/// What stands at a node of a server: the service of its ESMEs, their connections by the numbers of their sessions, which deliveries are under way, by the
/// numbers of their messages, and what went on.
#[derive(Drop)]
pub struct Site {
    alloc: Global,
    pub service: Service,
    connections: BTreeMap<u8, Arc<Connection>>,
    carried: BTreeMap<u64, Carriage>,
    pub lanes: Lanes,
    pub backlog: Backlog,
    presence: Presence,
    // Behind which message those come that are looked at next; none if no look is under way.
    fed: Option<MsgId>,
    clock: Moment,
    // Since when the node has few message_ids left, if it has.
    low: Option<Mark>,
    // Whether it begins no attempts, so that it comes to rest before it starts anew.
    is_held: bool,
    pub tally: Tally,
}

impl Site {
    /// Nobody is connected, at this moment.
    pub fn none(alloc: Global, clock: Moment) -> Site {
        Site {
            alloc,
            service: Service::none(alloc),
            connections: BTreeMap::new(alloc),
            carried: BTreeMap::new(alloc),
            lanes: Lanes::none(alloc),
            backlog: Backlog::none(alloc),
            presence: Presence::none(alloc),
            fed: None,
            clock,
            low: None,
            is_held: false,
            tally: Tally::zero(),
        }
    }

    /// The lowest number of a session that is free, of so many; none if none is.
    pub fn free_number(&self, most: u8) -> Option<u8> {
        (1..=most).find(|number| !self.connections.contains_key(number))
    }

    /// The session of a number, which is free, begins over a connection. An `Err` is want of memory.
    pub fn admit(&mut self, number: u8, connection: Arc<Connection>) -> Result<(), AllocError>
        ensures { OnOk result (self.new.service.sessions ≡ put_at self.old.service.sessions number (session_in self.old.service.sessions number)) }
    {
        self.service.begin(number)?;
        self.connections.insert(number, connection)?;
        Ok(())
    }

    /// The session of a number is over, and what waits on its connection is the last that goes out there. Its deliveries get no answer.
    pub fn leave<R: Wait>(&mut self, rt: &R, number: u8)
        ensures { self.new.service ≡ record self.old.service { sessions = without_session self.old.service.sessions number } }
    {
        let _ = self.service.fail(number);
        if let Some(connection) = self.connections.remove(&number) {
            connection.finish(rt);
        }
    }

    /// Whose session that of a number is, and from where; none if there is none.
    pub fn whom<R: Wait>(&self, rt: &R, number: u8) -> Option<Whom> {
        let connection = self.connections.get(&number)?;
        Some(connection.whom(rt))
    }

    /// The sessions that nobody serves yet in this life of the node; somebody is to, from now on. An `Err` is want of memory.
    pub fn unattended(&self) -> Result<Vec<Arrival>, AllocError> {
        let mut arrivals = Vec::new(self.alloc);
        for (number, connection) in &self.connections {
            if connection.begin_attending() {
                arrivals.push(Arrival {
                    connection: Arc::try_clone(connection)?,
                    number: *number,
                })?;
            }
        }
        Ok(arrivals)
    }

    /// The accounts of which a session may receive. An `Err` is want of memory.
    pub fn accounts_up(&self) -> Result<Vec<SystemId>, AllocError> {
        self.service.accounts_up()
    }

    /// Whether a session of an account may receive.
    pub fn is_up(&self, account: &SystemId) -> bool {
        self.service.sessions().iter().any(|(_, session)| session.state().may_receive()
            && session.account() == Some(account))
    }

    /// The greatest moment of its ticks.
    pub fn clock(&self) -> Moment
        ensures { result ≡ self.now.clock }
    {
        self.clock
    }

    /// A tick came at this moment.
    pub fn pass(&mut self, moment: Moment)
        ensures { self.new.clock ≡ max self.old.clock moment }
    {
        if moment.seconds() > self.clock.seconds() {
            self.clock = moment;
        }
    }

    /// What is told of it, at the node of this number.
    pub fn status(&self, number: u8) -> NodeStatus {
        let Tally {
            submits,
            deliveries,
            receipts,
            refused,
            fates,
        } = self.tally;
        let mut status = NodeStatus {
            submits,
            deliveries,
            receipts,
            refused,
            fates,
            waiting: self.lined_up(),
            ..NodeStatus::none(number)
        };
        for (_, session) in self.service.sessions() {
            count_session(&mut status, session);
        }
        status
    }

    /// How many messages wait for a worker of accounts of which a session may receive; 0 if there is no memory to look.
    fn lined_up(&self) -> u64 {
        let Ok(up) = self.service.accounts_up() else {
            return 0;
        };
        let mut waiting = 0u64;
        for account in &up {
            waiting = waiting.saturating_add(self.lanes.count(account) as u64);
        }
        waiting
    }

    // What goes out.

    /// A frame goes out on the connection of its session, if there is one.
    fn post<R: Wait>(&self, rt: &R, frame: Frame) {
        if let Some(connection) = self.connections.get(&frame.number()) {
            connection.post(rt, frame);
        }
    }

    /// What is put for its sessions from now on.
    pub fn outlet(&self) -> Frames
        ensures { result.frames.items ≡ [] }
    {
        Frames::none(self.alloc)
    }

    /// What was put is counted, goes onto the connections of its sessions, and those are lost for which there was no memory.
    pub fn post_all<R: Wait>(&mut self, rt: &R, frames: Frames)
        ensures { self.new.service ≡ self.old.service }
    {
        self.tally.receipts = self.tally.receipts.saturating_add(frames.receipts);
        self.tally.fates = self.tally.fates.saturating_add(frames.fates);
        self.hand_over(rt, frames);
    }

    /// What was put goes onto the connections of its sessions, and those are lost for which there was no memory.
    fn hand_over<R: Wait>(&self, rt: &R, frames: Frames) {
        let Frames {
            frames,
            has_lost,
            lost,
            ..
        } = frames;
        for frame in frames {
            self.post(rt, frame);
        }
        if has_lost {
            self.lose_those(rt, &lost);
        }
    }

    /// The connections of these sessions are lost, since there was no memory for what they were to get.
    fn lose_those<R: Wait>(&self, rt: &R, lost: &[bool]) {
        for (number, connection) in &self.connections {
            if lost.get(usize::from(*number)) == Some(&true) {
                connection.lose(rt, Reason::NoMemory);
            }
        }
    }

    /// What a step of the node gave out goes out: replies, and then receipts. An `Err` is want of memory: whose reply or receipt was not put has lost its
    /// connection, or a receipt does not come to wait.
    pub fn tell<R: Wait>(&mut self, rt: &R, outputs: &Outputs) -> Result<(), AllocError>
        ensures { OnOk result (mail_in self.new.service ≡
            (given_out self.old.clock self.old.service (map reply_given outputs.now.replies.items) (map receipt_of outputs.now.receipts.items)).next) }
    {
        let mut frames = self.outlet();
        let told = self.put_told(&mut frames, outputs);
        self.post_all(rt, frames);
        told
    }

    /// What a step of the node gave out is put, one frame behind the other.
    fn put_told(&mut self, frames: &mut Frames, outputs: &Outputs) -> Result<(), AllocError>
        ensures mail { OnOk result (mail_in self.new.service ≡
            (given_out self.old.clock self.old.service (map reply_given outputs.now.replies.items) (map receipt_of outputs.now.receipts.items)).next) }
        ensures put { OnOk result (Puts frames.old.frames.items
            (given_out self.old.clock self.old.service (map reply_given outputs.now.replies.items) (map receipt_of outputs.now.receipts.items)).prints
            frames.new.frames.items) }
    {
        tell(
            &mut self.service,
            frames,
            self.clock,
            &outputs.replies,
            &outputs.receipts,
        )
    }

    /// A reply goes out on the session that holds its ticket. That is lost if there is no memory for it.
    fn reply<R: Wait>(&mut self, rt: &R, reply: Reply) {
        let mut frames = self.outlet();
        let _ = reply_all(&mut self.service, &mut frames, &[reply]);
        self.post_all(rt, frames);
    }

    /// The receipts that wait for these accounts go out. An `Err` is want of memory.
    fn post_for_all<R: Wait>(&mut self, rt: &R, accounts: &[SystemId]) -> Result<(), AllocError> {
        let mut frames = self.outlet();
        let posted = post_for_all(&mut self.service, &mut frames, self.clock, accounts);
        self.post_all(rt, frames);
        posted
    }

    // Attempts.

    /// What a tick is told: the accounts of which a session may receive, and for each of them the messages of which an attempt may begin next: twice as many as
    /// its sessions have places, less those that wait for a worker or for their answer, but one of each home node at least if there is room for any. An account
    /// of which none may counts as one of which one may for so many seconds, with no message named, so that no attempt that waits for it fails; but not if all
    /// messages may begin. An `Err` is want of memory.
    pub fn reach(&mut self, naming: &Naming<'_>, linger_seconds: u32) -> Result<Reach, AllocError> {
        let mut up = self.service.accounts_up()?;
        self.presence
            .see(&up, naming.now.seconds(), linger_seconds)?;
        if !self.backlog.was_whole() {
            return Ok(Reach::of_all(up));
        }
        let mut named = MessageIds::none(self.alloc);
        for account in &up {
            let most = self.wanted(account);
            self.backlog.name(naming, account, most, &mut named)?;
        }
        self.presence.append_absent(&mut up)?;
        Ok(Reach {
            up,
            may: MayBegin::These(named),
        })
    }

    /// Whether an attempt of more messages of the account of a session may begin, and one is due: fewer wait for a worker than it has places.
    pub fn is_hungry(&self, number: u8) -> bool {
        match self.service.account(number) {
            Some(account) => {
                self.wanted(account) > WINDOW && self.backlog.is_due(account, self.clock)
            }
            None => false,
        }
    }

    /// Of how many more messages of an account an attempt may begin.
    fn wanted(&self, account: &SystemId) -> usize {
        if self.is_held {
            return 0;
        }
        let mut places = 0usize;
        let mut taken = self.lanes.count(account);
        for (_, session) in self.service.sessions() {
            if session.state().may_receive() && session.account() == Some(account) {
                places = places.saturating_add(WINDOW);
                taken = taken.saturating_add(session.pushed().len());
            }
        }
        places.saturating_mul(2).saturating_sub(taken)
    }

    // Deliveries.

    /// Whether some delivery is under way.
    pub fn carries_some(&self) -> bool {
        !self.carried.is_empty()
    }

    /// Whether a delivery of a message is under way.
    pub fn carries(&self, id: MsgId) -> bool {
        self.carried.contains_key(&id.number())
    }

    /// Behind which message those come that are looked at next; none if no look is under way.
    pub fn fed(&self) -> Option<MsgId>
        ensures { result ≡ self.now.fed }
    {
        self.fed
    }

    /// Those behind this message are looked at next; if it is none, the look is over, and the next one begins with the first.
    pub fn feed_from(&mut self, fed: Option<MsgId>)
        ensures { self.new ≡ record self.old { fed = fed } }
    {
        self.fed = fed;
    }

    /// Whether a delivery of a message is under way, or it waits for one.
    pub fn sees_to(&self, id: MsgId) -> bool {
        self.carries(id) || self.lanes.has(id)
    }

    /// Where messages for the account of a session wait, if some do or did.
    pub fn lane_of(&self, number: u8) -> Option<usize> {
        self.lanes.place_of(self.service.account(number)?)
    }

    /// An attempt of a message for an account may be granted, whose text is long or not: it waits for a worker. An `Err` is want of memory.
    pub fn keep(&mut self, id: MsgId, account: SystemId, long: bool) -> Result<(), AllocError> {
        self.lanes.put(account, long, id)
    }

    /// Gives the attempt in a slot, of a message for an account, to a worker of the lowest numbered session of its account that has a place in its window; whether one is free. A text that is too long
    /// for a short_message needs a session that knows optional parameters; if the account has none, any session gets it, whose worker lets it fail. An `Err` is
    /// want of memory, and nothing is given.
    pub fn deliver<R: Wait>(
        &mut self,
        rt: &R,
        slot: Slot,
        account: &SystemId,
        long: bool,
    ) -> Result<bool, AllocError> {
        let needs_optional = long && self.knows_optional(account);
        let Some(pushed) = self.service.push(account, needs_optional, self.clock, slot) else {
            return Ok(false);
        };
        let is_given = self.give(rt, Job { slot, pushed, long });
        if !matches!(is_given, Ok(true)) {
            self.service.take_back(pushed.number(), pushed.sequence());
        }
        is_given
    }

    /// Gives a delivery to a worker of its session that is free; whether one is. It is noted first, so that its answer finds it. An `Err` is want of memory,
    /// and nothing is given.
    fn give<R: Wait>(&mut self, rt: &R, job: Job) -> Result<bool, AllocError> {
        let number = job.pushed.number();
        let Some(place) = self.free_place(rt, number) else {
            return Ok(false);
        };
        let slot = job.slot;
        self.note(slot, Carriage { number, place })?;
        if self.hand(rt, place, job) {
            return Ok(true);
        }
        self.forget(slot);
        Ok(false)
    }

    /// The delivery of the attempt in a slot is under way there. An `Err` is want of memory.
    fn note(&mut self, slot: Slot, carriage: Carriage) -> Result<(), AllocError> {
        let _ = self.carried.insert(key_of(slot), carriage)?;
        Ok(())
    }

    /// The delivery of the attempt in a slot is not under way.
    fn forget(&mut self, slot: Slot) {
        let _ = self.carried.remove(&key_of(slot));
    }

    /// Hands a delivery to the worker of a place of its session; whether it is given.
    fn hand<R: Wait>(&self, rt: &R, place: usize, job: Job) -> bool {
        match self.connections.get(&job.pushed.number()) {
            Some(connection) => connection.give(rt, place, job),
            None => false,
        }
    }

    /// The place of a worker of a session that is free; none if no one is.
    fn free_place<R: Wait>(&self, rt: &R, number: u8) -> Option<usize> {
        self.connections.get(&number)?.free_place(rt)
    }

    /// Whether some session of an account may receive and knows optional parameters.
    fn knows_optional(&self, account: &SystemId) -> bool {
        for (_, session) in self.service.sessions() {
            if session.state().may_receive()
                && session.knows_optional()
                && session.account() == Some(account)
            {
                return true;
            }
        }
        false
    }

    /// The ESME answered to what was pushed on a session.
    pub fn answered<R: Wait>(&self, rt: &R, pushed: Pushed, pdu: HeardPdu) {
        let sequence = pushed.sequence;
        match self.berth_of(pushed.delivery) {
            Some(berth) => berth.tell(rt, sequence, pdu),
            None => drop(pdu),
        }
    }

    /// The worker's place of the delivery that was pushed, if it is one that is under way.
    fn berth_of(&self, delivery: Delivery) -> Option<&Berth> {
        self.berth_at(*self.carried.get(&key_in(delivery)?)?)
    }

    /// The worker's place of a delivery.
    fn berth_at(&self, carriage: Carriage) -> Option<&Berth> {
        let connection = self.connections.get(&carriage.number)?;
        connection.berth(carriage.place)
    }

    /// A worker is through with its delivery, whose deliver_sm went out, or did not.
    pub fn delivered(&mut self, connection: &Connection, job: &Job, is_sent: bool) {
        self.forget(job.slot);
        if is_sent {
            self.tally.deliveries = self.tally.deliveries.saturating_add(1);
        } else if self.is_at(job.pushed.number(), connection) {
            self.service
                .take_back(job.pushed.number(), job.pushed.sequence());
        }
    }

    /// Whether the session of a number is that of this connection: a later session may have the number of one that ended.
    fn is_at(&self, number: u8, connection: &Connection) -> bool {
        match self.connections.get(&number) {
            Some(there) => there.is(connection),
            None => false,
        }
    }

    /// What was pushed and waits for 30 seconds or more gets no answer any more, and the receipts that wait go out. An `Err` is want of memory.
    pub fn make_room<R: Wait>(&mut self, rt: &R) -> Result<(), AllocError> {
        let overdue = self.service.overdue(self.clock)?;
        for pushed in &overdue {
            self.give_up(rt, *pushed);
        }
        self.service.let_go_overdue(self.clock);
        let up = self.service.accounts_up()?;
        self.post_for_all(rt, &up)
    }

    /// What was pushed in deliveries that are under way gets no answer any more: how many these are. An `Err` is want of memory.
    pub fn give_up_all<R: Wait>(&self, rt: &R) -> u64 {
        let mut given_up = 0u64;
        for (_, carriage) in &self.carried {
            if let Some(berth) = self.berth_at(*carriage)
                && berth.give_up_any(rt)
            {
                given_up = given_up.saturating_add(1);
            }
        }
        given_up
    }

    /// What was pushed gets no answer any more.
    fn give_up<R: Wait>(&self, rt: &R, pushed: Pushed) {
        let sequence = pushed.sequence;
        if let Some(berth) = self.berth_of(pushed.delivery) {
            berth.give_up(rt, sequence);
        }
    }

    // All connections.

    /// Who serves sessions and their workers are to rest, once they are through with what they do.
    pub fn rest<R: Wait>(&self, rt: &R) {
        for (_, connection) in &self.connections {
            connection.rest(rt);
        }
    }

    /// Another life of the node begins, in which nobody serves yet.
    pub fn go_on(&self) {
        for (_, connection) in &self.connections {
            connection.go_on();
        }
    }

    /// What waits on connections is the last that goes out there.
    pub fn finish_all<R: Wait>(&self, rt: &R) {
        for (_, connection) in &self.connections {
            connection.finish(rt);
        }
    }

    /// Who reads on a connection reads its end; what waits there goes out.
    pub fn stop_reading(&self) {
        for (_, connection) in &self.connections {
            connection.stop_reading();
        }
    }

    /// All connections are lost, for this reason.
    pub fn lose_all<R: Wait>(&self, rt: &R, reason: Reason) {
        for (_, connection) in &self.connections {
            connection.lose(rt, reason);
        }
    }

    /// The connections are lost on which nobody has bound for so many seconds.
    pub fn lose_unbound<R: Wait>(&self, rt: &R, seconds: u32) {
        for (number, connection) in &self.connections {
            let is_late = connection.has_lasted(seconds, self.clock.seconds());
            if is_late && self.service.account(*number).is_none() {
                connection.lose(rt, Reason::NotBound);
            }
        }
    }

    /// Whether nobody is connected.
    pub fn is_empty(&self) -> bool {
        self.connections.is_empty()
    }

    /// How many are connected.
    pub fn len(&self) -> usize {
        self.connections.len()
    }

    /// The requests that wait get no answer of the node any more, since it starts anew: they are answered 0x08. None is left: a session is lost for whose
    /// answer there is no memory, since another request would get its ticket.
    pub fn refuse_waiting<R: Wait>(&mut self, rt: &R, id: MsgId) {
        for _ in 0..self.waiting() {
            let Some(ticket) = self.first_ticket() else {
                return;
            };
            self.reply(rt, Reply::too_late(ticket, id));
        }
    }

    /// The ticket of the first request that waits.
    fn first_ticket(&self) -> Option<u64> {
        for (_, session) in self.service.sessions() {
            if let Some(request) = session.requests().first() {
                return Some(request.ticket);
            }
        }
        None
    }

    /// Whether a request or a delivery waits, or an attempt for a worker.
    pub fn is_busy(&self) -> bool {
        self.carries_some() || self.waiting() > 0 || !self.lanes.is_empty()
    }

    /// The node has few message_ids left, so for a moment it begins no attempts; whether it has had for so long that it waits for no quiet moment any more.
    pub fn has_few<R: Clock>(&mut self, rt: &R) -> bool {
        let since = match self.low {
            Some(since) => since,
            None => Mark::now(rt),
        };
        self.low = Some(since);
        self.is_held = !since.is_past(rt, HOLD);
        since.is_past(rt, PATIENCE)
    }

    /// Whether the node begins no attempts, so that it comes to rest.
    pub fn is_held(&self) -> bool
        ensures { result ≡ self.now.is_held }
    {
        self.is_held
    }

    /// The node started anew, so it has many message_ids.
    pub fn has_many(&mut self)
        ensures { self.new ≡ record self.old { low = None; is_held = false } }
    {
        self.low = None;
        self.is_held = false;
    }

    /// How many requests wait for the node's answer.
    pub fn waiting(&self) -> usize {
        let mut waiting = 0usize;
        for (_, session) in self.service.sessions() {
            waiting = waiting.saturating_add(session.requests().len());
        }
        waiting
    }
}

/// Counts a session in what is told.
fn count_session(status: &mut NodeStatus, session: &Session) {
    match session.state() {
        SessionState::Fresh => status.unbound = status.unbound.saturating_add(1),
        SessionState::Transmitter => status.transmitters = status.transmitters.saturating_add(1),
        SessionState::Receiver => status.receivers = status.receivers.saturating_add(1),
        SessionState::Transceiver => status.transceivers = status.transceivers.saturating_add(1),
        SessionState::Gone => {}
    }
    let requests = session.requests().len() as u64;
    let window = session.pushed().len() as u64;
    status.requests = status.requests.saturating_add(requests);
    status.window = status.window.saturating_add(window);
}

/// Under which number a delivery is kept, if it is that of an attempt.
fn key_in(delivery: Delivery) -> Option<u64> {
    match delivery {
        Delivery::Attempt(slot) => Some(key_of(slot)),
        Delivery::Receipt(_) => None,
    }
}

/// Under which number the delivery of the attempt in a slot is kept: that of its message, of which one attempt is under way at most.
fn key_of(slot: Slot) -> u64
    ensures { result ≡ slot.id }
{
    slot.id.number()
}
