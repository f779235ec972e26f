//! A session with an ESME.

ghost use Rattle.std.specs.Prelude.{◌≡◌, ◌≤◌, length, nat_le, find, filter, ◌==◌, true, Some, None, is_some, IfOk, OnOk, OnErr, IsTrue, if◌then◌else◌};
ghost use Rattle.std.specs.List.{list_any};
ghost use Rattle.std.specs.Option.{option_copied};
ghost use Rattle.accounts.specs.Accounts.{account_of, bind_refusal};
ghost use Rattle.sessions.specs.Steps as steps;
ghost use Rattle.sessions.specs.Steps.{Reacts};
ghost use Rattle.sessions.specs.States.{is_bound, is_fresh, may_ask};
ghost use Rattle.sessions.specs.Session.{sequence_after};
ghost use Rattle.sessions.specs.Windows.{is_overdue};
ghost use Rattle.sessions.specs.Responses.{bind_request, requested_by};
ghost use Rattle.pdu_tables.specs.declared.status.Status.TheVariants as statuses;
ghost use Rattle.pdu_tables.specs.CommandCodes.{command_of};

use crate::fault::told_of_fault;
use crate::pushed::{Abandoned, Delivery, PushRefusal, Pushed, retain_timely, take_sequence};
use crate::reaction::Reaction;
use crate::request::{OpenRequest, take_ticket};
use crate::requested::Requested;
use crate::response::{KNOWS_OPTIONAL, Outgoing, Response};
use crate::state::SessionState;
use accounts::{Accounts, Role};
use mc_types::Moment;
use pdu_codec::{Bind, Body, Header, Pdu, PduFault, SystemId};
use pdu_tables::Status;
use std::alloc::{AllocError, Global};
use std::marker::Model;
use std::mem;

/// How many requests may wait at a session, each way.
pub const WINDOW: usize = 10;
/// The first sequence_number of the centre, and the last, after which the first comes again (SMPP 3.4, section 5.1.4).
const FIRST_SEQUENCE: u32 = 1;

const LAST_SEQUENCE: u32 = 0x7FFF_FFFF;

/// A session with an ESME: its state, the account by which it is bound, and the requests that wait, at most ten each way.
#[derive(Drop)]
pub struct Session {
    state: SessionState,
    // Of a session that is bound.
    account: Option<SystemId>,
    // Of its bind.
    interface_version: u8,
    requests: Vec<OpenRequest>,
    pushed: Vec<Pushed>,
    // Of the next pushed request.
    next_sequence: u32,
}

impl Model for Session {
    ghost use Rattle.std.specs.Prelude.{◌≡◌, ◌≤◌, false, vec_capacity};
    ghost use Rattle.sessions.specs.Session.{Session, IsSession};

    ghost Value = { Session };

    ghost use Rattle.sessions.specs.States.{is_gone};

    ghost view = { λ s. record {
      state = s.state;
      account = s.account;
      interface_version = s.interface_version;
      requests = s.requests.items;
      pushed = s.pushed.items;
      next_sequence = s.next_sequence;
    } };

    ghost invariant = { λ s. IsSession (record {
      state = s.state;
      account = s.account;
      interface_version = s.interface_version;
      requests = s.requests.items;
      pushed = s.pushed.items;
      next_sequence = s.next_sequence;
    }) × (10 ≤ vec_capacity s.requests) × (is_gone s.state ≡ false → 10 ≤ vec_capacity s.pushed) };
}

impl Session {
    /// A session that is connected. It reserves room for its windows, once for all: an `Err` is want of that memory.
    pub fn make(alloc: Global) -> Result<Session, AllocError>
        ensures { IfOk result (λ session. session ≡ steps.opened) }
    {
        Ok(Session {
            state: SessionState::Fresh,
            account: None,
            interface_version: 0,
            requests: Vec::with_capacity(alloc, WINDOW)?,
            pushed: Vec::with_capacity(alloc, WINDOW)?,
            next_sequence: FIRST_SEQUENCE,
        })
    }

    /// Its state. It has an account exactly while it is bound.
    pub fn state(&self) -> SessionState
        ensures state { result ≡ self.now.state }
        ensures account { is_some self.now.account ≡ is_bound self.now.state }
    {
        self.state
    }

    /// The account by which it is bound; none if it is not.
    pub fn account(&self) -> Option<&SystemId>
        ensures { option_copied result ≡ self.now.account }
    {
        self.account.as_ref()
    }

    /// Whether the ESME knows optional parameters: it was bound with an interface_version of 0x34 or more (section 5.2.4).
    pub fn knows_optional(&self) -> bool
        ensures { result ≡ nat_le 0x34 self.now.interface_version }
    {
        self.interface_version >= KNOWS_OPTIONAL
    }

    /// The requests of the ESME that wait, in the order in which they began to.
    pub fn requests(&self) -> &[OpenRequest]
        ensures requests { result.now ≡ self.now.requests }
        ensures most { length self.now.requests ≤ 10 }
    {
        &self.requests
    }

    /// The requests of the centre that wait, in the order in which they were pushed.
    pub fn pushed(&self) -> &[Pushed]
        ensures pushed { result.now ≡ self.now.pushed }
        ensures most { length self.now.pushed ≤ 10 }
    {
        &self.pushed
    }

    /// A PDU came: what comes of it by the session table. An `Err` is want of memory, which only a bind that succeeds needs, and
    /// changes nothing.
    pub fn on_pdu(&mut self, accounts: &Accounts, pdu: &Pdu) -> Result<Reaction, AllocError>
        ensures ok { IfOk result (λ reaction. Reacts (steps.on_pdu accounts.now self.old pdu.now) self.new reaction) }
        ensures err { OnErr result (self.new ≡ self.old) }
        ensures memory { OnErr result (IsTrue (steps.is_bound_by accounts.now self.old pdu.now)) }
    {
        if self.state.is_gone() {
            return Ok(Reaction::Nothing);
        }
        let sequence = pdu.sequence;
        match &pdu.body {
            Body::BindReceiver(bind) => self.bind(accounts, Role::Receiver, sequence, bind),
            Body::BindTransmitter(bind) => self.bind(accounts, Role::Transmitter, sequence, bind),
            Body::BindTransceiver(bind) => self.bind(accounts, Role::Transceiver, sequence, bind),
            Body::SubmitSm(_) => Ok(self.ask(sequence, Requested::SubmitSm)),
            Body::QuerySm(_) => Ok(self.ask(sequence, Requested::QuerySm)),
            Body::CancelSm(_) => Ok(self.ask(sequence, Requested::CancelSm)),
            Body::Unbind => Ok(self.unbind(sequence)),
            Body::EnquireLink => Ok(respond(sequence, Response::Linked)),
            Body::DeliverSm(_) => Ok(respond(sequence, Response::Nack(Status::InvalidCommandId))),
            Body::DeliverSmResp(_) | Body::GenericNack => Ok(self.answered(sequence)),
            Body::BindReceiverResp(_)
            | Body::BindTransmitterResp(_)
            | Body::BindTransceiverResp(_)
            | Body::SubmitSmResp(_)
            | Body::QuerySmResp(_)
            | Body::CancelSmResp
            | Body::UnbindResp
            | Body::EnquireLinkResp => Ok(Reaction::Nothing),
        }
    }

    /// Octets with this header came that are no PDU, by this fault. Of `Memory`, which is no fault of the octets, nothing comes. It
    /// takes no memory.
    pub fn on_fault(&mut self, header: Header, fault: PduFault) -> Reaction
        ensures { Reacts (steps.on_fault self.old fault (requested_by (command_of header.command)) header.sequence) self.new result }
    {
        let requested = Requested::of_command(header.command);
        self.fault(header.sequence, requested, fault)
    }

    /// Octets came whose length is not that of a PDU: the session is gone. Their sequence_number can't be known, so the answer has
    /// 0. It takes no memory.
    pub fn on_wrong_length(&mut self) -> Reaction
        ensures { Reacts (steps.on_wrong_length self.old) self.new result }
    {
        if self.state.is_gone() {
            return Reaction::Nothing;
        }
        self.leave(0, Response::Nack(Status::InvalidCommandLength))
    }

    /// The node lets a request of the ESME wait under this ticket: it takes a place in the window. `false` if it can't, since the
    /// session is not bound so that the ESME may ask, or the window is full; then nothing changes. It takes no memory.
    pub fn on_wait(&mut self, request: OpenRequest) -> bool
        ensures waits { result ≡ steps.can_wait self.old }
        ensures after { self.new ≡ steps.on_wait self.old request }
    {
        if !self.state.may_ask() || self.requests.len() >= WINDOW {
            return false;
        }
        self.requests.push(request).unwrap();
        true
    }

    /// The node answers the request of this ticket: which request it is, so that its response can be sent. It frees its place in
    /// the window. None if the session holds no such ticket; then nothing changes. It takes no memory.
    pub fn on_reply(&mut self, ticket: u64) -> Option<OpenRequest>
        ensures request { result ≡ find (λ request. request.ticket == ticket) self.old.requests }
        ensures after { self.new ≡ steps.on_reply self.old ticket }
    {
        take_ticket(&mut self.requests, ticket)
    }

    /// Why nothing can be pushed, if nothing can.
    pub fn push_refusal(&self) -> Option<PushRefusal>
        ensures { result ≡ steps.push_refusal self.now }
    {
        if !self.state.may_receive() {
            return Some(PushRefusal::NotReceiving);
        }
        (self.pushed.len() >= WINDOW).then_some(PushRefusal::Window)
    }

    /// A deliver_sm is pushed at this moment: the sequence_number with which it is to be sent. `Window` if ten wait for
    /// their answers, `NotReceiving` if the session is not bound as a receiver or a transceiver; then nothing changes. It takes no
    /// memory.
    pub fn push_request(&mut self, now: Moment, delivery: Delivery) -> Result<u32, PushRefusal>
        ensures sequence { result ≡ steps.push_result self.old }
        ensures after { self.new ≡ steps.on_push self.old now delivery }
    {
        if let Some(refusal) = self.push_refusal() {
            return Err(refusal);
        }
        let sequence = self.next_sequence;
        let request = Pushed {
            sequence,
            since: now,
            delivery,
        };
        self.pushed.push(request).unwrap();
        self.next_sequence = sequence_after(sequence);
        Ok(sequence)
    }

    /// A moment has come: the pushed requests that wait 30 seconds or more are given up. An `Err` is want of memory, and changes
    /// nothing.
    pub fn on_tick(&mut self, now: Moment) -> Result<Abandoned, AllocError>
        ensures abandoned { IfOk result (λ abandoned. abandoned ≡ filter (is_overdue now) self.old.pushed) }
        ensures ok { OnOk result (self.new ≡ steps.on_tick self.old now) }
        ensures err { OnErr result (self.new ≡ self.old) }
        ensures memory { OnErr result (IsTrue (list_any (is_overdue now) self.old.pushed)) }
    {
        let abandoned = Abandoned::at(*self.pushed.allocator(), &self.pushed, now)?;
        self.let_go_overdue(now);
        Ok(abandoned)
    }

    /// The same, but for what is given up. It takes no memory.
    pub fn let_go_overdue(&mut self, now: Moment)
        ensures { self.new ≡ steps.on_tick self.old now }
    {
        retain_timely(&mut self.pushed, now);
    }

    /// The centre takes back what it pushed with this sequence_number, since it is not sent: it leaves the window. None if no such request is
    /// open; then nothing changes. It takes no memory.
    pub fn take_back(&mut self, sequence: u32) -> Option<Pushed>
        ensures pushed { result ≡ find (λ request. request.sequence == sequence) self.old.pushed }
        ensures after { self.new ≡ (steps.on_answer self.old sequence).next }
    {
        take_sequence(&mut self.pushed, sequence)
    }

    /// The session is gone: the pushed requests that were open are given up, and what the ESME asked is forgotten. It takes no
    /// memory.
    pub fn fail(&mut self) -> Abandoned
        ensures abandoned { result ≡ self.old.pushed }
        ensures after { self.new ≡ steps.gone self.old }
    {
        self.state = SessionState::Gone;
        self.account = None;
        self.requests.clear();
        let alloc = *self.pushed.allocator();
        Abandoned::of(mem::replace(&mut self.pushed, Vec::new(alloc)))
    }

    /// This is sent, and the session is gone.
    fn leave(&mut self, sequence: u32, response: Response) -> Reaction
        ensures { Reacts (steps.leaves self.old sequence response) self.new result }
    {
        let outgoing = Outgoing { sequence, response };
        Reaction::Leave(outgoing, self.fail())
    }

    /// A bind came.
    fn bind(
        &mut self,
        accounts: &Accounts,
        role: Role,
        sequence: u32,
        bind: &Bind,
    ) -> Result<Reaction, AllocError>
        ensures ok { IfOk result (λ reaction. Reacts (
            if is_fresh self.old.state then steps.binds accounts.now self.old sequence role bind.now
            else steps.stays self.old (steps.refused sequence (Some (bind_request role)) statuses.AlreadyBound)) self.new reaction) }
        ensures err { OnErr result (self.new ≡ self.old) }
        ensures memory { OnErr result (is_fresh self.old.state ≡ true
            × (bind_refusal (account_of accounts.now bind.now.system_id) role bind.now ≡ None)) }
    {
        let requested = Requested::of_role(role);
        if !self.state.is_fresh() {
            return Ok(refuse(sequence, requested, Status::AlreadyBound));
        }
        if let Some(status) = accounts.bind_refusal(role, bind) {
            return Ok(refuse(sequence, requested, status));
        }
        self.account = Some(bind.system_id.copy()?);
        self.state = SessionState::bound_as(role);
        self.interface_version = bind.interface_version;
        Ok(respond(sequence, Response::Bound(role, bind.interface_version)))
    }

    /// Octets came that are no PDU, with the header of this request, or of none.
    fn fault(&mut self, sequence: u32, requested: Option<Requested>, fault: PduFault) -> Reaction
        ensures { Reacts (steps.on_fault self.old fault requested sequence) self.new result }
    {
        if let PduFault::Length = fault {
            return self.on_wrong_length();
        }
        if self.state.is_gone() {
            return Reaction::Nothing;
        }
        match told_of_fault(fault, requested) {
            Some(response) => respond(sequence, response),
            None => Reaction::Nothing,
        }
    }

    /// A submit_sm, query_sm or cancel_sm came.
    fn ask(&self, sequence: u32, requested: Requested) -> Reaction
        ensures { result ≡ (
            if may_ask self.now.state then steps.asks self.now sequence (Some requested)
            else steps.refused sequence (Some requested) statuses.InvalidBindStatus) }
    {
        if !self.state.may_ask() {
            return refuse(sequence, requested, Status::InvalidBindStatus);
        }
        if self.requests.len() >= WINDOW {
            return refuse(sequence, requested, Status::Throttled);
        }
        Reaction::Ask(requested)
    }

    /// An unbind came.
    fn unbind(&mut self, sequence: u32) -> Reaction
        ensures { Reacts (
            if is_fresh self.old.state then steps.stays self.old (steps.refused sequence (Some Requested.Unbind) statuses.InvalidBindStatus)
            else steps.leaves self.old sequence Response.Unbound) self.new result }
    {
        if self.state.is_fresh() {
            return refuse(sequence, Requested::Unbind, Status::InvalidBindStatus);
        }
        self.leave(sequence, Response::Unbound)
    }

    /// An answer of the ESME came, with this sequence_number.
    fn answered(&mut self, sequence: u32) -> Reaction
        ensures { Reacts (steps.on_answer self.old sequence) self.new result }
    {
        match take_sequence(&mut self.pushed, sequence) {
            Some(pushed) => Reaction::Answered(pushed),
            None => Reaction::Nothing,
        }
    }
}

/// This is sent.
fn respond(sequence: u32, response: Response) -> Reaction
    ensures { result ≡ steps.responds sequence (Some response) }
{
    Reaction::Respond(Outgoing { sequence, response })
}

/// The request is refused with this status.
fn refuse(sequence: u32, requested: Requested, status: Status) -> Reaction
    ensures { result ≡ steps.refused sequence (Some requested) status }
{
    respond(sequence, Response::Refused(requested, status))
}

/// The sequence_number of the centre after this one: after 0x7FFFFFFF comes 1 again (SMPP 3.4, section 5.1.4).
pub fn sequence_after(sequence: u32) -> u32
    ensures { result ≡ sequence_after sequence }
{
    if sequence >= LAST_SEQUENCE {
        return FIRST_SEQUENCE;
    }
    sequence + 1
}
