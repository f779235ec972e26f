//! The service of the ESMEs at a node.

ghost use Rattle.std.specs.Prelude.{◌≡◌, ◌==◌, [], not, true, find, length, option_map, IfErr, IfOk, IsOk, OnErr, OnOk, is_some};
ghost use Rattle.std.specs.Option.{option_copied};
ghost use Rattle.pdu_codec.specs.Pdu.{read_pdu};
ghost use Rattle.esme_service.specs.Hearing.{heeds, ends_at};
ghost use Rattle.esme_service.specs.Replies.{owner_of, replied};
ghost use Rattle.esme_service.specs.Settings.{settings_of};

use crate::heard::{Asked, Heard};
use crate::hearing::{hear_frame, hear_wrong_length};
use crate::owner::Owner;
use crate::pushed_on::PushedOn;
use crate::sending::Sending;
use crate::waiting::Waiting;
use crate::{overdue, receiving};
use config::Config;
use fate_chain::Chain;
use mc_types::{Moment, Slot};
use pdu_codec::SystemId;
use sessions::{Abandoned, Delivery, OpenRequest, Pushed, Session};
use std::alloc::{AllocError, AllocFailed, Global};
use std::collections::BTreeMap;
use std::marker::Model;
use waiting_requests::Reply;

/// The sessions of a node's ESMEs, by their numbers, and the receipts that wait for one. It owns no node: what comes on a session for the
/// node is handed out (`Heard`), what the node gave out is handed in, and what goes out by that is handed out (`Sending`). An `Err` of a call
/// is want of memory, and changes nothing, so that the call can be made again.
#[derive(Drop)]
pub struct Service {
    sessions: BTreeMap<u8, Session>,
    waiting: Waiting,
}

impl Model for Service {
    ghost use Rattle.esme_service.specs.Service.{Service};

    ghost Value = { Service };

    ghost view = { λ service. record { sessions = service.sessions.entries; waiting = service.waiting } };
}

impl Service {
    ghost use Rattle.std.specs.Prelude.{Some};
    ghost use Rattle.sessions.specs.declared.pushed.Delivery.TheVariants.{Attempt};
    ghost use Rattle.esme_service.specs.Hearing.{Goes};
    ghost use Rattle.esme_service.specs.Pushes.{accounts_up, overdue_in, session_at, timely_in};
    ghost use Rattle.esme_service.specs.Pushing.{IsPushed};
    ghost use Rattle.esme_service.specs.Reports.{waits};
    ghost use Rattle.esme_service.specs.Service.{SendsNextReceipt};
    ghost use Rattle.esme_service.specs.Sessions.{account_at, given_up_at, put_at, session_in, takes_back, waits_at, without_session};
    ghost use Rattle.esme_service.specs.Told.{reply_to};
    ghost use Rattle.node_model.specs.Reported.{receipt_of};

    /// No session, and no receipt that waits.
    pub fn none(alloc: Global) -> Service
        ensures { result ≡ record { sessions = []; waiting = [] } }
    {
        Service {
            sessions: BTreeMap::new(alloc),
            waiting: Waiting::none(alloc),
        }
    }

    /// Whether the session of a number is connected.
    pub fn has(&self, number: u8) -> bool
        ensures { result ≡ is_some (session_at self.now.sessions number) }
    {
        self.sessions.contains_key(&number)
    }

    /// The sessions that are connected, by their numbers.
    pub fn sessions(&self) -> &BTreeMap<u8, Session>
        ensures { result.now.entries ≡ self.now.sessions }
    {
        &self.sessions
    }

    /// The account of the session of a number: none if it is not bound, or not connected.
    pub fn account(&self, number: u8) -> Option<&SystemId>
        ensures { option_copied result ≡ account_at self.now.sessions number }
    {
        self.sessions.get(&number)?.account()
    }

    /// The session of a number begins, unless it is connected.
    pub fn begin(&mut self, number: u8) -> Result<(), AllocError>
        ensures begun { OnOk result (self.new ≡ record self.old { sessions = put_at self.old.sessions number (session_in self.old.sessions number) }) }
        ensures err { OnErr result (self.new ≡ self.old) }
    {
        if let Some(session) = self.sessions.get_mut(&number) {
            let _ = session;
            return Ok(());
        }
        let session = Session::make(self.waiting.allocator())?;
        self.sessions.insert(number, session)?;
        Ok(())
    }

    /// The octets of one frame came on the session of a number. A session that is gone by them is connected no longer. Nothing comes of them
    /// if it is not connected. An `Err` is want of memory, which only a PDU on a session that is connected needs.
    pub fn hear(&mut self, config: &Config, number: u8, frame: &[u8]) -> Result<Heard, AllocError>
        ensures heard { IfOk result (λ heard. heard ≡ (heeds (settings_of config.now) self.old.sessions number frame.now).heard) }
        ensures after { OnOk result (self.new ≡ record self.old { sessions = (heeds (settings_of config.now) self.old.sessions number frame.now).sessions }) }
        ensures goes { OnOk result (Goes number (heeds (settings_of config.now) self.old.sessions number frame.now)) }
        ensures err { OnErr result (self.new ≡ self.old) }
        ensures memory { OnErr result (IsOk (read_pdu frame.now)) }
        ensures connected { OnErr result (is_some (session_at self.old.sessions number) ≡ true) }
    {
        let alloc = self.waiting.allocator();
        let Some(session) = self.sessions.get_mut(&number) else {
            return Ok(Heard::Nothing);
        };
        let heard = hear_frame(alloc, config, session, frame)?;
        if session.state().is_gone() {
            let _ = self.sessions.remove(&number);
        }
        Ok(heard)
    }

    /// Octets came on the session of a number whose length is not that of a PDU: the session is gone. Nothing comes of them if it is not
    /// connected. It takes no memory.
    pub fn hear_wrong_length(&mut self, number: u8) -> Heard
        ensures heard { result ≡ (ends_at self.old.sessions number).heard }
        ensures after { self.new ≡ record self.old { sessions = (ends_at self.old.sessions number).sessions } }
        ensures goes { Goes number (ends_at self.old.sessions number) }
    {
        let Some(session) = self.sessions.get_mut(&number) else {
            return Heard::Nothing;
        };
        let heard = hear_wrong_length(session);
        if session.state().is_gone() {
            let _ = self.sessions.remove(&number);
        }
        heard
    }

    /// The node lets the request that came on a session wait under a ticket, if it gave one: it takes a place in the window. It takes no
    /// memory.
    pub fn wait(&mut self, number: u8, asked: Asked, ticket: Option<u64>)
        ensures { self.new ≡ record self.old { sessions = waits_at self.old.sessions number asked.requested asked.sequence ticket } }
    {
        let Some(ticket) = ticket else {
            return;
        };
        if let Some(session) = self.sessions.get_mut(&number) {
            let Asked {
                requested,
                sequence,
            } = asked;
            let _ = session.on_wait(OpenRequest {
                ticket,
                requested,
                sequence,
            });
        }
    }

    /// What was pushed with this sequence_number on the session of a number is not sent: it leaves the window there, if that is connected. It takes no
    /// memory.
    pub fn take_back(&mut self, number: u8, sequence: u32)
        ensures { self.new ≡ record self.old { sessions = takes_back self.old.sessions number sequence } }
    {
        if let Some(session) = self.sessions.get_mut(&number) {
            let _ = session.take_back(sequence);
        }
    }

    /// The session of a number is lost: it is connected no longer, and what it had pushed gets no answer any more. None if it is not connected; then
    /// nothing changes. It takes no memory.
    pub fn fail(&mut self, number: u8) -> Option<Abandoned>
        ensures abandoned { result ≡ given_up_at self.old.sessions number }
        ensures after { self.new ≡ record self.old { sessions = without_session self.old.sessions number } }
    {
        let mut session = self.sessions.remove(&number)?;
        Some(session.fail())
    }

    /// The node replies to a request that waited: its response goes out on the session that holds its ticket, and it leaves the window there.
    /// None if no session that is connected holds it; then nothing changes. It takes no memory.
    pub fn reply(&mut self, reply: Reply) -> Option<Sending>
        ensures sending { result ≡ reply_to reply (owner_of self.old.sessions reply.ticket) }
        ensures after { self.new ≡ record self.old { sessions = replied self.old.sessions reply.ticket (owner_of self.old.sessions reply.ticket) } }
    {
        let Some(owner) = self.take_request(reply.ticket()) else {
            drop(reply);
            return None;
        };
        Some(Sending::Reply(owner, reply))
    }

    /// The request of a ticket, if a session that is connected holds it: it leaves the window of its session.
    fn take_request(&mut self, ticket: u64) -> Option<Owner>
        ensures owner { option_map owned_by result ≡ owner_of self.old.sessions ticket }
        ensures after { self.new ≡ record self.old { sessions = replied self.old.sessions ticket (owner_of self.old.sessions ticket) } }
    {
        let owner = owner_of(&self.sessions, ticket)?;
        if let Some(session) = self.sessions.get_mut(&owner.number) {
            let _ = session.on_reply(ticket);
        }
        Some(owner)
    }

    /// Whether a receipt waits for a session.
    pub fn has_receipts(&self) -> bool
        ensures { result ≡ not (length self.now.waiting == 0) }
    {
        !self.waiting.is_empty()
    }

    /// A receipt is due, by the chain of its message: it waits for a session of the account that submitted the message. It is dropped if
    /// 10,000 wait for that. The `Err` hands the chain back.
    pub fn post(&mut self, chain: Chain) -> Result<(), AllocFailed<Chain>>
        ensures waits { OnOk result (self.new ≡ record self.old { waiting = waits self.old.waiting (receipt_of chain) }) }
        ensures back { IfErr result (λ failed. failed.value ≡ chain) }
        ensures err { OnErr result (self.new ≡ self.old) }
    {
        self.waiting.add(chain)
    }

    /// The oldest receipt that waits for an account goes out at this moment, over the session with the lowest number that takes it. None if
    /// none waits, or no session takes it; then nothing changes. It takes no memory.
    pub fn next_receipt(&mut self, account: &SystemId, now: Moment) -> Option<Sending>
        ensures { SendsNextReceipt self.old account.now now result self.new }
    {
        let id = self.waiting.first_for(account)?;
        let pushed = receiving::push(
            &mut self.sessions,
            false,
            account,
            now,
            Delivery::Receipt(id),
        )?;
        let Some(chain) = self.waiting.take_for(account) else {
            unreachable!();
        };
        Some(Sending::Receipt(pushed, chain))
    }

    /// The attempt in a slot goes out at this moment, over the session with the lowest number that takes it for this account. `long` tells that
    /// its text is too long for a short_message: a session that was bound with an interface_version below 0x34 does not take that (SMPP 3.4,
    /// section 5.2.4). None if no session takes it; then nothing changes. It takes no memory.
    pub fn push(
        &mut self,
        target: &SystemId,
        long: bool,
        now: Moment,
        slot: Slot,
    ) -> Option<PushedOn>
        ensures pushed { IsPushed self.old.sessions long target.now now (Attempt slot) self.new.sessions result }
        ensures waiting { self.new.waiting ≡ self.old.waiting }
    {
        receiving::push(
            &mut self.sessions,
            long,
            target,
            now,
            Delivery::Attempt(slot),
        )
    }

    /// The account of each session that may receive, by the numbers of the sessions. It takes no memory if there is none.
    pub fn accounts_up(&self) -> Result<Vec<SystemId>, AllocError>
        ensures up { IfOk result (λ up. up.items ≡ accounts_up self.now.sessions) }
        ensures none { accounts_up self.now.sessions ≡ [] → IsOk result }
    {
        receiving::accounts_up(self.waiting.allocator(), &self.sessions)
    }

    /// What was pushed and waits 30 seconds or more at this moment, by session. It takes no memory if there is nothing.
    pub fn overdue(&self, now: Moment) -> Result<Vec<Pushed>, AllocError>
        ensures found { IfOk result (λ overdue. overdue.items ≡ overdue_in self.now.sessions now) }
        ensures none { overdue_in self.now.sessions now ≡ [] → IsOk result }
    {
        overdue::overdue(self.waiting.allocator(), &self.sessions, now)
    }

    /// It leaves the windows of its sessions. It takes no memory.
    pub fn let_go_overdue(&mut self, now: Moment)
        ensures { self.new ≡ record self.old { sessions = timely_in self.old.sessions now } }
    {
        overdue::let_go_overdue(&mut self.sessions, now);
    }
}

ghost use Rattle.esme_service.specs.Told.{owned_by};

/// The request of a ticket, and the first session that holds it.
fn owner_of(sessions: &BTreeMap<u8, Session>, ticket: u64) -> Option<Owner>
    ensures { option_map owned_by result ≡ owner_of sessions.now.entries ticket }
{
    for (number, session) in sessions {
        if let Some(request) = request_of(session.requests(), ticket) {
            return Some(Owner {
                number: *number,
                request,
            });
        }
    }
    None
}

/// The request of a ticket.
fn request_of(requests: &[OpenRequest], ticket: u64) -> Option<OpenRequest>
    ensures { result ≡ find (λ request. request.ticket == ticket) requests.now }
{
    requests
        .iter()
        .copied()
        .find(|request| request.ticket == ticket)
}
