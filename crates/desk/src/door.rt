//! What is looked at when a request comes: what is refused at once, and what waits.

ghost use Rattle.std.specs.Prelude.{◌≡◌, ◌≤◌, ℕ, false, true, Ok, IfOk, IsOk, OnErr, OnOk};
ghost use Rattle.std.specs.Global.{Vec};
ghost use Rattle.std.specs.Option.{option_map};
ghost use Rattle.pdu_codec.specs.Text.{AreOptional, IsShortMessage};
ghost use Rattle.desk.specs.Desk.{fields_refusal, is_too_long, payload_in, submission_of, text_by, text_of};
ghost use Rattle.mc_types.specs.Texts.{id_in};
ghost use Rattle.desk.specs.declared.request.Request.TheVariants as requests;
ghost use Rattle.desk.specs.Admissions.{MayWait, about, admitted, asked_as, routed_as, submitted_as};

use crate::request::Request;
use crate::times::Times;
use fate_chain::{Content, Submission};
use mc_types::{LAST_SERIAL, Moment, MsgId};
use pdu_codec::{AddressDigits, Cancel, Message, MessageIdText, Query, ShortMessage, SystemId};
use pdu_tables::{Status, Tag};
use std::alloc::AllocError;

/// The tags of the optional parameters that are passed on: user_message_reference, sar_msg_ref_num,
/// sar_total_segments and sar_segment_seqnum.
const PASSED: [u16; 4] = [0x0204, 0x020c, 0x020e, 0x020f];

/// How many octets the text of a message has at most.
const MOST_TEXT: usize = 4096;

/// What is looked at when a request comes: the clock, how long a message is valid that asks for nothing else, in seconds, the serial
/// of the next message (100000 if none is left), and whether no request more may wait.
#[derive(Clone, Copy, Debug)]
pub struct Door {
    pub clock: Moment,
    pub validity: u32,
    pub serial: u32,
    pub busy: bool,
}

/// What waits of a request that is not refused.
#[derive(Drop)]
pub enum Admitted {
    /// What is taken of a submit_sm.
    Submit(Submission),
    /// A query_sm of an account, about the message of an id.
    Query {
        id: MsgId,
        account: SystemId,
        source: AddressDigits,
    },
    /// A cancel_sm of an account, about the message of an id.
    Cancel {
        id: MsgId,
        account: SystemId,
        source: AddressDigits,
        destination: AddressDigits,
    },
}

impl Door {
    ghost use Rattle.desk.specs.Times.{AreToCome, times_of};
    ghost use Rattle.desk.specs.Desk.{submit_judged, with_room};

    /// What waits of a request of an account, or the status with which it is refused at once. An outer `Err` is want of memory,
    /// which only a request needs that is not refused.
    pub fn admit(
        &self,
        account: &SystemId,
        request: Request,
    ) -> Result<Result<Admitted, Status>, AllocError>
        ensures admitted { IfOk result (λ judged. (next : ℕ) → asked_as next judged ≡ admitted self.now next account.now request) }
        ensures memory { OnErr result ((next : ℕ) → IsOk (admitted self.now next account.now request)) }
        ensures waits { IfOk result (λ judged. IfOk judged (MayWait self.now)) }
    {
        match request {
            Request::Submit(message, target) => self.submit(account, message, target),
            Request::Ask(query) => self.query(account, query),
            Request::Cancel(cancel) => self.cancel(account, cancel),
        }
    }

    /// What is taken of a submit_sm, with the account that a route leads to, if one does.
    fn submit(
        &self,
        account: &SystemId,
        message: Message,
        target: Option<SystemId>,
    ) -> Result<Result<Admitted, Status>, AllocError>
        ensures admitted { IfOk result (λ judged. (next : ℕ) → asked_as next judged ≡ submitted_as self.now next account.now message target) }
        ensures memory { OnErr result ((next : ℕ) → IsOk (submitted_as self.now next account.now message target)) }
        ensures waits { IfOk result (λ judged. IfOk judged (MayWait self.now)) }
    {
        if is_too_long(&message) {
            return Ok(Err(Status::InvalidMessageLength));
        }
        self.route(account, message, target)
    }

    /// What is taken of a submit_sm whose text is not too long.
    fn route(
        &self,
        account: &SystemId,
        message: Message,
        target: Option<SystemId>,
    ) -> Result<Result<Admitted, Status>, AllocError>
        requires { is_too_long message ≡ false }
        ensures admitted { IfOk result (λ judged. (next : ℕ) → asked_as next judged ≡ routed_as self.now next account.now message target) }
        ensures memory { OnErr result ((next : ℕ) → IsOk (routed_as self.now next account.now message target)) }
        ensures waits { IfOk result (λ judged. IfOk judged (MayWait self.now)) }
    {
        let Some(target) = target else {
            return Ok(Err(Status::InvalidDestinationAddress));
        };
        match self.judge(&message) {
            Err(status) => Ok(Err(status)),
            Ok(times) => {
                let taken = submission(account, target, times, message)?;
                Ok(Ok(Admitted::Submit(taken)))
            }
        }
    }

    /// What waits of a query_sm.
    fn query(
        &self,
        account: &SystemId,
        query: Query,
    ) -> Result<Result<Admitted, Status>, AllocError>
        ensures admitted { IfOk result (λ judged. (next : ℕ) → asked_as next judged ≡ admitted self.now next account.now (requests.Ask query)) }
        ensures memory { OnErr result ((next : ℕ) → IsOk (admitted self.now next account.now (requests.Ask query))) }
        ensures waits { IfOk result (λ judged. IfOk judged (MayWait self.now)) }
    {
        let id = match self.about(&query.message_id) {
            Ok(id) => id,
            Err(status) => return Ok(Err(status)),
        };
        let account = account.copy()?;
        Ok(Ok(Admitted::Query {
            id,
            account,
            source: query.source.digits,
        }))
    }

    /// What waits of a cancel_sm.
    fn cancel(
        &self,
        account: &SystemId,
        cancel: Cancel,
    ) -> Result<Result<Admitted, Status>, AllocError>
        ensures admitted { IfOk result (λ judged. (next : ℕ) → asked_as next judged ≡ admitted self.now next account.now (requests.Cancel cancel)) }
        ensures memory { OnErr result ((next : ℕ) → IsOk (admitted self.now next account.now (requests.Cancel cancel))) }
        ensures waits { IfOk result (λ judged. IfOk judged (MayWait self.now)) }
    {
        if cancel.message_id.is_empty() {
            return Ok(Err(Status::CancelFailed));
        }
        let id = match self.about(&cancel.message_id) {
            Ok(id) => id,
            Err(status) => return Ok(Err(status)),
        };
        let account = account.copy()?;
        Ok(Ok(Admitted::Cancel {
            id,
            account,
            source: cancel.source.digits,
            destination: cancel.destination.digits,
        }))
    }

    /// The id that a request names, if another request may wait.
    fn about(&self, text: &MessageIdText) -> Result<MsgId, Status>
        ensures id { result ≡ about self.now.busy (id_in text.now) }
        ensures room { OnOk result (self.now.busy ≡ false) }
    {
        let Ok(id) = MsgId::read(text.octets()) else {
            return Err(Status::InvalidMessageId);
        };
        if self.busy {
            return Err(Status::Throttled);
        }
        Ok(id)
    }

    /// The times of a submit_sm that has a route, or the status with which it is refused at once.
    fn judge(&self, message: &Message) -> Result<Times, Status>
        ensures judged { result ≡ submit_judged true self.now.clock self.now.validity self.now.serial self.now.busy message.now }
        ensures times { IfOk result (λ times. AreToCome self.now.clock times) }
        ensures room { OnOk result ((self.now.serial ≤ 99999) × (self.now.busy ≡ false)) }
    {
        if let Some(status) = fields_refusal(message) {
            return Err(status);
        }
        match self.times(message) {
            Err(status) => Err(status),
            Ok(times) => self.with_room(times),
        }
    }

    /// The times of a message that comes now, or the status that refuses them.
    fn times(&self, message: &Message) -> Result<Times, Status>
        ensures judged { result ≡ times_of self.now.validity self.now.clock message.now }
        ensures to_come { IfOk result (λ times. AreToCome self.now.clock times) }
    {
        Times::of(self.validity, self.clock, message)
    }

    /// The times of a message, if there is a serial for it and room for a request.
    fn with_room(&self, times: Times) -> Result<Times, Status>
        ensures judged { result ≡ with_room self.now.serial self.now.busy (Ok times) }
        ensures times { IfOk result (λ left. left ≡ times) }
        ensures room { OnOk result ((self.now.serial ≤ 99999) × (self.now.busy ≡ false)) }
    {
        if self.serial > LAST_SERIAL {
            return Err(Status::MessageQueueFull);
        }
        if self.busy {
            return Err(Status::Throttled);
        }
        Ok(times)
    }
}

/// The status with which a submit_sm that has a route is refused before its times are looked at, if it is.
fn fields_refusal(message: &Message) -> Option<Status>
    ensures { result ≡ fields_refusal true message.now }
{
    if message.destination.digits.is_empty() {
        return Some(Status::InvalidDestinationAddress);
    }
    (message.registered_delivery % 4 == 3).then_some(Status::InvalidRegisteredDelivery)
}

/// Whether the text of a submit_sm is too long.
fn is_too_long(message: &Message) -> bool
    ensures { result ≡ is_too_long message.now }
{
    text_of(message).len() > MOST_TEXT
}

/// The text of a submit_sm.
fn text_of(message: &Message) -> &[u8]
    ensures { result.now ≡ text_of message.now }
{
    let short = message.short_message.octets();
    if !short.is_empty() {
        return short;
    }
    match message.tlvs.get(Tag::MessagePayload.code()) {
        Some(payload) => payload,
        None => short,
    }
}

/// What a proof takes of a submit_sm: its short_message and its optional parameters are within their limits. The call does nothing.
fn limits(message: &Message)
    ensures short { IsShortMessage message.now.short_message }
    ensures optional { AreOptional message.now.tlvs }
{
    let _short = message.short_message.octets();
    let _optional = message.tlvs.octets();
}

/// A copy of the message_payload of a submit_sm, if that is its text.
fn payload(message: &Message) -> Result<Option<Vec<u8>>, AllocError>
    ensures { IfOk result (λ copied. option_map (λ (octets : Vec ℕ). octets.items) copied ≡ payload_in message.now) }
{
    if !message.short_message.octets().is_empty() {
        return Ok(None);
    }
    message.tlvs.copy_of(Tag::MessagePayload.code())
}

/// The text of a submit_sm, of which the first is a copy of its message_payload, if that is its text.
fn owned(payload: Option<Vec<u8>>, short: ShortMessage) -> Vec<u8>
    ensures { result.items ≡ text_by short (option_map (λ (octets : Vec ℕ). octets.items) payload) }
{
    match payload {
        Some(octets) => octets,
        None => short.into_octets(),
    }
}

/// What is taken of a submit_sm of an account that goes to another.
fn submission(
    account: &SystemId,
    target: SystemId,
    times: Times,
    message: Message,
) -> Result<Submission, AllocError>
    requires { is_too_long message ≡ false }
    ensures { IfOk result (λ taken. taken ≡ submission_of account.now target times message) }
{
    let submitter = account.copy()?;
    let passed = message.tlvs.with_tags(&PASSED)?;
    let payload = payload(&message)?;
    limits(&message);
    Ok(Submission {
        submitter,
        target,
        service_type: message.service_type,
        source: message.source,
        destination: message.destination,
        esm_class: message.esm_class,
        protocol_id: message.protocol_id,
        priority_flag: message.priority_flag,
        registered_delivery: message.registered_delivery,
        data_coding: message.data_coding,
        schedule: times.schedule(),
        expiry: times.expiry(),
        content: Content::of(owned(payload, message.short_message), passed),
    })
}
