//! What comes to a node in the tests.

use crate::asked::{account, request, text};
use crate::packets::packet;
use delivery::{Outcome, outcome_of};
use mc_types::{Moment, MsgId, NodeNo, Slot};
use node_core::{Input, MayBegin, MessageIds, Reach};
use pdu_codec::decode;
use std::alloc::Global;

/// The chain of one Taken on message 1000100001, as it is written (format 2): from 144 to 155, with a receipt and the text Hi.
pub const TAKEN: &[u8] =
    b"\x02\x00\x00\x00\x00\x3b\x9c\x50\xa1\x00\x01\x01\x01\x00\x01\x38\x6d\x43\x80\x04sme1\x04sme1\x00\x01\x01\x03144\x01\x01\x03155\x00\x00\x00\x01\x00\x38\x6d\x43\x80\x38\x71\x38\x00\x00\x02Hi\x00\x00";

// What an ESME answers to the first deliver_sm of a session: that it took it, that it has an error, and that it rejects it.
const DELIVERED: &[u8] = b"\x00\x00\x00\x11\x80\x00\x00\x05\x00\x00\x00\x00\x00\x00\x00\x01\x00";

const FAILED: &[u8] = b"\x00\x00\x00\x10\x80\x00\x00\x05\x00\x00\x00\x64\x00\x00\x00\x01";

const REJECTED: &[u8] = b"\x00\x00\x00\x10\x80\x00\x00\x05\x00\x00\x00\x66\x00\x00\x00\x01";

/// The node of a number.
pub fn node(number: u64) -> Option<NodeNo> {
    NodeNo::make(octet(number)?).ok()
}

/// The first message that node 1 takes.
pub fn first_id() -> Option<MsgId> {
    MsgId::read(b"1000100001").ok()
}

/// Up to four numbers; 0 for each that is not there.
pub fn numbers(words: &str) -> Option<[u64; 4]> {
    let mut numbers = [0; 4];
    for (number, word) in numbers.iter_mut().zip(words.split_whitespace()) {
        *number = word.parse().ok()?;
    }
    Some(numbers)
}

/// The number as an octet.
pub(crate) fn octet(number: u64) -> Option<u8> {
    u8::try_from(number).ok()
}

/// The slot of the first message at a place.
pub(crate) fn slot(place: u8) -> Option<Slot> {
    let id = first_id()?;
    Some(Slot { id, place })
}

/// What comes to a node: a request; `grant`, if the attempt is asked for; `delivered`, `failed` or `rejected`, if that came of an attempt,
/// with its number unless it is the first; `tick`, with the moment and the accounts of which a session may receive, and with `only` and the ids of the
/// messages of which an attempt may begin, if not of all; or a packet and its numbers.
pub fn input(alloc: Global, comes: &str) -> Option<Input> {
    let (kind, rest) = comes.split_once(' ').unwrap_or((comes, ""));
    input_of(alloc, kind, rest)
}

/// The same by its word, and what stands behind it.
pub fn input_of(alloc: Global, kind: &str, rest: &str) -> Option<Input> {
    match kind {
        "grant" => Some(Input::Grant(first_id()?)),
        "delivered" => concluded(alloc, DELIVERED, rest),
        "failed" => concluded(alloc, FAILED, rest),
        "rejected" => concluded(alloc, REJECTED, rest),
        "tick" => tick(alloc, rest),
        _ => match packet(alloc, kind, numbers_or_none(rest)) {
            Some(packet) => Some(Input::Packet(packet)),
            None => requested(alloc, kind),
        },
    }
}

fn numbers_or_none(words: &str) -> [u64; 4] {
    numbers(words).unwrap_or([0; 4])
}

fn requested(alloc: Global, kind: &str) -> Option<Input> {
    let request = request(alloc, kind)?;
    match account(alloc) {
        Some(account) => Some(Input::Request(account, request)),
        None => None,
    }
}

/// What the octets of an answer say of the attempt of this number, or of the first.
fn concluded(alloc: Global, octets: &[u8], words: &str) -> Option<Input> {
    let [number, ..] = numbers(words)?;
    let place = number.max(1).checked_mul(2)?.checked_sub(1)?;
    let slot = slot(octet(place)?)?;
    Some(Input::Answered(slot, outcome_in(alloc, octets)?))
}

fn outcome_in(alloc: Global, octets: &[u8]) -> Option<Outcome> {
    match decode(alloc, octets) {
        Ok(pdu) => outcome_of(1, &pdu),
        Err(_) => None,
    }
}

/// The moment, and what stands behind it.
fn tick(alloc: Global, words: &str) -> Option<Input> {
    let (seconds, rest) = words.split_once(' ').unwrap_or((words, ""));
    let moment = Moment::make(seconds.parse().ok()?).ok()?;
    let (accounts, may) = match rest.split_once("only") {
        Some((accounts, ids)) => (accounts, MayBegin::These(message_ids(alloc, ids)?)),
        None => (rest, MayBegin::All),
    };
    let mut up = Vec::new(alloc);
    for account in accounts.split_whitespace() {
        up.push(text(alloc, account)?).ok()?;
    }
    Some(Input::Tick(moment, Reach { up, may }))
}

/// The messages of these ids.
fn message_ids(alloc: Global, words: &str) -> Option<MessageIds> {
    let mut ids = MessageIds::none(alloc);
    for word in words.split_whitespace() {
        let id = MsgId::read(word.as_bytes()).ok()?;
        ids.put(id).ok()?;
    }
    Some(ids)
}
