//! What a node answers, as a word and numbers.

use crate::inputs::numbers;
use desk::shown;
use fate_chain::Chain;
use node_core::{Outputs, StepFault};
use synod_acceptor::Packet;
use waiting_requests::Reply;

/// What a node answers to what comes: a word, and numbers behind it. If it gives out more than one thing, the word is `Other`.
pub type Answer = (&'static str, [u64; 4]);

pub const NOTHING: Answer = ("Nothing", [0; 4]);

pub const OTHER: Answer = ("Other", [0; 4]);

/// That of a line that is none, or for which there was no memory.
pub(crate) const UNREAD: Answer = ("Unread", [0; 4]);

fn with_number(word: &'static str, number: u64) -> Answer {
    (word, [number, 0, 0, 0])
}

/// What a query_sm is shown of a chain: the code of its state, the moment of its end or 0, and its error.
fn state_in(chain: &Chain) -> [u64; 3] {
    match shown(chain) {
        desk::Answer::Shown(state, moment, error) => {
            let seconds = moment.map_or(0, |moment| u64::from(moment.seconds()));
            [u64::from(state.code()), seconds, u64::from(error)]
        }
        _ => [0; 3],
    }
}

/// A number, and what is shown of a chain.
fn with_state(word: &'static str, number: u64, chain: &Chain) -> Answer {
    let [state, moment, error] = state_in(chain);
    (word, [number, state, moment, error])
}

/// A reply, with its ticket: behind that `Accepted` has the id of the message, and `Shown` its state.
fn replied(reply: &Reply) -> Answer {
    match reply.answer() {
        waiting_requests::Answer::Accepted => (
            "Accepted",
            [reply.ticket(), reply.id().number(), 0, 0],
        ),
        waiting_requests::Answer::Shown(chain) => with_state("Shown", reply.ticket(), chain),
        waiting_requests::Answer::Removed(_) => with_number("Removed", reply.ticket()),
        waiting_requests::Answer::Kept(_) => with_number("Kept", reply.ticket()),
        waiting_requests::Answer::NotOwner => with_number("NotOwner", reply.ticket()),
        waiting_requests::Answer::NotMatched(_) => with_number("NotMatched", reply.ticket()),
        waiting_requests::Answer::Unknown => with_number("Unknown", reply.ticket()),
        waiting_requests::Answer::TooLate => with_number("TooLate", reply.ticket()),
    }
}

/// A packet, with its ballot if it has one; of a Prepare the id and the place of its slot stand in front of that.
fn sent(packet: &Packet) -> Answer {
    match packet {
        Packet::Prepare { slot, ballot, .. } => {
            let place = u64::from(slot.place);
            ("Started", [slot.id.number(), place, ballot.number(), 0])
        }
        Packet::Promise { .. } => ("Promised", [0; 4]),
        Packet::Refused { promised, .. } => with_number("Refused", promised.number()),
        Packet::Voted { vote, .. } => with_number("Voted", vote.ballot.number()),
        Packet::Ask { .. } => ("Asked", [0; 4]),
        Packet::Tell { told: None, .. } => ("ToldNothing", [0; 4]),
        Packet::Tell {
            told: Some(vote),
            ..
        } => with_number("Told", vote.ballot.number()),
        Packet::Propose { .. } => OTHER,
    }
}

/// The number of the fault, and of the reason for which an attempt is not granted. Nothing was given out, since the step was not
/// prepared, or not committed.
pub(crate) fn failed(word: &'static str, fault: StepFault) -> Answer {
    match fault {
        StepFault::Broken => with_number(word, 1),
        StepFault::Grant(refusal) => (word, [2, u64::from(refusal.number()), 0, 0]),
        StepFault::NotGranted => with_number(word, 3),
        StepFault::Device => with_number(word, 4),
        StepFault::StrangeLife => with_number(word, 5),
        StepFault::Memory => with_number(word, 6),
    }
}

/// What outputs tell, whatever packets are sent besides: `Waits`, with the ticket of a request that came; `Granted`, with the place of the
/// attempt and its number; `Turned`, with the command_status with which a request that came is refused; a reply, with a receipt besides or
/// not; `Reported`, with the id of the message whose receipt is due, and its state; or nothing.
pub fn told_in(outputs: &Outputs) -> Answer {
    if let Some(ticket) = outputs.ticket {
        return with_number("Waits", ticket);
    }
    if let Some(chain) = &outputs.granted {
        let place = u64::from(chain.place());
        return ("Granted", [place, u64::from(chain.attempts()), 0, 0]);
    }
    if let Some(status) = outputs.refused {
        return with_number("Turned", u64::from(status.code()));
    }
    match (outputs.replies.as_slice(), outputs.receipts.as_slice()) {
        ([], []) => NOTHING,
        ([reply], _) => replied(reply),
        ([], [chain]) => with_state("Reported", chain.id().number(), chain),
        _ => OTHER,
    }
}

fn tells_nothing(outputs: &Outputs) -> bool {
    outputs.granted.is_none()
        && outputs.refused.is_none()
        && outputs.replies.is_empty()
        && outputs.receipts.is_empty()
}

/// What outputs say: `Waits`, which may send packets besides; else what they tell, or a packet.
pub fn answer_in(outputs: &Outputs) -> Answer {
    if outputs.ticket.is_some() {
        return told_in(outputs);
    }
    match outputs.packets.as_slice() {
        [] => told_in(outputs),
        [packet] if tells_nothing(outputs) => sent(packet),
        _ => OTHER,
    }
}

/// What the copy of outputs says.
pub fn copied(outputs: &Outputs) -> Answer {
    match outputs.copy() {
        Ok(copy) => answer_in(&copy),
        Err(_) => UNREAD,
    }
}

/// The answer that a row says, if it says one.
pub fn answer_said(said: &str) -> Option<(&str, [u64; 4])> {
    let (word, rest) = said.split_once(' ').unwrap_or((said, ""));
    Some((word, numbers(rest)?))
}
