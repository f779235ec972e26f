//! What came of an event, in words.

use crate::values::text;
use sessions::{Abandoned, OpenRequest, Outgoing, Pushed, Reaction};
use std::alloc::Global;
use std::process::Abort;

/// The octets of the PDU that is sent, as digits. The centre's system_id is CENTRE.
fn digits(rt: &impl Abort, alloc: Global, outgoing: Outgoing) -> String {
    let system_id = text(rt, alloc, b"CENTRE");
    let octets = outgoing.octets(alloc, &system_id).expect(rt, "memory");
    drop(system_id);
    hex::encode(alloc, octets).expect(rt, "memory")
}

/// `gives up`, and the sequence_numbers of these.
fn put_sequences(rt: &impl Abort, word: &mut String, pushed: &[Pushed]) {
    word.push_str("gives up").expect(rt, "memory");
    for request in pushed {
        write!(word, " {}", request.sequence).expect(rt, "memory");
    }
}

/// `gives up`, and the sequence_numbers.
pub fn word_of_abandoned(rt: &impl Abort, alloc: Global, abandoned: Abandoned) -> String {
    let mut word = String::new(alloc);
    put_sequences(rt, &mut word, abandoned.as_slice());
    drop(abandoned);
    word
}

/// The digits of what is sent, and what is given up.
fn word_of_leaving(
    rt: &impl Abort,
    alloc: Global,
    outgoing: Outgoing,
    abandoned: Abandoned,
) -> String {
    let mut word = digits(rt, alloc, outgoing);
    word.push_str(" and ").expect(rt, "memory");
    put_sequences(rt, &mut word, abandoned.as_slice());
    drop(abandoned);
    word
}

/// `-` if a PDU is dropped, `ask` if the request is the node's, the sequence_number if a pushed request is answered, else the digits of what is sent.
pub fn word_of(rt: &impl Abort, alloc: Global, reaction: Reaction) -> String {
    match reaction {
        Reaction::Nothing => String::from_str(alloc, "-").expect(rt, "memory"),
        Reaction::Respond(outgoing) => digits(rt, alloc, outgoing),
        Reaction::Leave(outgoing, abandoned) => word_of_leaving(rt, alloc, outgoing, abandoned),
        Reaction::Ask(requested) => format!(in alloc; "ask {requested:?}").expect(rt, "memory"),
        Reaction::Answered(pushed) => {
            format!(in alloc; "answers {}", pushed.sequence).expect(rt, "memory")
        }
    }
}

/// The command and sequence_number of a request, or `-`.
pub fn word_of_request(rt: &impl Abort, alloc: Global, request: Option<OpenRequest>) -> String {
    let word = match request {
        Some(request) => format!(in alloc; "{:?} {}", request.requested, request.sequence),
        None => String::from_str(alloc, "-"),
    };
    word.expect(rt, "memory")
}
