//! Answers and replies that are the same.

use crate::same::assert_same;
use crate::values::{Known, asking, chain, id, tell};
use fate_chain::Chain;
use std::alloc::Global;
use std::process::Abort;
use waiting_requests::{Answer, Reply};

// What an answer is, and the chain that it shows, if it does.
#[derive(Clone, Copy)]
enum Says {
    Accepted,
    NotOwner,
    Unknown,
    TooLate,
    Shown(Known),
    Removed(Known),
    Kept(Known),
    NotMatched(Known),
}

// No two of them are the same answer.
const ANSWERS: &[Says] = &[
    Says::Accepted,
    Says::NotOwner,
    Says::Unknown,
    Says::TooLate,
    Says::Shown(Known::Taken),
    Says::Shown(Known::Tried),
    Says::Removed(Known::Deleted),
    Says::Kept(Known::Taken),
    Says::Kept(Known::Tried),
    Says::NotMatched(Known::Taken),
];

fn one(rt: &impl Abort, alloc: Global, known: Known) -> Chain {
    chain(rt, alloc, known).expect(rt, "a chain")
}

fn answer(rt: &impl Abort, alloc: Global, says: Says) -> Answer {
    match says {
        Says::Accepted => Answer::Accepted,
        Says::NotOwner => Answer::NotOwner,
        Says::Unknown => Answer::Unknown,
        Says::TooLate => Answer::TooLate,
        Says::Shown(known) => Answer::Shown(one(rt, alloc, known)),
        Says::Removed(known) => Answer::Removed(one(rt, alloc, known)),
        Says::Kept(known) => Answer::Kept(one(rt, alloc, known)),
        Says::NotMatched(known) => Answer::NotMatched(one(rt, alloc, known)),
    }
}

// That the answer of this number is itself, and none of the others.
fn assert_itself_alone(rt: &impl Abort, alloc: Global, number: usize, answer: &Answer) {
    for (place, says) in ANSWERS.iter().enumerate() {
        let other = self::answer(rt, alloc, *says);
        let is = answer.is(&other);
        drop(other);
        assert_same(rt, &(number, place, is), &(number, place, number == place));
    }
}

#[test]
fn each_answer_is_itself_alone(rt: HostRuntime) {
    for (number, says) in ANSWERS.iter().enumerate() {
        let answer = answer(&rt, rt.alloc(), *says);
        assert_itself_alone(&rt, rt.alloc(), number, &answer);
    }
}

// That there is no such message: a node told the query_sm of a ticket so, of one.
fn unknown(rt: &impl Abort, alloc: Global, ticket: u64) -> Reply {
    let mut held = asking(rt, alloc, ticket, b"sme1");
    tell(rt, alloc, &mut held, 1, Known::Nothing);
    let reply = held.reply_now(1, None).expect(rt, "memory");
    drop(held);
    reply.expect(rt, "a reply")
}

#[test]
fn a_reply_is_of_one_ticket_and_one_answer(rt: HostRuntime) {
    let alloc = rt.alloc();
    let reply = unknown(&rt, alloc, 1);
    let is = [
        reply.is(&unknown(&rt, alloc, 1)),
        reply.is(&unknown(&rt, alloc, 2)),
        reply.is(&Reply::too_late(1, id(&rt))),
    ];
    drop(reply);
    assert_same(&rt, &is, &[true, false, false]);
}

#[test]
fn a_reply_that_is_too_late_is_of_its_ticket(rt: HostRuntime) {
    let reply = Reply::too_late(7, id(&rt));
    let told = (
        reply.ticket(),
        reply.id() == id(&rt),
        reply.answer().is(&Answer::TooLate),
    );
    drop(reply);
    assert_same(&rt, &told, &(7, true, true));
}
