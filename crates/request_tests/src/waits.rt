//! What happens to a queue in which one request waits, in a cluster of three nodes.

use crate::same::assert_same;
use crate::values::{Known, after, chain, first, id, message, node, said, taken, tell, vote_for};
use std::alloc::Global;
use std::process::Abort;
use waiting_requests::{Held, Queue, Reply};

// What happens, and what is to come of it. Seconds are those after the start of 2000.
#[derive(Clone, Copy)]
pub enum Wait {
    // A node tells of a vote for this chain.
    Told(u8, Known),
    // How many questions the first node asks for it.
    Asks(usize),
    // Whether it is a submit_sm that starts the round of its chain after so many seconds.
    Starts(u32, bool),
    // Whether the message is to be deleted once this chain is known, and after so many seconds.
    CancelsThen(Known, bool),
    Cancels(u32, bool),
    // The place of the vote that is shown where this one was told.
    Shown(Known, Option<u8>),
    // What it is told once this chain is known, or after so many seconds, and how many wait then.
    Concluded(Known, &'static str, usize),
    Expired(u32, &'static str, usize),
    // The request of a ticket is taken away, and how many wait then.
    Removed(u64, usize),
}

// That it comes of each of these, one after the other, in a queue in which this request waits alone.
pub fn assert_waits(rt: &impl Abort, alloc: Global, shows: &str, held: Held, waits: &[Wait]) {
    let mut queue = alone(rt, alloc, held);
    for (number, wait) in waits.iter().enumerate() {
        let comes = comes(rt, alloc, &mut queue, *wait);
        assert_same(rt, &(shows, number, comes), &(shows, number, true));
    }
}

// A queue in which this request waits alone.
pub fn alone(rt: &impl Abort, alloc: Global, held: Held) -> Queue {
    let held = Box::new(alloc, held).expect(rt, "memory");
    let mut queue = Queue::make(alloc).expect(rt, "memory");
    queue.push(held);
    queue
}

// Whether it comes of this.
fn comes(rt: &impl Abort, alloc: Global, queue: &mut Queue, wait: Wait) -> bool {
    match wait {
        Wait::Told(from, known) => {
            tell_at(rt, alloc, queue, 1, (from, known));
            true
        }
        Wait::Asks(count) => questions(rt, queue) == count,
        Wait::Starts(seconds, wanted) => starts(rt, alloc, queue, seconds) == wanted,
        Wait::CancelsThen(known, cancels) => cancels_then(rt, alloc, queue, known) == cancels,
        Wait::Cancels(seconds, cancels) => cancels_it(rt, alloc, queue, seconds) == cancels,
        Wait::Shown(known, place) => shown(rt, alloc, queue, known) == place,
        Wait::Concluded(known, word, left) => conclude(rt, alloc, queue, known) == (word, left),
        Wait::Expired(seconds, word, left) => expire(rt, queue, seconds) == (word, left),
        Wait::Removed(ticket, left) => {
            queue.remove(ticket);
            queue.len() == left
        }
    }
}

// A node tells the request of this ticket of a vote for a chain.
pub fn tell_at(
    rt: &impl Abort,
    alloc: Global,
    queue: &mut Queue,
    ticket: u64,
    (from, known): (u8, Known),
) {
    let held = queue.at(ticket).expect(rt, "a request");
    let copy = held.copy().expect(rt, "memory");
    let mut told = Box::new(alloc, copy).expect(rt, "memory");
    tell(rt, alloc, &mut told, from, known);
    queue.replace(told);
}

fn questions(rt: &impl Abort, queue: &Queue) -> usize {
    let questions = queue.questions(after(rt, 29), node(rt, 1), first(rt), 3);
    let questions = questions.expect(rt, "memory");
    let count = questions.len();
    drop(questions);
    count
}

// The chain that starts is the one that was taken.
fn starts(rt: &impl Abort, alloc: Global, queue: &Queue, seconds: u32) -> bool {
    let Some(chain) = queue.taken(after(rt, seconds), id(rt)) else {
        return false;
    };
    let taken = taken(rt, alloc);
    let is_taken = chain.is(&taken);
    drop(taken);
    assert_same(rt, &is_taken, &true);
    true
}

fn cancels_then(rt: &impl Abort, alloc: Global, queue: &Queue, known: Known) -> bool {
    let known = chain(rt, alloc, known).expect(rt, "a chain");
    let cancels = queue.cancels_then(3, &known);
    drop(known);
    cancels
}

fn cancels_it(rt: &impl Abort, alloc: Global, queue: &Queue, seconds: u32) -> bool {
    let message = message(rt, alloc);
    let cancels = queue.cancels(after(rt, seconds), id(rt), &message);
    drop(message);
    cancels
}

fn shown(rt: &impl Abort, alloc: Global, queue: &Queue, known: Known) -> Option<u8> {
    let told = vote_for(rt, alloc, known);
    let place = match queue.shown(after(rt, 29), id(rt), told.as_ref()) {
        Some(vote) => Some(vote.chain.place()),
        None => None,
    };
    drop(told);
    place
}

// The replies once this chain is known, and those requests are taken away.
pub fn replies_at(rt: &impl Abort, alloc: Global, queue: &mut Queue, known: Known) -> Vec<Reply> {
    let known = chain(rt, alloc, known).expect(rt, "a chain");
    let replies = queue.replies(3, &known);
    queue.settle(3, &known);
    drop(known);
    replies.expect(rt, "memory")
}

fn conclude(
    rt: &impl Abort,
    alloc: Global,
    queue: &mut Queue,
    known: Known,
) -> (&'static str, usize) {
    let replies = replies_at(rt, alloc, queue, known);
    (only(rt, replies), queue.len())
}

fn expire(rt: &impl Abort, queue: &mut Queue, seconds: u32) -> (&'static str, usize) {
    let clock = after(rt, seconds);
    let replies = queue.late(clock).expect(rt, "memory");
    queue.expire(clock);
    (only(rt, replies), queue.len())
}

// What the only reply says, which is to ticket 1 and about the message.
fn only(rt: &impl Abort, replies: Vec<Reply>) -> &'static str {
    let word = match replies.as_slice() {
        [] => "waits",
        [reply] if reply.ticket() == 1 && reply.id() == id(rt) => said(Some(reply.answer())).0,
        _ => panic!(rt; "one reply to ticket 1"),
    };
    drop(replies);
    word
}
