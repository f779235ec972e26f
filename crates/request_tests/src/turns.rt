//! What happens to a request that waits, in a cluster of three nodes.

use crate::same::assert_same;
use crate::values::{Known, chain, id, message, said, tell, vote_for};
use std::alloc::Global;
use std::process::Abort;
use waiting_requests::Held;

// What happens, and what is to come of it.
#[derive(Clone, Copy)]
pub enum Turn {
    // A node tells of a vote for this chain.
    Told(u8, Known),
    // Whether such a vote is one for its message.
    Fits(Known, bool),
    // The place of the chain that a majority told, if one did.
    Followed(Option<u8>),
    // Whether this chain settles it, which then does.
    Settled(Known, bool),
    // Whether it cancels the message.
    Cancels(bool),
    // What it is answered once this chain is known, and the place of the chain in the answer.
    Answered(Known, &'static str, u8),
}

// That it comes of each turn, one after the other. A failure tells what they show.
pub fn assert_turns(rt: &impl Abort, alloc: Global, shows: &str, mut held: Held, turns: &[Turn]) {
    for (number, turn) in turns.iter().enumerate() {
        let comes = comes(rt, alloc, &mut held, *turn);
        assert_same(rt, &(shows, number, comes), &(shows, number, true));
    }
}

// Whether it comes of a turn.
fn comes(rt: &impl Abort, alloc: Global, held: &mut Held, turn: Turn) -> bool {
    match turn {
        Turn::Told(from, known) => {
            tell(rt, alloc, held, from, known);
            true
        }
        Turn::Fits(known, fits) => is_told(rt, alloc, held, known) == fits,
        Turn::Followed(place) => followed(held) == place,
        Turn::Settled(known, settles) => settle(rt, alloc, held, known) == settles,
        Turn::Cancels(cancels) => cancels_it(rt, alloc, held) == cancels,
        Turn::Answered(known, word, place) => answer(rt, alloc, held, known) == (word, place),
    }
}

fn is_told(rt: &impl Abort, alloc: Global, held: &Held, known: Known) -> bool {
    let told = vote_for(rt, alloc, known);
    let is_told = held.is_told_by(told.as_ref());
    drop(told);
    is_told
}

fn followed(held: &Held) -> Option<u8> {
    match held.told_by_most(3) {
        Some(vote) => Some(vote.chain.place()),
        None => None,
    }
}

fn settle(rt: &impl Abort, alloc: Global, held: &mut Held, known: Known) -> bool {
    let chain = chain(rt, alloc, known);
    let settles = held.settles(3, chain.as_ref());
    held.settle(3, chain.as_ref());
    drop(chain);
    settles
}

fn cancels_it(rt: &impl Abort, alloc: Global, held: &Held) -> bool {
    let message = message(rt, alloc);
    let cancels = held.cancels(id(rt), &message);
    drop(message);
    cancels
}

fn answer(rt: &impl Abort, alloc: Global, held: &Held, known: Known) -> (&'static str, u8) {
    let chain = chain(rt, alloc, known);
    let answer = held.answer(3, chain.as_ref());
    drop(chain);
    let answer = answer.expect(rt, "memory");
    let said = said(answer.as_ref());
    drop(answer);
    said
}
