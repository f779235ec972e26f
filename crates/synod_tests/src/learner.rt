//! The learner.

use crate::same::assert_same;
use crate::values::{ballot, node, other, taken, vote};
use fate_chain::Chain;
use std::alloc::Global;
use std::process::Abort;
use synod_acceptor::Vote;
use synod_learner::Learner;

// Whether the known chain grows by this vote of a node. The vote is let go.
fn grows_by(rt: &impl Abort, learner: &mut Learner, from: u8, vote: Vote) -> bool {
    let grows = learner.on_vote(node(rt, from), &vote);
    drop(vote);
    grows.expect(rt, "memory")
}

// That the known chain grows or not by each of these votes for the first chain: the node, the number of the ballot, and whether it grows.
fn assert_grows(rt: &impl Abort, alloc: Global, learner: &mut Learner, rows: &[(u8, u64, bool)]) {
    for (number, (from, ballot, grows)) in rows.iter().enumerate() {
        let grown = grows_by(rt, learner, *from, vote(rt, alloc, *ballot));
        assert_same(rt, &(number, grown), &(number, *grows));
    }
}

// Whether this chain is known of its message; none if nothing is.
fn is_known(learner: &Learner, chain: &Chain) -> Option<bool> {
    Some(learner.known(chain.id())?.is(chain))
}

const EARLY: &[(u8, u64, bool)] = &[(1, 262161, false), (2, 262162, false)];

const LAST: &[(u8, u64, bool)] = &[(3, 262162, true)];

#[test]
fn votes_at_two_ballots_are_not_added_up(rt: HostRuntime) {
    let alloc = rt.alloc();
    let chain = taken(&rt, alloc);
    let mut learner = Learner::make(alloc, 3);
    assert_grows(&rt, alloc, &mut learner, EARLY);
    let before = is_known(&learner, &chain);
    assert_grows(&rt, alloc, &mut learner, LAST);
    let after = is_known(&learner, &chain);
    drop(learner);
    drop(chain);
    assert_same(&rt, &(before, after), &(None, Some(true)));
}

// Whether a vote of a node is counted anew. The vote is let go.
fn counts_anew(rt: &impl Abort, learner: &mut Learner, from: u8, vote: Vote) -> bool {
    let recount = learner.recount(node(rt, from), &vote);
    drop(vote);
    match recount {
        Some(recount) => {
            learner.count_anew(recount);
            true
        }
        None => false,
    }
}

#[test]
fn a_vote_that_makes_nothing_known_is_counted_anew(rt: HostRuntime) {
    let alloc = rt.alloc();
    let mut learner = Learner::make(alloc, 5);
    let first = counts_anew(&rt, &mut learner, 1, vote(&rt, alloc, 262161));
    let begun = grows_by(&rt, &mut learner, 1, vote(&rt, alloc, 262161));
    let second = counts_anew(&rt, &mut learner, 2, vote(&rt, alloc, 262161));
    let third = counts_anew(&rt, &mut learner, 3, vote(&rt, alloc, 262161));
    let grown = grows_by(&rt, &mut learner, 3, vote(&rt, alloc, 262161));
    let fourth = counts_anew(&rt, &mut learner, 4, vote(&rt, alloc, 262161));
    drop(learner);
    assert_same(
        &rt,
        &((first, begun, second), (third, grown, fourth)),
        &((false, false, true), (false, true, true)),
    );
}

const OF_FOUR: &[(u8, u64, bool)] = &[
    (1, 262161, false),
    (2, 262161, false),
    (2, 262161, false),
    (4, 262161, true),
];

#[test]
fn three_of_four_votes_are_a_majority(rt: HostRuntime) {
    let alloc = rt.alloc();
    let mut learner = Learner::make(alloc, 4);
    assert_grows(&rt, alloc, &mut learner, OF_FOUR);
    drop(learner);
}

// A vote for the second chain.
fn other_vote(rt: &impl Abort, alloc: Global) -> Vote {
    Vote {
        ballot: ballot(rt, 262162),
        chain: other(rt, alloc),
    }
}

// Whether a copy of the learner knows this chain of its message.
fn known_to_a_copy(rt: &impl Abort, learner: &Learner, chain: &Chain) -> Option<bool> {
    let copy = learner.copy().expect(rt, "memory");
    let known = is_known(&copy, chain);
    drop(copy);
    known
}

#[test]
fn the_first_of_equally_long_chains_stays(rt: HostRuntime) {
    let alloc = rt.alloc();
    let chain = taken(&rt, alloc);
    let mut learner = Learner::make(alloc, 1);
    let first = grows_by(&rt, &mut learner, 1, vote(&rt, alloc, 262161));
    let second = grows_by(&rt, &mut learner, 1, other_vote(&rt, alloc));
    let known = known_to_a_copy(&rt, &learner, &chain);
    drop(learner);
    drop(chain);
    assert_same(&rt, &(first, second, known), &(true, false, Some(true)));
}
