//! The acceptor: promises, refusals and votes, in one slot.

use crate::same::assert_same;
use crate::values::{ballot, node, taken, vote};
use fate_chain::Chain;
use std::alloc::Global;
use std::process::Abort;
use synod_acceptor::{Acceptor, Packet, Report, Verdict};

// What was answered.
#[derive(Clone, Copy, Debug, PartialEq, Eq)]
enum Answer {
    Promised,
    Reported,
    Refused(u64),
    Voted,
    Other,
}

fn answer_in(packet: &Packet) -> Answer {
    match packet {
        Packet::Promise {
            report: Report::Nothing(_),
            ..
        } => Answer::Promised,
        Packet::Promise {
            report: Report::Held(_),
            ..
        } => Answer::Reported,
        Packet::Refused { promised, .. } => Answer::Refused(promised.number()),
        Packet::Voted { .. } => Answer::Voted,
        _ => Answer::Other,
    }
}

// The answer, and whether something changes, which is applied.
fn applied(rt: &impl Abort, acceptor: &mut Acceptor, verdict: Verdict) -> (Answer, bool) {
    let answer = answer_in(&verdict.answer);
    drop(verdict.answer);
    match verdict.change {
        None => (answer, false),
        Some(change) => {
            let room = acceptor.room(change.after.slot()).expect(rt, "memory");
            acceptor.apply_in(change, room);
            (answer, true)
        }
    }
}

// What is asked of the acceptor in the slot of the first chain, at the ballot of this number.
#[derive(Clone, Copy)]
enum Asked {
    Prepare(u64),
    Propose(u64),
}

fn answer_to(
    rt: &impl Abort,
    alloc: Global,
    acceptor: &mut Acceptor,
    asked: Asked,
) -> (Answer, bool) {
    let verdict = match asked {
        Asked::Prepare(number) => prepared(rt, alloc, acceptor, number),
        Asked::Propose(number) => proposed(rt, alloc, acceptor, number),
    };
    applied(rt, acceptor, verdict)
}

fn prepared(rt: &impl Abort, alloc: Global, acceptor: &Acceptor, number: u64) -> Verdict {
    let vote = vote(rt, alloc, number);
    let verdict = acceptor.judge_prepare(node(rt, 3), vote.slot(), ballot(rt, number));
    drop(vote);
    verdict.expect(rt, "memory")
}

fn proposed(rt: &impl Abort, alloc: Global, acceptor: &Acceptor, number: u64) -> Verdict {
    let vote = vote(rt, alloc, number);
    let verdict = acceptor.judge_propose(node(rt, 3), &vote);
    drop(vote);
    verdict.expect(rt, "memory")
}

// That the acceptor answers each of these so, one after the other, and whether something changes.
fn assert_answers(
    rt: &impl Abort,
    alloc: Global,
    acceptor: &mut Acceptor,
    rows: &[(Asked, Answer, bool)],
) {
    for (number, (asked, answer, changes)) in rows.iter().enumerate() {
        let given = answer_to(rt, alloc, acceptor, *asked);
        assert_same(rt, &(number, given), &(number, (*answer, *changes)));
    }
}

fn acceptor(rt: &impl Abort, alloc: Global) -> Acceptor {
    Acceptor::make(alloc, Vec::new(alloc)).expect(rt, "memory")
}

const IN_A_SLOT: &[(Asked, Answer, bool)] = &[
    (Asked::Prepare(262162), Answer::Promised, true),
    (Asked::Prepare(262162), Answer::Refused(262162), false),
    (Asked::Propose(262161), Answer::Refused(262162), false),
    (Asked::Propose(262162), Answer::Voted, true),
    (Asked::Propose(262162), Answer::Voted, false),
    (Asked::Prepare(262163), Answer::Reported, true),
];

#[test]
fn a_slot_is_promised_and_voted_in(rt: HostRuntime) {
    let alloc = rt.alloc();
    let mut acceptor = acceptor(&rt, alloc);
    assert_answers(&rt, alloc, &mut acceptor, IN_A_SLOT);
    drop(acceptor);
}

const VOTED: &[(Asked, Answer, bool)] = &[(Asked::Propose(262161), Answer::Voted, true)];

#[test]
fn the_vote_is_told(rt: HostRuntime) {
    let alloc = rt.alloc();
    let chain = taken(&rt, alloc);
    let mut acceptor = acceptor(&rt, alloc);
    assert!(rt; acceptor.tell(chain.id()).is_none());
    assert_answers(&rt, alloc, &mut acceptor, VOTED);
    let told = told_by_a_copy(&rt, &acceptor, &chain);
    drop(acceptor);
    drop(chain);
    assert_same(&rt, &told, &(262161, true, 262161));
}

// Of the vote that a copy tells on the message of the chain: its ballot, whether it is for the chain, and which ballot is promised in its slot.
fn told_by_a_copy(rt: &impl Abort, acceptor: &Acceptor, chain: &Chain) -> (u64, bool, u64) {
    let copy = acceptor.copy().expect(rt, "memory");
    let told = told(rt, &copy, chain);
    drop(copy);
    told
}

fn told(rt: &impl Abort, acceptor: &Acceptor, chain: &Chain) -> (u64, bool, u64) {
    let told = acceptor.tell(chain.id()).expect(rt, "a vote");
    let record = acceptor.record(told.slot()).expect(rt, "a record");
    (
        told.ballot.number(),
        told.chain.is(chain),
        record.promised().number(),
    )
}
