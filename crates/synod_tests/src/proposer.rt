//! The proposer.

use crate::same::assert_same;
use crate::values::{ballot, node, other, taken, vote};
use fate_chain::{Author, Chain};
use mc_types::{Incarnation, Slot};
use std::alloc::Global;
use std::process::Abort;
use synod_acceptor::{Packet, Report};
use synod_proposer::{Proposer, ProposerFault};

fn proposer(rt: &impl Abort, number: u8, nodes: u8) -> Proposer {
    let me = Author {
        node: node(rt, number),
        incarnation: Incarnation::make(1).expect(rt, "an incarnation"),
    };
    Proposer::make(me, nodes)
}

// The round of a Prepare; 0 of any other packet.
fn round_of(packet: &Packet) -> u32 {
    match packet {
        Packet::Prepare { ballot, .. } => ballot.round(),
        _ => 0,
    }
}

// The round of the Prepare with which a round for this chain starts; 0 if none does.
fn started(proposer: &mut Proposer, chain: Chain, own: u32) -> u32 {
    match proposer.start(chain, own) {
        Ok(packet) => {
            let round = round_of(&packet);
            drop(packet);
            round
        }
        Err(ProposerFault::Rounds) => 0,
    }
}

// What a node reports with its promise.
#[derive(Clone, Copy)]
enum Reported {
    Nothing,
    Held,
}

fn report(rt: &impl Abort, alloc: Global, reported: Reported) -> Report {
    let vote = vote(rt, alloc, 262161);
    match reported {
        Reported::Nothing => {
            let slot = vote.slot();
            drop(vote);
            Report::Nothing(slot)
        }
        Reported::Held => Report::Held(vote),
    }
}

// Whether what a promise of this node makes, at the ballot 262162, is a Propose, and that is for the first chain.
fn proposes(
    rt: &impl Abort,
    alloc: Global,
    proposer: &mut Proposer,
    from: u8,
    reported: Reported,
) -> Option<bool> {
    let report = report(rt, alloc, reported);
    let sent = proposer.on_promise(node(rt, from), ballot(rt, 262162), &report);
    drop(report);
    let sent = sent.expect(rt, "memory");
    let first = taken(rt, alloc);
    let proposes = is_for(&sent, &first);
    drop(first);
    drop(sent);
    proposes
}

// Whether a packet is a Propose, and that is for this chain.
fn is_for(sent: &Option<Packet>, chain: &Chain) -> Option<bool> {
    match sent {
        Some(Packet::Propose { vote, .. }) => Some(vote.chain.is(chain)),
        _ => None,
    }
}

// That each of these promises makes what it is to make, one after the other.
fn assert_proposes(
    rt: &impl Abort,
    alloc: Global,
    proposer: &mut Proposer,
    rows: &[(u8, Reported, Option<bool>)],
) {
    for (number, (from, reported, wanted)) in rows.iter().enumerate() {
        let proposed = proposes(rt, alloc, proposer, *from, *reported);
        assert_same(rt, &(number, proposed), &(number, *wanted));
    }
}

const PROMISES: &[(u8, Reported, Option<bool>)] = &[
    (1, Reported::Nothing, None),
    (2, Reported::Nothing, None),
    (2, Reported::Nothing, None),
    (3, Reported::Held, Some(true)),
    (4, Reported::Nothing, None),
];

#[test]
fn the_highest_report_is_proposed_once(rt: HostRuntime) {
    let alloc = rt.alloc();
    let mut proposer = proposer(&rt, 2, 4);
    let round = started(&mut proposer, other(&rt, alloc), 0);
    assert_proposes(&rt, alloc, &mut proposer, PROMISES);
    drop(proposer);
    assert_same(&rt, &round, &1);
}

// Whether a round in this slot goes on after a refusal of a Prepare at one ballot, for which another was promised.
fn goes_on(rt: &impl Abort, proposer: &mut Proposer, slot: Slot, at: u64, promised: u64) -> bool {
    proposer.on_refused(slot, ballot(rt, at), ballot(rt, promised));
    proposer.running() == Some(slot)
}

// Whether a copy runs once its round was dropped.
fn runs_once_dropped(rt: &impl Abort, proposer: &Proposer) -> bool {
    let mut copy = proposer.copy().expect(rt, "memory");
    copy.drop_round();
    let runs = copy.running().is_some();
    drop(copy);
    runs
}

// The slot of the first chain.
fn slot(rt: &impl Abort, alloc: Global) -> Slot {
    let vote = vote(rt, alloc, 262161);
    let slot = vote.slot();
    drop(vote);
    slot
}

#[test]
fn a_greater_promise_ends_the_round(rt: HostRuntime) {
    let alloc = rt.alloc();
    let slot = slot(&rt, alloc);
    let mut proposer = proposer(&rt, 1, 3);
    let first = started(&mut proposer, taken(&rt, alloc), 0);
    let after_another = goes_on(&rt, &mut proposer, slot, 262163, 524306);
    let after_its_own = goes_on(&rt, &mut proposer, slot, 262161, 1310738);
    let next = started(&mut proposer, taken(&rt, alloc), 0);
    let dropped = runs_once_dropped(&rt, &proposer);
    drop(proposer);
    let rounds = (first, after_another, after_its_own, next);
    assert_same(&rt, &rounds, &(1, true, false, 6));
    assert!(rt; !dropped);
}

#[test]
fn rounds_end_at_the_greatest_number(rt: HostRuntime) {
    let mut proposer = proposer(&rt, 1, 1);
    let round = started(&mut proposer, taken(&rt, rt.alloc()), 4294967295);
    let runs = proposer.running();
    drop(proposer);
    assert_same(&rt, &(round, runs), &(0, None));
}
