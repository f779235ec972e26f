//! Ballots and sets of nodes.

use crate::same::assert_same;
use crate::values::{ballot, node};
use mc_types::{Ballot, Incarnation, NodeSet, TypeFault};
use std::process::Abort;

fn ballot_of(rt: &impl Abort, round: u32, incarnation: u16, number: u8) -> Ballot {
    let incarnation = Incarnation::make(incarnation).expect(rt, "an incarnation");
    Ballot::make(round, incarnation, node(rt, number)).expect(rt, "a ballot")
}

#[test]
fn a_ballot_has_its_number(rt: HostRuntime) {
    let made = ballot_of(&rt, 1, 1, 2);
    let parts = (
        made.number(),
        made.round(),
        made.incarnation().number(),
        made.node().number(),
    );
    assert_same(&rt, &parts, &(262162, 1, 1, 2));
    assert_same(&rt, &ballot(&rt, 262162), &made);
}

#[test]
fn a_number_of_node_ten_is_no_ballot(rt: HostRuntime) {
    assert_same(&rt, &Ballot::of_number(262170), &Err(TypeFault::OutOfRange));
    assert_same(&rt, &Ballot::of_number(0), &Err(TypeFault::OutOfRange));
}

#[test]
fn an_earlier_round_is_before(rt: HostRuntime) {
    let early = ballot_of(&rt, 1, 9999, 9);
    let late = ballot_of(&rt, 2, 1, 1);
    let before = (early.is_before(late), late.is_before(early));
    assert_same(&rt, &before, &(true, false));
}

#[test]
fn three_of_four_are_a_majority(rt: HostRuntime) {
    let (first, third, fourth) = (node(&rt, 1), node(&rt, 3), node(&rt, 4));
    let mut nodes = NodeSet::empty();
    nodes.add(first);
    nodes.add(fourth);
    let two = nodes.is_majority(4);
    nodes.add(third);
    let three = nodes.is_majority(4);
    assert_same(&rt, &(two, three), &(false, true));
    let has = (nodes.has(fourth), nodes.has(node(&rt, 2)));
    assert_same(&rt, &has, &(true, false));
}
