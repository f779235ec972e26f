//! Each public function once.

use crate::same::assert_same;
use mc_types::{Incarnation, Moment, MsgId, NodeNo, TypeFault};
use std::process::Abort;

/// The first id of the first incarnation of node 1.
fn first_id(rt: &impl Abort) -> MsgId {
    let node = NodeNo::make(1).expect(rt, "a node");
    let incarnation = Incarnation::make(1).expect(rt, "an incarnation");
    MsgId::make(node, incarnation, 1).expect(rt, "the first id")
}

#[test]
fn ids_are_read_and_written(rt: HostRuntime) {
    let id = first_id(&rt);
    let read = (MsgId::read(b"1000100001"), MsgId::of_number(1000100001));
    assert_same(&rt, &read, &(Ok(id), Ok(id)));
    let written = (id.text(), id.number());
    assert_same(&rt, &written, &(*b"1000100001", 1000100001));
    let parts = (id.node().number(), id.incarnation().number(), id.serial());
    assert_same(&rt, &parts, &(1, 1, 1));
    let refused = (MsgId::read(b"100010000"), MsgId::read(b"1000100000"));
    let faults = (Err(TypeFault::NotAnId), Err(TypeFault::OutOfRange));
    assert_same(&rt, &refused, &faults);
}

#[test]
fn moments_end_with_the_last(rt: HostRuntime) {
    let least = Moment::least();
    let later = (
        least.later(259200).seconds(),
        least.later(u32::MAX).seconds(),
    );
    assert_same(&rt, &later, &(946944000, 4102444799));
    assert_same(&rt, &Moment::make(946684800), &Ok(least));
}
