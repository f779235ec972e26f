//! One thread puts hints, and another takes them.

use crate::same::assert_same;
use mc_types::{Incarnation, MsgId, NodeNo};
use std::alloc::Global;
use std::process::Abort;
use std::sync::Wait;
use std::thread;
use std::thread::Threads;
use worker_parts::Hints;

/// How many ids are put.
const ALL: u32 = 100;

/// The id of this serial, in the first incarnation of node 1.
fn id(rt: &impl Abort, serial: u32) -> MsgId {
    let node = NodeNo::make(1).expect(rt, "a node");
    let incarnation = Incarnation::make(1).expect(rt, "an incarnation");
    MsgId::make(node, incarnation, serial).expect(rt, "an id")
}

fn hints(rt: &impl Abort, alloc: Global, room: usize) -> Hints {
    Hints::make(alloc, room).expect(rt, "hints")
}

/// Puts an id again and again until it waits.
fn put_in_time<R: Wait>(rt: &R, hints: &Hints, id: MsgId) {
    for _ in rt.forever() {
        if hints.put(rt, id) {
            return;
        }
        thread::yield_now();
    }
}

/// Puts the ids of the serials from 1 to 100, and shuts.
fn put_all<R: Wait + Abort>(rt: &R, hints: &Hints) {
    for serial in 1..=ALL {
        put_in_time(rt, hints, id(rt, serial));
    }
    hints.shut(rt);
}

/// The numbers of what is taken, until there is nothing more.
fn take_all<R: Wait + Abort>(rt: &R, alloc: Global, hints: &Hints) -> Vec<u64> {
    let mut taken = Vec::new(alloc);
    for _ in rt.forever() {
        let Some(id) = hints.take(rt) else {
            break;
        };
        taken.push(id.number()).expect(rt, "memory");
    }
    taken
}

/// The numbers of the ids of the serials from 1 to 100.
fn numbers(rt: &impl Abort, alloc: Global) -> Vec<u64> {
    let mut numbers = Vec::new(alloc);
    for serial in 1..=ALL {
        let number = 1000100000 + u64::from(serial);
        numbers.push(number).expect(rt, "memory");
    }
    numbers
}

/// That another thread takes what this one puts, in this order, and ends.
fn assert_relayed<R: Threads + Wait + Abort + Sync>(rt: &R, alloc: Global, room: usize) {
    let hints = hints(rt, alloc, room);
    let (taken, _) = thread::join(rt, || take_all(rt, alloc, &hints), || put_all(rt, &hints));
    let wanted = numbers(rt, alloc);
    assert_same(rt, &taken, &wanted);
}

#[test]
fn ids_are_taken_in_the_order_in_which_they_were_put(rt: HostRuntime) {
    assert_relayed(&rt, rt.alloc(), 100);
}

#[test]
fn a_taker_makes_room(rt: HostRuntime) {
    assert_relayed(&rt, rt.alloc(), 2);
}

/// Two takers, of which each ends with what it took; how many ids they took together.
fn taken_by_two<R: Threads + Wait + Abort + Sync>(rt: &R, alloc: Global) -> usize {
    let hints = hints(rt, alloc, 100);
    let takers = || {
        thread::join(
            rt,
            || take_all(rt, alloc, &hints).len(),
            || take_all(rt, alloc, &hints).len(),
        )
    };
    let ((one, other), _) = thread::join(rt, takers, || put_all(rt, &hints));
    one.saturating_add(other)
}

#[test]
fn each_id_is_taken_once_and_both_takers_end(rt: HostRuntime) {
    let taken = taken_by_two(&rt, rt.alloc());
    assert_same(&rt, &taken, &100);
}

#[test]
fn an_id_that_waits_is_not_put_again(rt: HostRuntime) {
    let hints = hints(&rt, rt.alloc(), 2);
    let (first, second, third) = (id(&rt, 1), id(&rt, 2), id(&rt, 3));
    let put = [
        hints.put(&rt, first),
        hints.put(&rt, first),
        hints.put(&rt, second),
        hints.put(&rt, third),
    ];
    hints.shut(&rt);
    let late = hints.put(&rt, first);
    let taken = [hints.take(&rt), hints.take(&rt), hints.take(&rt)];
    drop(hints);
    assert_same(&rt, &put, &[true, true, true, false]);
    assert_same(&rt, &late, &false);
    assert_same(&rt, &taken, &[Some(first), Some(second), None]);
}
