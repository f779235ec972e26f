//! Frames that wait.

use crate::same::assert_same;
use connection_parts::{FrameQueue, MANY_FRAMES, MOST_FRAMES};
use std::alloc::Global;
use std::process::Abort;

fn queue(rt: &impl Abort, alloc: Global) -> FrameQueue<Vec<u8>> {
    FrameQueue::make(alloc).expect(rt, "a queue")
}

/// Puts a frame that is this octet alone.
fn put(rt: &impl Abort, alloc: Global, queue: &mut FrameQueue<Vec<u8>>, octet: u8) -> bool {
    queue.put([octet].to_vec(alloc).expect(rt, "a frame"))
}

/// The octet of the oldest frame.
fn taken(queue: &mut FrameQueue<Vec<u8>>) -> Option<u8> {
    queue.take()?.first().copied()
}

/// How many of so many frames are put.
fn put_many(
    rt: &impl Abort,
    alloc: Global,
    queue: &mut FrameQueue<Vec<u8>>,
    count: usize,
) -> usize {
    let mut all = 0usize;
    for _ in 0..count {
        if put(rt, alloc, queue, 0) {
            all = all.saturating_add(1);
        }
    }
    all
}

#[test]
fn frames_are_taken_in_the_order_in_which_they_were_put(rt: HostRuntime) {
    let mut queue = queue(&rt, rt.alloc());
    let put = [
        put(&rt, rt.alloc(), &mut queue, 1),
        put(&rt, rt.alloc(), &mut queue, 2),
    ];
    let taken = [taken(&mut queue), taken(&mut queue), taken(&mut queue)];
    drop(queue);
    assert_same(&rt, &put, &[true, true]);
    assert_same(&rt, &taken, &[Some(1), Some(2), None]);
}

#[test]
fn who_writes_waits_only_for_a_frame(rt: HostRuntime) {
    let mut queue = queue(&rt, rt.alloc());
    let empty = queue.is_idle();
    put(&rt, rt.alloc(), &mut queue, 1);
    let waiting = queue.is_idle();
    queue.cut();
    let shut = queue.is_idle();
    drop(queue);
    assert_same(&rt, &[empty, waiting, shut], &[true, false, false]);
}

#[test]
fn no_frame_is_read_while_many_wait(rt: HostRuntime) {
    let mut queue = queue(&rt, rt.alloc());
    let few = (put_many(&rt, rt.alloc(), &mut queue, 31), queue.has_room());
    let many = (put_many(&rt, rt.alloc(), &mut queue, 1), queue.has_room());
    queue.shut();
    let shut = queue.has_room();
    drop(queue);
    assert_same(&rt, &(few, many, shut), &((31, true), (1, false), true));
    assert_same(&rt, &MANY_FRAMES, &32);
}

#[test]
fn frame_65_is_dropped(rt: HostRuntime) {
    let mut queue = queue(&rt, rt.alloc());
    let put = put_many(&rt, rt.alloc(), &mut queue, 65);
    drop(queue);
    assert_same(&rt, &(put, MOST_FRAMES), &(64, 64));
}

#[test]
fn what_waits_in_a_shut_outbox_is_taken(rt: HostRuntime) {
    let mut queue = queue(&rt, rt.alloc());
    let open = queue.is_shut();
    put(&rt, rt.alloc(), &mut queue, 1);
    queue.shut();
    let late = put(&rt, rt.alloc(), &mut queue, 2);
    let taken = [taken(&mut queue), taken(&mut queue)];
    let shut = queue.is_shut();
    drop(queue);
    assert_same(&rt, &[open, late, shut], &[false, false, true]);
    assert_same(&rt, &taken, &[Some(1), None]);
}

#[test]
fn what_waits_in_a_cut_outbox_is_dropped(rt: HostRuntime) {
    let mut queue = queue(&rt, rt.alloc());
    put(&rt, rt.alloc(), &mut queue, 1);
    queue.cut();
    let taken = taken(&mut queue);
    let shut = queue.is_shut();
    drop(queue);
    assert_same(&rt, &(taken, shut), &(None, true));
}
