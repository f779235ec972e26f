//! What waits to be written.

use crate::pushes::{self, NUMBER};
use crate::same::assert_same;
use connection_parts::{Outbox, Withdrawal};
use std::alloc::Global;
use std::process::Abort;

fn outbox(rt: &impl Abort, alloc: Global) -> Outbox {
    Outbox::make(alloc, NUMBER).expect(rt, "an outbox")
}

/// Puts a frame that ends with this octet: the deliver_sm of the attempt with this sequence_number, if there is one.
fn put(
    rt: &impl Abort,
    alloc: Global,
    outbox: &mut Outbox,
    octet: u8,
    attempt: Option<u32>,
) -> bool {
    outbox.put(match attempt {
        Some(sequence) => pushes::attempt(rt, alloc, sequence, octet),
        None => pushes::linked(rt, alloc, NUMBER, octet),
    })
}

/// The last octet of the oldest frame.
fn taken(outbox: &mut Outbox) -> Option<u8> {
    outbox.take()?.octets().last().copied()
}

#[test]
fn a_deliver_sm_that_is_taken_back_never_goes_out(rt: HostRuntime) {
    let mut outbox = outbox(&rt, rt.alloc());
    let put = [
        put(&rt, rt.alloc(), &mut outbox, 1, None),
        put(&rt, rt.alloc(), &mut outbox, 2, Some(7)),
        put(&rt, rt.alloc(), &mut outbox, 3, Some(8)),
    ];
    let back = [outbox.take_back(7), outbox.take_back(7)];
    let taken = [taken(&mut outbox), taken(&mut outbox), taken(&mut outbox)];
    drop(outbox);
    assert_same(&rt, &put, &[true, true, true]);
    assert_same(&rt, &back, &[Withdrawal::Withdrawn, Withdrawal::Over]);
    assert_same(&rt, &taken, &[Some(1), Some(3), None]);
}

#[test]
fn a_deliver_sm_is_under_way_until_it_is_written(rt: HostRuntime) {
    let mut outbox = outbox(&rt, rt.alloc());
    put(&rt, rt.alloc(), &mut outbox, 1, Some(7));
    drop(outbox.take());
    let back = [outbox.take_back(7), outbox.take_back(8)];
    outbox.written();
    let late = outbox.take_back(7);
    drop(outbox);
    assert_same(&rt, &back, &[Withdrawal::UnderWay, Withdrawal::Over]);
    assert_same(&rt, &late, &Withdrawal::Over);
}

#[test]
fn an_outbox_is_shut_and_cut_as_a_queue(rt: HostRuntime) {
    let mut outbox = outbox(&rt, rt.alloc());
    let idle = (outbox.is_idle(), outbox.has_room(), outbox.is_shut());
    put(&rt, rt.alloc(), &mut outbox, 1, None);
    outbox.shut();
    let late = put(&rt, rt.alloc(), &mut outbox, 2, None);
    let shut = (outbox.is_idle(), outbox.is_shut(), taken(&mut outbox));
    outbox.cut();
    let cut = taken(&mut outbox);
    drop(outbox);
    assert_same(&rt, &idle, &(true, true, false));
    assert_same(
        &rt,
        &(late, shut, cut),
        &(false, (false, true, Some(1)), None),
    );
}

#[test]
fn a_frame_of_another_session_is_not_put(rt: HostRuntime) {
    let mut outbox = outbox(&rt, rt.alloc());
    let other = outbox.put(pushes::linked(&rt, rt.alloc(), NUMBER + 1, 1));
    let own = put(&rt, rt.alloc(), &mut outbox, 2, None);
    let taken = [taken(&mut outbox), taken(&mut outbox)];
    drop(outbox);
    assert_same(
        &rt,
        &([other, own], taken),
        &([false, true], [Some(2), None]),
    );
}
