//! Messages that wait for their next attempt.

use crate::values::{account, after, decided, id, node, taken};
use fate_chain::{ErrorCode, Kind};
use node_parts::MessageIds;
use pdu_codec::SystemId;
use std::alloc::Global;
use std::process::Abort;
use std::test::Fail;
use waiting_messages::{Backlog, Naming, Spread};

#[test]
fn a_message_is_due_from_its_schedule_on_and_a_minute_after_a_failure(
    rt: HostRuntime,
) -> Result<(), Fail> {
    let alloc = rt.alloc();
    let target = account(&rt, alloc, b"sme1");
    let other = account(&rt, alloc, b"sme2");
    let mut backlog = Backlog::none(alloc);
    let mut chain = taken(&rt, alloc, 1, 100);
    // What is decided at which second, and from which second on the message is due, if it is.
    let rows = [(0, Some(100)), (150, None), (200, Some(260))];
    for (place, (second, due)) in rows.iter().enumerate() {
        if place == 1 {
            chain = decided(&rt, chain, *second, Kind::Attempt(1));
        }
        if place == 2 {
            let error = ErrorCode::make(8).expect(&rt, "an error");
            chain = decided(&rt, chain, *second, Kind::Failed(error));
        }
        backlog.note(&chain);
        for now in [99, 100, 259, 260, 4000] {
            let is_due = due.is_some_and(|due| due <= now);
            assert!(rt; backlog.is_due(&target, after(&rt, now)) == is_due);
            assert!(rt; !backlog.is_due(&other, after(&rt, now)));
        }
    }
    assert!(rt; backlog.was_whole() && backlog.was_whole());
    drop(chain);
    drop(target);
    drop(other);
    Ok(())
}

// Of two nodes sme1 is up at both.
fn spread(rt: &impl Abort, alloc: Global) -> Spread {
    let mut up = Vec::new(alloc);
    for _ in 0..2 {
        let mut accounts = Vec::new(alloc);
        accounts
            .push(account(rt, alloc, b"sme1"))
            .expect(rt, "memory");
        up.push(accounts).expect(rt, "memory");
    }
    Spread::of(up)
}

// The messages that are named, two at most.
fn named(
    rt: &impl Abort,
    alloc: Global,
    backlog: &mut Backlog,
    naming: &Naming<'_>,
    target: &SystemId,
) -> MessageIds {
    let mut named = MessageIds::none(alloc);
    backlog
        .name(naming, target, 2, &mut named)
        .expect(rt, "memory");
    named
}

#[test]
fn the_earliest_are_named_and_are_put_off_after_ten_times_in_vain(
    rt: HostRuntime,
) -> Result<(), Fail> {
    let alloc = rt.alloc();
    let target = account(&rt, alloc, b"sme1");
    let spread = spread(&rt, alloc);
    let mut backlog = Backlog::none(alloc);
    for (serial, schedule) in [(1, 40), (2, 20), (3, 30), (4, 90)] {
        let chain = taken(&rt, alloc, serial, schedule);
        backlog.note(&chain);
        drop(chain);
    }
    // At which node, at which second and how often messages are named, how many each time, and whether the first is one of them.
    let rows = [
        (1, 19, 1, 0, false),
        (2, 50, 1, 0, false),
        (1, 50, 10, 2, false),
        (1, 50, 1, 1, true),
        (1, 59, 1, 1, true),
        (1, 60, 1, 2, true),
    ];
    for (number, second, times, count, is_first) in rows {
        let naming = Naming {
            node: node(&rt, number),
            now: after(&rt, second),
            spread: &spread,
        };
        for _ in 0..times {
            let named = named(&rt, alloc, &mut backlog, &naming, &target);
            assert!(rt; named.rest(0).len() == count);
            assert!(rt; named.has(id(&rt, 1)) == is_first);
            drop(named);
        }
    }
    drop(backlog);
    drop(spread);
    drop(target);
    Ok(())
}
