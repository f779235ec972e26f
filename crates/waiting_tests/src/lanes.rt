//! Messages that wait for a worker.

use crate::values::{account, id};
use std::test::Fail;
use waiting_messages::Lanes;

#[test]
fn messages_leave_in_the_order_in_which_they_came(rt: HostRuntime) -> Result<(), Fail> {
    let alloc = rt.alloc();
    let mut lanes = Lanes::none(alloc);
    assert!(rt; lanes.is_empty());
    // To which account each goes, and whether its text is long; the last waits already.
    let rows = [
        (1, &b"sme1"[..], false),
        (2, b"sme1", true),
        (3, b"sme2", true),
        (4, b"sme1", false),
        (2, b"sme2", false),
    ];
    for (serial, name, long) in rows {
        let target = account(&rt, alloc, name);
        lanes
            .put(target, long, id(&rt, serial))
            .expect(&rt, "memory");
    }
    let target = account(&rt, alloc, b"sme1");
    assert!(rt; lanes.len() == 2);
    assert!(rt; lanes.count(&target) == 3);
    assert!(rt; lanes.place_of(&target) == Some(0));
    assert!(rt; lanes.has(id(&rt, 4)) && !lanes.has(id(&rt, 5)));
    assert!(rt; lanes.holds(&target, true) && lanes.holds(&target, false));
    drop(target);
    for (serial, long) in [(1, false), (2, true), (4, false)] {
        assert!(rt; lanes.begins_long(0) == long);
        assert!(rt; lanes.first(0, long) == Some(id(&rt, serial)));
        lanes.take_off(0, long);
        assert!(rt; !lanes.has(id(&rt, serial)));
    }
    assert!(rt; lanes.first(0, false) == None);
    lanes.tidy();
    assert!(rt; lanes.len() == 1);
    assert!(rt; lanes.first(0, true) == Some(id(&rt, 3)));
    lanes.clear();
    assert!(rt; lanes.is_empty());
    assert!(rt; lanes.len() == 0);
    Ok(())
}
