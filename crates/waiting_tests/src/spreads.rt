//! Which node begins the attempts of a message.

use crate::values::{account, node};
use std::alloc::Global;
use std::process::Abort;
use std::test::Fail;
use waiting_messages::Spread;

// Of four nodes sme1 is up at node 2 and node 4, sme2 at node 1, and sme3 at none.
fn spread(rt: &impl Abort, alloc: Global) -> Spread {
    let mut up = Vec::new(alloc);
    for names in [&b"sme2"[..], b"sme1", b"", b"sme1"] {
        let mut accounts = Vec::new(alloc);
        if !names.is_empty() {
            accounts
                .push(account(rt, alloc, names))
                .expect(rt, "memory");
        }
        up.push(accounts).expect(rt, "memory");
    }
    Spread::of(up)
}

#[test]
fn the_home_or_the_first_node_behind_it_begins(rt: HostRuntime) -> Result<(), Fail> {
    let alloc = rt.alloc();
    let spread = spread(&rt, alloc);
    let rows = [
        (1, &b"sme1"[..], 2),
        (2, b"sme1", 2),
        (3, b"sme1", 4),
        (4, b"sme1", 4),
        (2, b"sme2", 1),
        (9, b"sme2", 1),
        (1, b"sme3", 0),
    ];
    for (home, name, begins) in rows {
        let target = account(&rt, alloc, name);
        for number in 1..5 {
            let is_named = spread.names(node(&rt, number), node(&rt, home), &target);
            assert!(rt; is_named == (number == begins));
        }
        drop(target);
    }
    Ok(())
}
