//! Which accounts are remembered.

use crate::values::account;
use pdu_codec::SystemId;
use std::alloc::Global;
use std::process::Abort;
use std::test::Fail;
use waiting_messages::Presence;

// An account for each octet.
fn accounts(rt: &impl Abort, alloc: Global, names: &[u8]) -> Vec<SystemId> {
    let mut accounts = Vec::new(alloc);
    for name in names {
        accounts
            .push(account(rt, alloc, &[*name]))
            .expect(rt, "memory");
    }
    accounts
}

#[test]
fn accounts_are_remembered_for_so_many_seconds(rt: HostRuntime) -> Result<(), Fail> {
    let alloc = rt.alloc();
    let mut presence = Presence::none(alloc);
    // At which second which are up, and then with those behind them that could receive less than 30 seconds ago.
    let rows = [
        (100, &b"12"[..], &b"12"[..]),
        (110, b"2", b"21"),
        (129, b"3", b"312"),
        (130, b"", b"23"),
        (159, b"", b""),
    ];
    for (second, names, told) in rows {
        let mut up = accounts(&rt, alloc, names);
        presence.see(&up, second, 30).expect(&rt, "memory");
        presence.append_absent(&mut up).expect(&rt, "memory");
        let wanted = accounts(&rt, alloc, told);
        assert!(rt; up == wanted);
        drop(up);
        drop(wanted);
    }
    Ok(())
}
