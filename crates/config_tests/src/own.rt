//! The table `own` of configurations.

use crate::same::assert_same;
use config::{Own, OwnFault, OwnKey, read_own};
use std::alloc::Global;
use std::net::{Ipv4Addr, SocketAddrV4};

/// What each text says, or why not.
fn own_in(alloc: Global, text: &str) -> Result<Own, OwnFault> {
    read_own(alloc, text.as_bytes())
}

#[test]
fn limits_are_read_out_of_their_table(rt: HostRuntime) {
    let text = r#"
system_id = "C"
sessions = 3
[own]
idle_seconds = 86400
sessions = 65535
colour = "blue"
"#;
    let limits = Own {
        idle_seconds: 86_400,
        bind_seconds: 0,
        write_seconds: 0,
        linger_seconds: 0,
        sessions: 65_535,
        part_entries: 0,
        ends_full: false,
        status: None,
    };
    assert_same(&rt, &own_in(rt.alloc(), text), &Ok(limits));
}

#[test]
fn each_limit_has_its_key(rt: HostRuntime) {
    let text = r#"
[own]
idle_seconds = 1
bind_seconds = 2
write_seconds = 3
linger_seconds = 86400
sessions = 4
part_entries = 150000
full = "end"
status = "127.0.0.1:9090"
"#;
    let limits = Own {
        idle_seconds: 1,
        bind_seconds: 2,
        write_seconds: 3,
        linger_seconds: 86_400,
        sessions: 4,
        part_entries: 150_000,
        ends_full: true,
        status: Some(SocketAddrV4::new(Ipv4Addr::new(127, 0, 0, 1), 9090)),
    };
    assert_same(&rt, &own_in(rt.alloc(), text), &Ok(limits));
}

#[test]
fn no_table_is_no_limit(rt: HostRuntime) {
    let limits = Own {
        idle_seconds: 0,
        bind_seconds: 0,
        write_seconds: 0,
        linger_seconds: 0,
        sessions: 0,
        part_entries: 0,
        ends_full: false,
        status: None,
    };
    assert_same(&rt, &own_in(rt.alloc(), "system_id = \"C\"\n"), &Ok(limits));
}

#[test]
fn what_is_no_limit_is_told(rt: HostRuntime) {
    let alloc = rt.alloc();
    let late = Err(OwnFault::BadValue(OwnKey::IdleSeconds));
    let many = Err(OwnFault::BadValue(OwnKey::Sessions));
    assert_same(&rt, &own_in(alloc, "[own]\nidle_seconds = 86401\n"), &late);
    assert_same(&rt, &own_in(alloc, "[own]\nidle_seconds = \"60\"\n"), &late);
    assert_same(&rt, &own_in(alloc, "[own]\nsessions = -1\n"), &many);
    let long = Err(OwnFault::BadValue(OwnKey::PartEntries));
    assert_same(&rt, &own_in(alloc, "[own]\npart_entries = 150001\n"), &long);
    assert_same(
        &rt,
        &own_in(alloc, "[own]\nfull = \"goes on\"\n"),
        &Err(OwnFault::BadFull),
    );
    assert_same(
        &rt,
        &own_in(alloc, "[own]\nfull = 1\n"),
        &Err(OwnFault::BadFull),
    );
    assert_same(&rt, &own_in(alloc, "own = 60\n"), &Err(OwnFault::NoTable));
    assert_same(&rt, &own_in(alloc, "[own\n"), &Err(OwnFault::NotToml));
}

#[test]
fn what_is_no_address_of_the_status_is_told(rt: HostRuntime) {
    let alloc = rt.alloc();
    let bad = Err(OwnFault::BadStatus);
    assert_same(&rt, &own_in(alloc, "[own]\nstatus = 9090\n"), &bad);
    assert_same(&rt, &own_in(alloc, "[own]\nstatus = \"\"\n"), &bad);
    assert_same(&rt, &own_in(alloc, "[own]\nstatus = \":9090\"\n"), &bad);
    assert_same(
        &rt,
        &own_in(alloc, "[own]\nstatus = \"localhost:9090\"\n"),
        &bad,
    );
    assert_same(
        &rt,
        &own_in(alloc, "[own]\nstatus = \"127.0.0.1:65536\"\n"),
        &bad,
    );
    assert_same(&rt, &own_in(alloc, "[own]\nstatus = \"127.0.0.1\"\n"), &bad);
}
