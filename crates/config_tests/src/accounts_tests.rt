//! Roles, binds and routes.

use crate::same::assert_same;
use accounts::{Account, Accounts, AccountsFault, Role, Route, Routes};
use pdu_codec::{Bind, Text};
use std::alloc::Global;
use std::process::Abort;

fn text<const LIMIT: usize>(rt: &impl Abort, alloc: Global, octets: &[u8]) -> Text<LIMIT> {
    let text = Text::make(alloc, octets).expect(rt, "memory");
    text.expect(rt, "a text")
}

// The system_id of an account, whether it may submit, and whether it may be delivered to.
type Rights = (&'static [u8], bool, bool);

// An account is added, or why not.
fn add(
    rt: &impl Abort,
    alloc: Global,
    accounts: &mut Accounts,
    (name, transmit, receive): Rights,
) -> Option<AccountsFault> {
    let account = Account {
        system_id: text(rt, alloc, name),
        password: text(rt, alloc, b"pw"),
        transmit,
        receive,
    };
    accounts.add(account).err()
}

fn bind(rt: &impl Abort, alloc: Global, name: &[u8], password: &[u8]) -> Bind {
    Bind {
        system_id: text(rt, alloc, name),
        password: text(rt, alloc, password),
        system_type: text(rt, alloc, b""),
        interface_version: 0x34,
        addr_ton: 0,
        addr_npi: 0,
        address_range: text(rt, alloc, b""),
    }
}

const RIGHTS: &[Rights] = &[
    (b"both", true, true),
    (b"sends", true, false),
    (b"gets", false, true),
];

fn accounts(rt: &impl Abort, alloc: Global) -> Accounts {
    let mut accounts = Accounts::make(alloc);
    for rights in RIGHTS {
        let fault = add(rt, alloc, &mut accounts, *rights);
        assert_same(rt, &(rights.0, fault), &(rights.0, None));
    }
    accounts
}

// The role, the system_id and the password of a bind, and the command_status with which it is refused, 0 of no refusal.
type Row = (Role, &'static [u8], &'static [u8], u32);

fn assert_refusal(rt: &impl Abort, alloc: Global, accounts: &Accounts, number: usize, row: Row) {
    let (role, name, password, wanted) = row;
    let bind = bind(rt, alloc, name, password);
    let refusal = accounts.bind_refusal(role, &bind);
    drop(bind);
    let status = refusal.map_or(0, |status| status.code());
    assert_same(rt, &(number, status), &(number, wanted));
}

// That these binds are refused so, or not.
fn assert_refusals(rt: &impl Abort, alloc: Global, rows: &[Row]) {
    let accounts = accounts(rt, alloc);
    for (number, row) in rows.iter().enumerate() {
        assert_refusal(rt, alloc, &accounts, number, *row);
    }
}

const ROLES: &[Row] = &[
    (Role::Transmitter, b"both", b"pw", 0),
    (Role::Receiver, b"both", b"pw", 0),
    (Role::Transceiver, b"both", b"pw", 0),
    (Role::Transmitter, b"sends", b"pw", 0),
    (Role::Receiver, b"sends", b"pw", 0x0d),
    (Role::Transceiver, b"sends", b"pw", 0x0d),
    (Role::Transmitter, b"gets", b"pw", 0x0d),
    (Role::Receiver, b"gets", b"pw", 0),
    (Role::Transceiver, b"gets", b"pw", 0x0d),
];

#[test]
fn roles_need_their_rights(rt: HostRuntime) {
    assert_refusals(&rt, rt.alloc(), ROLES);
}

const REFUSALS: &[Row] = &[
    (Role::Receiver, b"nobody", b"pw", 0x0f),
    (Role::Receiver, b"sends", b"other", 0x0e),
    (Role::Receiver, b"sends", b"pw", 0x0d),
];

#[test]
fn the_first_refusal_is_told(rt: HostRuntime) {
    assert_refusals(&rt, rt.alloc(), REFUSALS);
}

// Whether an account may submit, and be delivered to.
fn allowed(account: &Account) -> (bool, bool) {
    (
        account.allows(Role::Transmitter),
        account.allows(Role::Receiver),
    )
}

#[test]
fn a_name_has_one_account(rt: HostRuntime) {
    let alloc = rt.alloc();
    let mut accounts = Accounts::make(alloc);
    let faults = (
        add(&rt, alloc, &mut accounts, (b"sme1", true, false)),
        add(&rt, alloc, &mut accounts, (b"sme1", true, true)),
    );
    let found = accounts.find(b"sme1").map(allowed);
    let front = accounts.find(b"sme").map(allowed);
    drop(accounts);
    assert_same(&rt, &faults, &(None, Some(AccountsFault::Repeated)));
    assert_same(&rt, &(found, front), &(Some((true, false)), None));
}

// A route is added, or why not.
fn lead(
    rt: &impl Abort,
    alloc: Global,
    routes: &mut Routes,
    prefix: &[u8],
    account: &[u8],
) -> Option<AccountsFault> {
    let route = Route {
        prefix: text(rt, alloc, prefix),
        account: text(rt, alloc, account),
    };
    routes.add(route).err()
}

// That this is the account to which a destination leads, if it leads to one.
fn assert_target(rt: &impl Abort, routes: &Routes, destination: &[u8], wanted: Option<&[u8]>) {
    let target = routes.target(destination).map(|target| target.octets());
    assert_same(rt, &(destination, target), &(destination, wanted));
}

const TARGETS: &[(&[u8], &[u8])] = &[
    (b"155", b"sme1"),
    (b"", b"sme1"),
    (b"2", b"sme2"),
    (b"254", b"sme2"),
    (b"255", b"sme3"),
    (b"2551", b"sme3"),
    (b"1255", b"sme1"),
];

#[test]
fn the_longest_prefix_leads(rt: HostRuntime) {
    let alloc = rt.alloc();
    let mut routes = Routes::make(alloc);
    assert_target(&rt, &routes, b"155", None);
    let first = lead(&rt, alloc, &mut routes, b"2", b"sme2");
    let again = lead(&rt, alloc, &mut routes, b"2", b"sme1");
    assert_target(&rt, &routes, b"155", None);
    let longer = lead(&rt, alloc, &mut routes, b"255", b"sme3");
    let shortest = lead(&rt, alloc, &mut routes, b"", b"sme1");
    for (destination, account) in TARGETS {
        assert_target(&rt, &routes, destination, Some(*account));
    }
    drop(routes);
    let wanted = [None, Some(AccountsFault::Repeated), None, None];
    assert_same(&rt, &[first, again, longer, shortest], &wanted);
}
