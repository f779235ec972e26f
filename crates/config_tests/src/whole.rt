//! Configurations without a fault.

use crate::same::assert_same;
use accounts::Role;
use config::{Config, read_config};
use std::alloc::Global;
use std::process::Abort;

const WHOLE: &str = r#"
# keys that nobody asks for are ignored
colour = "blue"
system_id = "CENTRE"
default_validity = 3600
first_serial = 42
stop_after = 7

[[node]]
number = 2
listen = "10.0.0.2:2776"
store = "/var/centre/2"

[[node]]
number = 1
listen = "127.0.0.1:2775"

[[account]]
system_id = "sme1"
password = "pw1"
transmit = true
receive = true

[[account]]
system_id = "sme2"
password = ""
transmit = false
receive = true
note = "receives"

[[route]]
prefix = "2"
account = "sme2"

[[route]]
prefix = ""
account = "sme1"
"#;

const LEAST: &str = r#"
system_id = "C"
node = [{ number = 1, listen = "0.0.0.0:0" }]
"#;

fn numbers_of(config: &Config) -> (u32, u32, u64, usize) {
    (
        config.default_validity,
        config.first_serial,
        config.stop_after,
        config.nodes.len(),
    )
}

fn listens(config: &Config, place: usize, ip: [u8; 4], port: u16) -> bool {
    match config.nodes.get(place) {
        Some(node) => node.listen.ip().octets() == ip && node.listen.port() == port,
        None => false,
    }
}

fn store_of(config: &Config, place: usize) -> Option<&str> {
    match &config.nodes.get(place)?.store {
        Some(path) => Some(path.as_str()),
        None => None,
    }
}

fn has_account(config: &Config, name: &[u8], password: &[u8], transmit: bool) -> bool {
    match config.accounts.find(name) {
        Some(account) => {
            account.password.octets() == password
                && account.allows(Role::Receiver)
                && account.allows(Role::Transmitter) == transmit
        }
        None => false,
    }
}

fn leads(config: &Config, destination: &[u8], account: &[u8]) -> bool {
    match config.routes.target(destination) {
        Some(target) => target.octets() == account,
        None => false,
    }
}

// What is said of a configuration, and is to be true.
fn whole(config: &Config) -> [bool; 10] {
    [
        config.system_id.octets() == b"CENTRE".as_slice(),
        numbers_of(config) == (3600, 42, 7, 2),
        listens(config, 0, [127, 0, 0, 1], 2775),
        listens(config, 1, [10, 0, 0, 2], 2776),
        store_of(config, 0).is_none(),
        store_of(config, 1) == Some("/var/centre/2"),
        has_account(config, b"sme1", b"pw1", true),
        has_account(config, b"sme2", b"", false),
        leads(config, b"255", b"sme2"),
        leads(config, b"155", b"sme1"),
    ]
}

#[test]
fn each_key_is_read(rt: HostRuntime) {
    let config = read_config(rt.alloc(), WHOLE.as_bytes()).expect(&rt, "a configuration");
    let holds = whole(&config);
    drop(config);
    assert_same(&rt, &holds, &[true; 10]);
}

fn least(config: &Config) -> [bool; 4] {
    [
        numbers_of(config) == (259_200, 1, 0, 1),
        listens(config, 0, [0, 0, 0, 0], 0),
        config.accounts.find(b"sme1").is_none(),
        config.routes.target(b"155").is_none(),
    ]
}

#[test]
fn what_is_absent_has_its_default(rt: HostRuntime) {
    let config = read_config(rt.alloc(), LEAST.as_bytes()).expect(&rt, "a configuration");
    let holds = least(&config);
    drop(config);
    assert_same(&rt, &holds, &[true; 4]);
}

fn of_scripts(config: &Config) -> [bool; 5] {
    [
        config.system_id.octets() == b"CENTRE".as_slice(),
        has_account(config, b"sme1", b"pw1", true),
        has_account(config, b"sme2", b"pw2", true),
        leads(config, b"255", b"sme2"),
        leads(config, b"155", b"sme1"),
    ]
}

#[test]
fn a_script_has_two_accounts(rt: HostRuntime) {
    let config = Config::of_scripts(rt.alloc()).expect(&rt, "a configuration");
    let holds = of_scripts(&config);
    drop(config);
    assert_same(&rt, &holds, &[true; 5]);
}

// The least configuration, with so many accounts that may only receive.
fn with_accounts(rt: &impl Abort, alloc: Global, count: u32) -> Config {
    let mut text = String::from_str(alloc, LEAST).expect(rt, "memory");
    for number in 1..=count {
        let account = write!(
            text,
            "[[account]]\nsystem_id = \"sme{number}\"\npassword = \"\"\ntransmit = false\nreceive = true\n"
        );
        account.expect(rt, "memory");
    }
    let config = read_config(alloc, text.as_bytes());
    drop(text);
    config.expect(rt, "a configuration")
}

#[test]
fn there_may_be_many_accounts(rt: HostRuntime) {
    let config = with_accounts(&rt, rt.alloc(), 300);
    let found = [
        has_account(&config, b"sme1", b"", false),
        has_account(&config, b"sme300", b"", false),
        has_account(&config, b"sme301", b"", false),
    ];
    drop(config);
    assert_same(&rt, &found, &[true, true, false]);
}
