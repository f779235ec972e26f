//! The limits of accounts in configurations.

use crate::same::assert_same;
use account_limits::{Limits, Net, PasswordHash};
use config_limits::{LimitKey, LimitedAccount, LimitsFault, limits_of, read_limits};
use std::alloc::Global;
use std::process::Abort;
use toml::Value;

/// The hash of `pw1` by one round, and the salt of the numbers from 0 to 15.
const HASH: &str =
    "000102030405060708090a0b0c0d0e0f:1:f439cbe322a3088b09bd9356dc45df7882d84fb520ee6526d2b3444a91da423c";

// What the tables of accounts of a text say of limits, or why not.
fn limits_in(
    rt: &impl Abort,
    alloc: Global,
    text: &str,
) -> Result<Vec<LimitedAccount>, LimitsFault> {
    let members = toml::table_from_slice(alloc, text.as_bytes()).expect(rt, "TOML");
    let document = Value::Table(members);
    let limits = read_limits(alloc, &document);
    drop(document);
    limits
}

// How many nets and senders, how many sessions and submit_sm a second, and whether the password has a hash.
fn counts(limits: &Limits) -> (usize, usize, u32, u32, bool) {
    (
        limits.from.len(),
        limits.senders.len(),
        limits.sessions,
        limits.per_second,
        limits.password.is_some(),
    )
}

// The same of an account of a text.
fn counts_of(
    rt: &impl Abort,
    alloc: Global,
    text: &str,
    system_id: &[u8],
) -> Option<(usize, usize, u32, u32, bool)> {
    let accounts = limits_in(rt, alloc, text).expect(rt, "limits");
    let found = match limits_of(&accounts, system_id) {
        Some(limits) => Some(counts(limits)),
        None => None,
    };
    drop(accounts);
    found
}

#[test]
fn each_key_of_an_account_is_read(rt: HostRuntime) {
    let text = r#"
[[account]]
system_id = "sme1"
from = ["10.0.0.0/8", "2001:db8::/32"]
sessions = 99
per_second = 100000
senders = ["MyBank", "49*", "*"]
password_sha256 = "000102030405060708090a0b0c0d0e0f:1:f439cbe322a3088b09bd9356dc45df7882d84fb520ee6526d2b3444a91da423c"
[[account]]
system_id = "sme2"
sessions = 1
"#;
    let alloc = rt.alloc();
    assert_same(
        &rt,
        &counts_of(&rt, alloc, text, b"sme1"),
        &Some((2, 3, 99, 100_000, true)),
    );
    assert_same(
        &rt,
        &counts_of(&rt, alloc, text, b"sme2"),
        &Some((0, 0, 1, 0, false)),
    );
    assert_same(&rt, &counts_of(&rt, alloc, text, b"sme3"), &None);
}

#[test]
fn an_account_without_keys_has_no_limits(rt: HostRuntime) {
    let text = "[[account]]\nsystem_id = \"sme1\"\n";
    assert_same(
        &rt,
        &counts_of(&rt, rt.alloc(), text, b"sme1"),
        &Some((0, 0, 0, 0, false)),
    );
    assert_same(&rt, &counts_of(&rt, rt.alloc(), "", b"sme1"), &None);
}

// The limits of the one account of a text.
fn first_of(rt: &impl Abort, alloc: Global, lines: &str) -> Limits {
    let text = format!(in alloc; "[[account]]\nsystem_id = \"sme1\"\n{lines}").expect(rt, "memory");
    let mut accounts = limits_in(rt, alloc, text.as_str()).expect(rt, "limits");
    let first = accounts.pop();
    drop(accounts);
    first.expect(rt, "an account").limits
}

#[test]
fn nets_and_hashes_are_those_of_their_texts(rt: HostRuntime) {
    let limits = first_of(&rt, rt.alloc(), "from = [\"10.0.0.0/8\", \"::1/128\"]\n");
    let wanted = [Net::parse(b"10.0.0.0/8"), Net::parse(b"::1/128")];
    for (net, wanted) in limits.from.iter().zip(&wanted) {
        assert_same(&rt, &Ok(*net), wanted);
    }
    drop(limits);
    let line = format!(in rt.alloc(); "password_sha256 = \"{HASH}\"\n").expect(&rt, "memory");
    let limits = first_of(&rt, rt.alloc(), line.as_str());
    assert_same(
        &rt,
        &limits.password,
        &PasswordHash::parse(HASH.as_bytes()).ok(),
    );
    drop(limits);
}

// What stands in the second account of a text, which key has a bad value, and the line that tells it.
type Row = (&'static str, LimitKey, &'static str);

const BAD: &[Row] = &[
    (
        "from = []",
        LimitKey::From,
        "bad value: account.from, a list of nets as \"10.0.0.0/8\" or \"2001:db8::/32\" (account 2)",
    ),
    (
        "from = \"10.0.0.0/8\"",
        LimitKey::From,
        "bad value: account.from, a list of nets as \"10.0.0.0/8\" or \"2001:db8::/32\" (account 2)",
    ),
    (
        "from = [\"10.0.0.0/8\", \"10.0.0.1/8\"]",
        LimitKey::From,
        "bad value: account.from, a list of nets as \"10.0.0.0/8\" or \"2001:db8::/32\" (account 2)",
    ),
    (
        "from = [10]",
        LimitKey::From,
        "bad value: account.from, a list of nets as \"10.0.0.0/8\" or \"2001:db8::/32\" (account 2)",
    ),
    (
        "sessions = 0",
        LimitKey::Sessions,
        "bad value: account.sessions, a whole number from 1 to 99 (account 2)",
    ),
    (
        "sessions = 100",
        LimitKey::Sessions,
        "bad value: account.sessions, a whole number from 1 to 99 (account 2)",
    ),
    (
        "sessions = \"1\"",
        LimitKey::Sessions,
        "bad value: account.sessions, a whole number from 1 to 99 (account 2)",
    ),
    (
        "per_second = -1",
        LimitKey::PerSecond,
        "bad value: account.per_second, a whole number from 1 to 100000 (account 2)",
    ),
    (
        "per_second = 100001",
        LimitKey::PerSecond,
        "bad value: account.per_second, a whole number from 1 to 100000 (account 2)",
    ),
    (
        "senders = []",
        LimitKey::Senders,
        "bad value: account.senders, a list of texts as \"MyBank\" or \"49*\", of at most 20 octets (account 2)",
    ),
    (
        "senders = [\"4*9\"]",
        LimitKey::Senders,
        "bad value: account.senders, a list of texts as \"MyBank\" or \"49*\", of at most 20 octets (account 2)",
    ),
    (
        "senders = [\"MyBank\", \"123456789012345678901\"]",
        LimitKey::Senders,
        "bad value: account.senders, a list of texts as \"MyBank\" or \"49*\", of at most 20 octets (account 2)",
    ),
    (
        "password_sha256 = \"pw1\"",
        LimitKey::PasswordSha256,
        "bad value: account.password_sha256, a salt, rounds and a PBKDF2 hash as \"SALT:ROUNDS:HEX\" (account 2)",
    ),
    (
        "password_sha256 = 1",
        LimitKey::PasswordSha256,
        "bad value: account.password_sha256, a salt, rounds and a PBKDF2 hash as \"SALT:ROUNDS:HEX\" (account 2)",
    ),
];

#[test]
fn a_bad_value_is_told_with_what_is_wanted(rt: HostRuntime) {
    for (number, (line, key, told)) in BAD.iter().enumerate() {
        let text = format!(in rt.alloc();
            "[[account]]\nsystem_id = \"sme1\"\n[[account]]\nsystem_id = \"sme2\"\n{line}\n"
        ).expect(&rt, "memory");
        let fault = match limits_in(&rt, rt.alloc(), text.as_str()) {
            Ok(accounts) => {
                drop(accounts);
                None
            }
            Err(fault) => Some(fault),
        };
        assert_same(
            &rt,
            &(number, fault),
            &(number, Some(LimitsFault::BadValue(*key, 1))),
        );
        let fault = fault.expect(&rt, "a fault");
        let found = format!(in rt.alloc(); "{fault}").expect(&rt, "memory");
        assert_same(&rt, &(number, found.as_str()), &(number, *told));
    }
}
