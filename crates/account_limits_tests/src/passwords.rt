//! Hashes of passwords. The digests are those of Python's `hashlib.pbkdf2_hmac('sha256', password, bytes(range(16)), rounds)`.

use crate::same::assert_same;
use account_limits::{HashFault, PasswordHash};
use std::process::Abort;

const SALT: [u8; 16] = [0, 1, 2, 3, 4, 5, 6, 7, 8, 9, 10, 11, 12, 13, 14, 15];

const ONCE: &str =
    "000102030405060708090a0b0c0d0e0f:1:f439cbe322a3088b09bd9356dc45df7882d84fb520ee6526d2b3444a91da423c";

const TWICE: &str =
    "000102030405060708090a0b0c0d0e0f:2:b09b3567c1d7092e3b65d2849e06f9e6e88f2ae839f1aa67c9130e9cc562c201";

const OF_NONE: &str =
    "000102030405060708090a0b0c0d0e0f:3:f826e75fcd86ff4fd3471c1737c7cfe3313fd8c73d9487f14f5225e9897dfb83";

const OFTEN: &str =
    "000102030405060708090a0b0c0d0e0f:1000:dfed23668162d592fc3ba03753c00cf3af059ead1ba9e5750d68349aada0cccb";

const OF_64: &str =
    "000102030405060708090a0b0c0d0e0f:2:5fecc1f11914bbd2dd078ea5d5e2ac78c39cfb8e6bdb28f3c4f9f74f6de2074b";

fn is_of(text: &str, password: &[u8]) -> Result<bool, HashFault> {
    Ok(PasswordHash::parse(text.as_bytes())?.is_of(password))
}

fn assert_none(rt: &impl Abort, text: &str, fault: HashFault) {
    assert_same(
        rt,
        &(text, PasswordHash::parse(text.as_bytes())),
        &(text, Err(fault)),
    );
}

#[test]
fn a_hash_is_of_its_password(rt: HostRuntime) {
    assert_same(&rt, &is_of(ONCE, b"pw1"), &Ok(true));
    assert_same(&rt, &is_of(TWICE, b"pw1"), &Ok(true));
    assert_same(&rt, &is_of(OF_NONE, b""), &Ok(true));
    assert_same(&rt, &is_of(OFTEN, b"secret12"), &Ok(true));
    assert_same(&rt, &is_of(OF_64, &[b'x'; 64]), &Ok(true));
}

#[test]
fn a_hash_is_of_no_other_password(rt: HostRuntime) {
    assert_same(&rt, &is_of(ONCE, b"pw2"), &Ok(false));
    assert_same(&rt, &is_of(ONCE, b""), &Ok(false));
    assert_same(&rt, &is_of(OF_64, &[b'x'; 65]), &Ok(false));
}

#[test]
fn a_hash_is_written_as_it_is_read(rt: HostRuntime) {
    let hash = PasswordHash::make(b"secret12", SALT, 1_000);
    assert_same(&rt, &PasswordHash::parse(OFTEN.as_bytes()), &Ok(hash));
    let text = format!(in rt.alloc(); "{hash}");
    assert_same(&rt, &text.is_ok_and(|text| text.as_str() == OFTEN), &true);
}

#[test]
fn what_is_no_hash_is_told(rt: HostRuntime) {
    assert_none(&rt, "", HashFault::NotThree);
    assert_none(&rt, "00:1", HashFault::NotThree);
    assert_none(&rt, "00:1:00", HashFault::BadSalt);
    assert_none(
        &rt,
        "0001020304050607080g0a0b0c0d0e0f:1:00",
        HashFault::BadSalt,
    );
    assert_none(
        &rt,
        "000102030405060708090a0b0c0d0e0f:0:00",
        HashFault::BadRounds,
    );
    assert_none(
        &rt,
        "000102030405060708090a0b0c0d0e0f:1000001:00",
        HashFault::BadRounds,
    );
    assert_none(
        &rt,
        "000102030405060708090a0b0c0d0e0f::00",
        HashFault::BadRounds,
    );
    assert_none(
        &rt,
        "000102030405060708090a0b0c0d0e0f:1000000:00",
        HashFault::BadDigest,
    );
    assert_none(
        &rt,
        "000102030405060708090a0b0c0d0e0f:1:f439cbe3:",
        HashFault::BadDigest,
    );
}
