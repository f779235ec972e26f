//! Tries to bind.

use crate::same::assert_same;
use account_limits::{BindTries, BindTry};
use std::alloc::AllocError;
use std::net::{IpAddr, Ipv4Addr};

// An address of this machine.
fn here() -> IpAddr {
    IpAddr::V4(Ipv4Addr::LOCALHOST)
}

// Another address.
fn there() -> IpAddr {
    IpAddr::V4(Ipv4Addr::BROADCAST)
}

fn at(address: IpAddr, moment: u64) -> BindTry {
    BindTry { address, moment }
}

// Whether each of some tries counts, one after the other.
fn taken(tries: &mut BindTries, moments: [u64; 6]) -> Result<[bool; 6], AllocError> {
    let mut counts = [false; 6];
    for place in 0..6 {
        counts[place] = tries.take(at(here(), moments[place]))?;
    }
    Ok(counts)
}

#[test]
fn five_of_an_address_count_in_a_second(rt: HostRuntime) {
    let mut tries = BindTries::none(rt.alloc());
    let found = taken(&mut tries, [1_000, 1_100, 1_200, 1_300, 1_400, 1_999]);
    assert_same(&rt, &found, &Ok([true, true, true, true, true, false]));
    assert_same(&rt, &tries.take(at(there(), 1_999)), &Ok(true));
    assert_same(&rt, &tries.take(at(here(), 2_000)), &Ok(true));
    assert_same(&rt, &tries.take(at(here(), 2_000)), &Ok(false));
    assert_same(&rt, &tries.take(at(here(), 2_100)), &Ok(true));
}

#[test]
fn a_try_that_is_given_back_does_not_count(rt: HostRuntime) {
    let mut tries = BindTries::none(rt.alloc());
    let found = taken(&mut tries, [1_000, 1_000, 1_000, 1_000, 1_000, 1_000]);
    assert_same(&rt, &found, &Ok([true, true, true, true, true, false]));
    tries.give_back(&at(here(), 1_001));
    tries.give_back(&at(there(), 1_000));
    assert_same(&rt, &tries.take(at(here(), 1_000)), &Ok(false));
    tries.give_back(&at(here(), 1_000));
    assert_same(&rt, &tries.take(at(here(), 1_000)), &Ok(true));
    assert_same(&rt, &tries.take(at(here(), 1_000)), &Ok(false));
}
