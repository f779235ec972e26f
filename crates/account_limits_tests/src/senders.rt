//! Patterns of senders, and what an account may name.

use crate::same::assert_same;
use account_limits::{Limits, Net, SenderFault, SenderPattern};
use std::alloc::{AllocFailed, Global};
use std::net::{IpAddr, Ipv4Addr};
use std::process::Abort;

// Whether a source_addr is one of a pattern, or why the text is none.
fn admits(alloc: Global, text: &str, source: &str) -> Result<bool, SenderFault> {
    let pattern = SenderPattern::parse(alloc, text.as_bytes())?;
    Ok(pattern.admits(source.as_bytes()))
}

fn assert_admits(rt: &(impl Abort + AllocGlobal), text: &str, source: &str, wanted: bool) {
    assert_same(
        rt,
        &(text, admits(rt.alloc(), text, source)),
        &(text, Ok(wanted)),
    );
}

fn assert_none(rt: &(impl Abort + AllocGlobal), text: &str, fault: SenderFault) {
    assert_same(
        rt,
        &(text, admits(rt.alloc(), text, "")),
        &(text, Err(fault)),
    );
}

#[test]
fn a_pattern_is_a_sender_or_its_beginning(rt: HostRuntime) {
    assert_admits(&rt, "MyBank", "MyBank", true);
    assert_admits(&rt, "MyBank", "MyBank2", false);
    assert_admits(&rt, "MyBank", "mybank", false);
    assert_admits(&rt, "49*", "491701234567", true);
    assert_admits(&rt, "49*", "49", true);
    assert_admits(&rt, "49*", "4", false);
    assert_admits(&rt, "*", "", true);
    assert_admits(&rt, "", "", true);
    assert_admits(&rt, "", "1", false);
    assert_admits(&rt, "12345678901234567890*", "12345678901234567890", true);
}

#[test]
fn what_is_no_pattern_is_told(rt: HostRuntime) {
    assert_none(&rt, "123456789012345678901", SenderFault::TooLong);
    assert_none(&rt, "123456789012345678901*", SenderFault::TooLong);
    assert_none(&rt, "4*9", SenderFault::BadOctet);
    assert_none(&rt, "49**", SenderFault::BadOctet);
    assert_none(&rt, "4\0", SenderFault::BadOctet);
}

// An address of this machine.
fn home() -> IpAddr {
    IpAddr::V4(Ipv4Addr::LOCALHOST)
}

// Another address.
fn other() -> IpAddr {
    IpAddr::V4(Ipv4Addr::BROADCAST)
}

#[test]
fn no_limits_admit_all(rt: HostRuntime) {
    let limits = Limits::none(rt.alloc());
    assert_same(&rt, &limits.admits_address(&other()), &true);
    assert_same(&rt, &limits.admits_session(99), &true);
    assert_same(&rt, &limits.admits_sender(b"MyBank"), &true);
}

#[test]
fn sessions_are_admitted_up_to_the_limit(rt: HostRuntime) {
    let mut limits = Limits::none(rt.alloc());
    limits.sessions = 2;
    assert_same(&rt, &limits.admits_session(1), &true);
    assert_same(&rt, &limits.admits_session(2), &false);
}

#[test]
fn one_net_and_one_sender_of_several_are_enough(rt: HostRuntime) {
    let found = limited(rt.alloc());
    assert_same(&rt, &found, &Ok((true, false, true, false)));
}

// Whether limits to two nets and two senders admit an address of the second, one of none, a sender of the second, and one of none.
fn limited(alloc: Global) -> Result<(bool, bool, bool, bool), SenderFault> {
    let mut limits = Limits::none(alloc);
    add_net(&mut limits, b"10.0.0.0/8")?;
    add_net(&mut limits, b"127.0.0.0/8")?;
    add_sender(alloc, &mut limits, b"MyBank")?;
    add_sender(alloc, &mut limits, b"49*")?;
    Ok((
        limits.admits_address(&home()),
        limits.admits_address(&other()),
        limits.admits_sender(b"4917"),
        limits.admits_sender(b"4817"),
    ))
}

fn add_net(limits: &mut Limits, text: &[u8]) -> Result<(), SenderFault> {
    if let Ok(net) = Net::parse(text) {
        let pushed: Result<(), AllocFailed<Net>> = limits.from.push(net);
        if pushed.is_err() {
            return Err(SenderFault::Memory);
        }
    }
    Ok(())
}

fn add_sender(alloc: Global, limits: &mut Limits, text: &[u8]) -> Result<(), SenderFault> {
    let pattern = SenderPattern::parse(alloc, text)?;
    match limits.senders.push(pattern) {
        Ok(()) => Ok(()),
        Err(_) => Err(SenderFault::Memory),
    }
}
