//! Nets, and which addresses are in them: each as Python's `ipaddress` has it, but for an address alone, which is no net here.

use crate::same::assert_same;
use account_limits::{Net, NetFault};
use std::net::{IpAddr, Ipv4Addr, Ipv6Addr};
use std::process::Abort;

fn v4(a: u8, b: u8, c: u8, d: u8) -> IpAddr {
    IpAddr::V4(Ipv4Addr::new(a, b, c, d))
}

// The address that begins so, and has zeros up to its last segment.
fn v6(first: u16, second: u16, third: u16, last: u16) -> IpAddr {
    IpAddr::V6(Ipv6Addr::new(first, second, third, 0, 0, 0, 0, last))
}

fn assert_net(rt: &impl Abort, text: &str, address: IpAddr, length: u32) {
    let net = Net { address, length };
    assert_same(rt, &Net::parse(text.as_bytes()), &Ok(net));
}

fn assert_none(rt: &impl Abort, text: &str, fault: NetFault) {
    assert_same(rt, &Net::parse(text.as_bytes()), &Err(fault));
}

fn assert_in(rt: &impl Abort, text: &str, address: IpAddr, wanted: bool) {
    let found = Net::parse(text.as_bytes()).map(|net| net.contains(&address));
    assert_same(rt, &(text, found), &(text, Ok(wanted)));
}

#[test]
fn nets_are_read(rt: HostRuntime) {
    assert_net(&rt, "10.0.0.0/8", v4(10, 0, 0, 0), 8);
    assert_net(&rt, "0.0.0.0/0", v4(0, 0, 0, 0), 0);
    assert_net(&rt, "127.0.0.1/32", v4(127, 0, 0, 1), 32);
    assert_net(&rt, "2001:db8::/32", v6(0x2001, 0xdb8, 0, 0), 32);
    assert_net(&rt, "::/0", v6(0, 0, 0, 0), 0);
    assert_net(&rt, "::1/128", v6(0, 0, 0, 1), 128);
}

#[test]
fn what_is_no_net_is_told(rt: HostRuntime) {
    assert_none(&rt, "", NetFault::NoSlash);
    assert_none(&rt, "10.0.0.0", NetFault::NoSlash);
    assert_none(&rt, "10.0.0/8", NetFault::BadAddress);
    assert_none(&rt, "localhost/8", NetFault::BadAddress);
    assert_none(&rt, "/8", NetFault::BadAddress);
    assert_none(&rt, "10.0.0.0/", NetFault::BadLength);
    assert_none(&rt, "10.0.0.0/33", NetFault::BadLength);
    assert_none(&rt, "10.0.0.0/-1", NetFault::BadLength);
    assert_none(&rt, "10.0.0.0/08", NetFault::BadLength);
    assert_none(&rt, "10.0.0.0/8/8", NetFault::BadLength);
    assert_none(&rt, "10.0.0.0/4294967304", NetFault::BadLength);
    assert_none(&rt, "::/129", NetFault::BadLength);
    assert_none(&rt, "10.0.0.1/8", NetFault::LooseBits);
    assert_none(&rt, "2001:db8::1/32", NetFault::LooseBits);
    assert_none(&rt, "::1/0", NetFault::LooseBits);
}

#[test]
fn addresses_are_in_their_nets(rt: HostRuntime) {
    assert_in(&rt, "10.0.0.0/8", v4(10, 255, 255, 255), true);
    assert_in(&rt, "10.0.0.0/8", v4(11, 0, 0, 0), false);
    assert_in(&rt, "172.16.0.0/12", v4(172, 31, 255, 255), true);
    assert_in(&rt, "172.16.0.0/12", v4(172, 32, 0, 0), false);
    assert_in(&rt, "127.0.0.1/32", v4(127, 0, 0, 1), true);
    assert_in(&rt, "127.0.0.1/32", v4(127, 0, 0, 2), false);
    assert_in(&rt, "0.0.0.0/0", v4(255, 255, 255, 255), true);
    assert_in(&rt, "2001:db8::/32", v6(0x2001, 0xdb8, 0xffff, 1), true);
    assert_in(&rt, "2001:db8::/32", v6(0x2001, 0xdb9, 0, 0), false);
    assert_in(&rt, "::/0", v6(0xffff, 0, 0, 0), true);
    assert_in(&rt, "::1/128", v6(0, 0, 0, 1), true);
    assert_in(&rt, "::1/128", v6(0, 0, 0, 2), false);
    assert_in(&rt, "fe80::/10", v6(0xfebf, 0, 0, 1), true);
    assert_in(&rt, "fe80::/10", v6(0xfec0, 0, 0, 0), false);
}

#[test]
fn no_address_is_in_a_net_of_the_other_family(rt: HostRuntime) {
    assert_in(&rt, "::/0", v4(10, 0, 0, 1), false);
    assert_in(&rt, "0.0.0.0/0", v6(0, 0, 0, 1), false);
}
