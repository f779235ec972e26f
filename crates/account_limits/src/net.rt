//! Nets of addresses.

ghost use Rattle.std.specs.Prelude.{◌≡◌, ◌≤◌, ◌-◌};
ghost use Rattle.account_limits.specs.Addresses.{bits_of, width_of};
ghost use Rattle.account_limits.specs.Numbers.{first_bits, has_loose_bits};

use crate::net_fault::NetFault;
use crate::number::{behind, read_number};
use std::net::IpAddr;

/// How many bits an IPv4 address has.
const IPV4_BITS: u32 = 32;

/// How many bits an IPv6 address has.
const IPV6_BITS: u32 = 128;

/// A net: all addresses of one family that have the first bits of its own address.
#[derive(Clone, Copy, Debug, PartialEq, Eq)]
pub struct Net {
    /// An address of the net.
    pub address: IpAddr,
    /// How many of its first bits they have, at most as many as it has.
    pub length: u32,
}

impl Net {
    ghost use Rattle.account_limits.specs.Nets.{IsNetOutcome, is_in};

    /// The net of a text: an address, a slash, and how many bits, as `10.0.0.0/8` or `2001:db8::/32`. The bits behind these are zero.
    pub fn parse(text: &[u8]) -> Result<Net, NetFault>
        ensures { IsNetOutcome text.now result }
    {
        let Some(slash) = slash_in(text) else {
            return Err(NetFault::NoSlash);
        };
        match IpAddr::parse_ascii(&text[..slash]) {
            Ok(address) => net_of(address, behind(text, slash)),
            Err(_) => Err(NetFault::BadAddress),
        }
    }

    /// Whether an address is in the net; one of the other family is not.
    pub fn contains(&self, address: &IpAddr) -> bool
        ensures { result ≡ is_in self.now address.now }
    {
        match (self.address, *address) {
            (IpAddr::V4(own), IpAddr::V4(other)) => {
                let behind = IPV4_BITS.saturating_sub(self.length);
                first_bits(u128::from(own.to_bits()), behind)
                    == first_bits(u128::from(other.to_bits()), behind)
            }
            (IpAddr::V6(own), IpAddr::V6(other)) => {
                let behind = IPV6_BITS.saturating_sub(self.length);
                first_bits(own.to_bits(), behind) == first_bits(other.to_bits(), behind)
            }
            _ => false,
        }
    }
}

/// How many bits an address has.
fn width_of(address: &IpAddr) -> u32
    ensures { result ≡ width_of address.now }
{
    match address {
        IpAddr::V4(_) => IPV4_BITS,
        IpAddr::V6(_) => IPV6_BITS,
    }
}

/// The number of an address.
fn bits_of(address: &IpAddr) -> u128
    ensures { result ≡ bits_of address.now }
{
    match address {
        IpAddr::V4(address) => u128::from(address.to_bits()),
        IpAddr::V6(address) => address.to_bits(),
    }
}

/// What is left of a number without so many of its last bits.
fn first_bits(number: u128, behind: u32) -> u128
    requires { behind ≤ 128 }
    ensures { result ≡ first_bits number behind }
{
    if behind == IPV6_BITS {
        return 0;
    }
    number >> behind
}

/// Whether an address has a bit set behind so many first ones.
fn has_bits_behind(address: &IpAddr, length: u32) -> bool
    requires { length ≤ width_of address.now }
    ensures { result ≡ has_loose_bits (bits_of address.now) (width_of address.now - length) }
{
    let behind = width_of(address) - length;
    let bits = bits_of(address);
    if behind == IPV6_BITS {
        return bits != 0;
    }
    bits % (1 << behind) != 0
}

ghost use Rattle.account_limits.specs.Nets.{net_of, slash_in};

/// Where the first slash of a text stands, if it has one.
fn slash_in(text: &[u8]) -> Option<usize>
    ensures { result ≡ slash_in text.now }
{
    text.iter().position(|octet| *octet == b'/')
}

/// The net of an address and the text of its length.
fn net_of(address: IpAddr, text: &[u8]) -> Result<Net, NetFault>
    ensures { result ≡ net_of address text.now }
{
    let Some(length) = read_number(text, width_of(&address)) else {
        return Err(NetFault::BadLength);
    };
    if has_bits_behind(&address, length) {
        return Err(NetFault::LooseBits);
    }
    Ok(Net { address, length })
}
