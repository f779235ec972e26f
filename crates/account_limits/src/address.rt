//! Addresses as numbers.

ghost use Rattle.std.specs.Prelude.{◌≡◌};
ghost use Rattle.account_limits.specs.Addresses.{same_address};

use std::net::IpAddr;

/// Whether two addresses are the same.
pub(crate) fn is_same(one: &IpAddr, other: &IpAddr) -> bool
    ensures { result ≡ same_address one.now other.now }
{
    match (one, other) {
        (IpAddr::V4(one), IpAddr::V4(other)) => one.to_bits() == other.to_bits(),
        (IpAddr::V6(one), IpAddr::V6(other)) => one.to_bits() == other.to_bits(),
        _ => false,
    }
}
