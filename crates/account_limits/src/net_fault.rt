//! Why a text is no net.

use std::fmt;

/// Why a text is no net: the first that fits.
#[derive(Clone, Copy, Debug, PartialEq, Eq)]
pub enum NetFault {
    /// It has no slash.
    NoSlash,
    /// What stands before the first slash is no address.
    BadAddress,
    /// What stands behind it is no number from 0 to the bits of the address, 32 or 128.
    BadLength,
    /// The address has a bit set behind the first ones.
    LooseBits,
}

impl fmt::Display for NetFault {
    fn fmt<W: fmt::Write>(&self, f: &mut fmt::Formatter<W>) -> fmt::Result {
        f.write_str(match self {
            NetFault::NoSlash => "no slash",
            NetFault::BadAddress => "no address before the slash",
            NetFault::BadLength => "no number of bits behind the slash",
            NetFault::LooseBits => "bits set behind the first ones",
        })
    }
}
