//! Why a text has no table `own` that can be read.

use crate::own_key::OwnKey;
use std::fmt;

/// Why the table `own` of a text can't be read.
#[derive(Clone, Copy, Debug, PartialEq, Eq)]
pub enum OwnFault {
    /// The text is no TOML, or not UTF-8.
    NotToml,
    /// What stands under `own` is no table.
    NoTable,
    /// A value is no whole number of the range of its key.
    BadValue(OwnKey),
    /// What stands under `full` is not "end".
    BadFull,
    /// What stands under `status` is no address and port.
    BadStatus,
    /// There was no memory.
    Memory,
}

impl fmt::Display for OwnFault {
    fn fmt<W: fmt::Write>(&self, f: &mut fmt::Formatter<W>) -> fmt::Result {
        match self {
            OwnFault::NotToml => f.write_str("no TOML"),
            OwnFault::NoTable => f.write_str("no table: own"),
            OwnFault::BadValue(key) => {
                write!(
                    f,
                    "bad value: {key}, a whole number from 0 to {}",
                    key.most()
                )
            }
            OwnFault::BadFull => f.write_str("bad value: own.full, which is \"end\" or not there"),
            OwnFault::BadStatus => f.write_str(
                "bad value: own.status, an address and a port as \"127.0.0.1:9090\", or not there",
            ),
            OwnFault::Memory => f.write_str("there was not enough memory"),
        }
    }
}
