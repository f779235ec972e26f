//! Why a text is no configuration.

ghost use Rattle.std.specs.Prelude.{◌≡◌};
ghost use Rattle.config.specs.declared.fault.ConfigFault.TheVariants as faults;

use crate::place::Place;
use std::alloc::{AllocError, AllocFailed};
use std::fmt;

/// Why a text is no configuration. Of several faults the one of the lowest number is told, with any one of the places at which it is.
#[derive(Clone, Copy, Debug, PartialEq, Eq)]
pub enum ConfigFault {
    /// 1: the text is no TOML, or not UTF-8.
    NotToml,
    /// 2: a key that has no default is not there, or there is no node.
    Missing(Place),
    /// 3: the value of a key is of another kind or out of its range, a tenth node, or the name of an account that there is
    /// not.
    BadValue(Place),
    /// 4: two accounts have one system_id, two routes one prefix, or two nodes one number; the place is that of the later one.
    Repeated(Place),
    /// 5: there was no memory.
    Memory,
}

impl fmt::Display for ConfigFault {
    fn fmt<W: fmt::Write>(&self, f: &mut fmt::Formatter<W>) -> fmt::Result {
        match self {
            ConfigFault::NotToml => f.write_str("no TOML"),
            ConfigFault::Missing(place) => write!(f, "missing: {place}"),
            ConfigFault::BadValue(place) => write!(f, "bad value: {place}"),
            ConfigFault::Repeated(place) => write!(f, "given twice: {place}"),
            ConfigFault::Memory => f.write_str("there was not enough memory"),
        }
    }
}

impl From<AllocError> for ConfigFault {
    ghost from_gives = { λ _ fault. fault ≡ faults.Memory };

    fn from(_error: AllocError) -> ConfigFault {
        ConfigFault::Memory
    }
}

impl<T: Drop> From<AllocFailed<T>> for ConfigFault {
    ghost from_gives = { λ _ fault. fault ≡ faults.Memory };

    fn from(_error: AllocFailed<T>) -> ConfigFault {
        ConfigFault::Memory
    }
}
