//! What a node goes by if a message does not say it.

ghost use Rattle.std.specs.Prelude.{◌≡◌, ◌↔◌, ◌≤◌, IfSome, IsSome};

use mc_types::LAST_SERIAL;
use std::marker::Model;

/// What a node goes by: the serial with which each incarnation begins, and for how long a message is valid that does not say it.
#[derive(Clone, Copy, Debug, PartialEq, Eq)]
pub struct Defaults {
    first_serial: u32,
    default_validity: u32,
}

impl Model for Defaults {
    ghost use Rattle.node_threads.specs.Defaults.{AreDefaults, Defaults};

    ghost Value = { Defaults };

    ghost view = { λ d. record { first_serial = d.first_serial; default_validity = d.default_validity } };

    ghost invariant = { λ d. AreDefaults (record { first_serial = d.first_serial; default_validity = d.default_validity }) };

    ghost inverse = { λ d. record { first_serial = d.first_serial; default_validity = d.default_validity } };
}

impl Defaults {
    ghost use Rattle.node_threads.specs.Defaults.{AreDefaults};

    /// The serial with which each incarnation begins, 1 to 99,999, and for how many seconds a message is valid that does not say it. None exactly if there is no
    /// such serial.
    pub fn make(first_serial: u32, default_validity: u32) -> Option<Defaults>
        ensures made { IsSome result ↔ AreDefaults (record { first_serial = first_serial; default_validity = default_validity }) }
        ensures value { IfSome result (λ defaults. defaults ≡ record { first_serial = first_serial; default_validity = default_validity }) }
    {
        if first_serial < 1 || first_serial > LAST_SERIAL {
            return None;
        }
        Some(Defaults {
            first_serial,
            default_validity,
        })
    }

    /// The serial with which each incarnation begins.
    pub fn first_serial(self) -> u32
        ensures value { result ≡ self.first_serial }
        ensures least { 1 ≤ result }
        ensures most { result ≤ 99999 }
    {
        self.first_serial
    }

    /// For how many seconds a message is valid that does not say it.
    pub fn default_validity(self) -> u32
        ensures { result ≡ self.default_validity }
    {
        self.default_validity
    }
}
