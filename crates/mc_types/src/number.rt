//! Numbers that keep their ranges.

ghost use Rattle.std.specs.Prelude.{◌≡◌, ◌↔◌, ◌+◌, min, ℕ, IsOk, IfOk, IfErr};
ghost use Rattle.mc_model.specs.message.Ids.{IsNode, IsIncarnation, IsMoment};
ghost use Rattle.mc_types.specs.declared.fault.TypeFault.TheVariants.{OutOfRange};

use crate::fault::TypeFault;
use std::marker::Model;

/// How many nodes a cluster has at most.
pub const MOST_NODES: u8 = 9;
/// The last incarnation of a node.
pub const LAST_INCARNATION: u16 = 9999;
/// The least moment, the start of 2000, in seconds since 1970.
const LEAST_MOMENT: u32 = 946684800;
/// The greatest moment, the end of 2099, in seconds since 1970.
const GREATEST_MOMENT: u32 = 4102444799;

/// The number of a node, 1 to 9.
#[derive(Clone, Copy, Debug, PartialEq, Eq, PartialOrd, Ord)]
pub struct NodeNo {
    number: u8,
}

impl Model for NodeNo {
    ghost Value = { ℕ };

    ghost view = { λ node. node.number };

    ghost invariant = { λ node. IsNode node.number };

    ghost inverse = { λ number. record { number = number } };
}

impl NodeNo {
    /// The node of this number; OutOfRange if it is not 1 to 9.
    pub fn make(number: u8) -> Result<NodeNo, TypeFault>
        ensures made { IsOk result ↔ IsNode number }
        ensures value { IfOk result (λ node. node ≡ number) }
        ensures fault { IfErr result (λ fault. fault ≡ OutOfRange) }
    {
        if number < 1 || number > MOST_NODES {
            return Err(TypeFault::OutOfRange);
        }
        Ok(NodeNo { number })
    }

    /// The node of a number that is known to be one.
    pub fn of(number: u8) -> NodeNo
        requires { IsNode number }
        ensures { result ≡ number }
    {
        NodeNo { number }
    }

    /// 1 to 9.
    pub fn number(self) -> u8
        ensures value { result ≡ self }
        ensures range { IsNode self }
    {
        self.number
    }

    /// What a proof takes of it: it is 1 to 9. The call does nothing.
    pub fn bounds(self)
        ensures { IsNode self }
    {}
}

/// How often a node has started, 1 to 9999.
#[derive(Clone, Copy, Debug, PartialEq, Eq, PartialOrd, Ord)]
pub struct Incarnation {
    starts: u16,
}

impl Model for Incarnation {
    ghost Value = { ℕ };

    ghost view = { λ incarnation. incarnation.starts };

    ghost invariant = { λ incarnation. IsIncarnation incarnation.starts };

    ghost inverse = { λ starts. record { starts = starts } };
}

impl Incarnation {
    /// The incarnation of this number; OutOfRange if it is not 1 to 9999.
    pub fn make(number: u16) -> Result<Incarnation, TypeFault>
        ensures made { IsOk result ↔ IsIncarnation number }
        ensures value { IfOk result (λ incarnation. incarnation ≡ number) }
        ensures fault { IfErr result (λ fault. fault ≡ OutOfRange) }
    {
        if number < 1 || number > LAST_INCARNATION {
            return Err(TypeFault::OutOfRange);
        }
        Ok(Incarnation { starts: number })
    }

    /// The incarnation of a number that is known to be one.
    pub fn of(number: u16) -> Incarnation
        requires { IsIncarnation number }
        ensures { result ≡ number }
    {
        Incarnation { starts: number }
    }

    /// 1 to 9999.
    pub fn number(self) -> u16
        ensures value { result ≡ self }
        ensures range { IsIncarnation self }
    {
        self.starts
    }

    /// What a proof takes of it: it is 1 to 9999. The call does nothing.
    pub fn bounds(self)
        ensures { IsIncarnation self }
    {}
}

/// A moment in whole seconds since 1970-01-01T00:00:00Z, from 946684800 (the start of 2000) to 4102444799 (the end
/// of 2099).
#[derive(Clone, Copy, Debug, PartialEq, Eq, PartialOrd, Ord)]
pub struct Moment {
    seconds: u32,
}

impl Model for Moment {
    ghost Value = { ℕ };

    ghost view = { λ moment. moment.seconds };

    ghost invariant = { λ moment. IsMoment moment.seconds };

    ghost inverse = { λ seconds. record { seconds = seconds } };
}

impl Moment {
    /// The least moment, 946684800, at which the clock of a node begins.
    pub fn least() -> Moment
        ensures { result ≡ 946684800 }
    {
        Moment {
            seconds: LEAST_MOMENT,
        }
    }

    /// The moment of so many seconds; OutOfRange if they are none.
    pub fn make(seconds: u32) -> Result<Moment, TypeFault>
        ensures made { IsOk result ↔ IsMoment seconds }
        ensures value { IfOk result (λ moment. moment ≡ seconds) }
        ensures fault { IfErr result (λ fault. fault ≡ OutOfRange) }
    {
        if seconds < LEAST_MOMENT || seconds > GREATEST_MOMENT {
            return Err(TypeFault::OutOfRange);
        }
        Ok(Moment { seconds })
    }

    /// The seconds since 1970-01-01T00:00:00Z.
    pub fn seconds(self) -> u32
        ensures value { result ≡ self }
        ensures range { IsMoment self }
    {
        self.seconds
    }

    /// So many seconds later, and the greatest moment, 4102444799, if that would be past it.
    pub fn later(self, seconds: u32) -> Moment
        ensures { result ≡ min (self + seconds) 4102444799 }
    {
        Moment {
            seconds: self.seconds.saturating_add(seconds).min(GREATEST_MOMENT),
        }
    }
}
