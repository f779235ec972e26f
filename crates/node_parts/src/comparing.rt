//! Whether what steps take and give out is the same.

ghost use Rattle.std.specs.Prelude.{◌≡◌, ◌↔◌, IsTrue};

use fate_chain::Chain;
use mc_types::MsgId;
use synod_acceptor::Packet;
use waiting_requests::Reply;

/// What steps take and give out, each of which tells whether another is the same.
pub trait Comparable {
    /// Whether it is the same as the other. It takes no memory.
    fn is_same(&self, other: &Self) -> bool
        ensures { IsTrue result ↔ (self.now ≡ other.now) };
}

impl Comparable for MsgId {
    fn is_same(&self, other: &MsgId) -> bool {
        self == other
    }
}

impl Comparable for Packet {
    fn is_same(&self, other: &Packet) -> bool {
        self.is(other)
    }
}

impl Comparable for Reply {
    fn is_same(&self, other: &Reply) -> bool {
        self.is(other)
    }
}

impl Comparable for Chain {
    fn is_same(&self, other: &Chain) -> bool {
        self.is(other)
    }
}

/// Whether both lists have the same items, in the same order. It takes no memory.
pub fn are_same<T: Comparable>(items: &[T], others: &[T]) -> bool
    ensures { IsTrue result ↔ (items.now ≡ others.now) }
{
    if items.len() != others.len() {
        return false;
    }
    for place in 0..items.len() {
        if !items[place].is_same(&others[place]) {
            return false;
        }
    }
    true
}

/// Whether both are the same chain, or none. It takes no memory.
pub fn is_same_grant(granted: &Option<Chain>, other: &Option<Chain>) -> bool
    ensures { IsTrue result ↔ (granted.now ≡ other.now) }
{
    match (granted, other) {
        (Some(chain), Some(other)) => chain.is(other),
        (None, None) => true,
        _ => false,
    }
}
