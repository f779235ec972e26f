//! Sets of nodes as numbers: bit n - 1 is set for node n.

ghost use Rattle.std.specs.Prelude.{◌≡◌, ◌==◌, ◌||◌, false, ℕ, pos, IfErr, IfOk};
ghost use Rattle.mc_types.specs.Nodes.{has};
ghost use Rattle.noting_store.specs.Noted.{nodes_in};
ghost use Rattle.record_rows.specs.declared.fault.ReadFault.TheVariants.{Damaged};

use mc_types::{MOST_NODES, NodeNo, NodeSet};
use record_rows::ReadFault;

/// The number of nine bits that are set.
const ALL: i64 = 511;

/// The number of a set.
pub(crate) fn number_of(set: NodeSet) -> i64
    ensures { (bits : ℕ) × (result ≡ pos bits) × (nodes_in bits ≡ nodes_in set) }
{
    bits_of(set) as i64
}

fn bits_of(set: NodeSet) -> u16
    ensures { nodes_in result ≡ nodes_in set }
{
    let mut bits = no_bits();
    for number in 0..MOST_NODES {
        let node = NodeNo::of(number + 1);
        if set.has(node) {
            bits = with_bit(bits, node);
        }
    }
    bits
}

fn no_bits() -> u16
    ensures { (node : ℕ) → has result node ≡ false }
{
    0
}

fn with_bit(bits: u16, node: NodeNo) -> u16
    ensures { (other : ℕ) → has result other ≡ (has bits other || other == node) }
{
    bits | 1 << (node.number() - 1)
}

/// The set of a number. It refuses, as damaged, what is none.
pub(crate) fn set_of(number: i64) -> Result<NodeSet, ReadFault>
    ensures ok { IfOk result (λ set. (bits : ℕ) × (number ≡ pos bits) × (nodes_in set ≡ nodes_in bits)) }
    ensures faults { IfErr result (λ fault. fault ≡ Damaged) }
{
    if number < 0 || number > ALL {
        return Err(ReadFault::Damaged);
    }
    Ok(set_in(number as u16))
}

fn set_in(bits: u16) -> NodeSet
    ensures { nodes_in result ≡ nodes_in bits }
{
    let mut set = NodeSet::empty();
    for number in 0..MOST_NODES {
        let node = NodeNo::of(number + 1);
        if has_bit(bits, node) {
            set.add(node);
        }
    }
    set
}

fn has_bit(bits: u16, node: NodeNo) -> bool
    ensures { result ≡ has bits node }
{
    bits & (1 << (node.number() - 1)) != 0
}
