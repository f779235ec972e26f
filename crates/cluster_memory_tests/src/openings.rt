//! The node of the tests, which is alone, its cluster, and room for both.

ghost use Rattle.std.specs.Prelude.{◌≡◌, [], None, IfSome};
ghost use Rattle.mc_model.specs.message.Ids.{IsNode};
ghost use Rattle.journal_parts.specs.Members.{IsBeginning};
ghost use Rattle.journal_parts.specs.Numbers.{none_sent};
ghost use Rattle.node_core.specs.Setups.{IsSetup};

use crate::same::assert_same;
use lines_of_tests::node;
use mc_types::NodeNo;
use node_core::{Life, Node, Setup, open_node};
use node_threads::{Begins, Cluster};
use stable_store::{ListStore, StoreFault};
use std::alloc::Global;
use std::process::Abort;
use std::sync::ledger::Blank;

/// How many parts a ledger of slips has.
pub const PARTS: u64 = 1_000_000;

/// How often a call is made: at most one request for memory is refused.
pub const TRIES: u8 = 2;

/// What a cluster begins with.
#[derive(Drop)]
pub struct First {
    pub blank: Blank,
    pub node: Node<ListStore>,
}

/// The one node.
pub fn only_node(rt: &impl Abort) -> NodeNo {
    node(1).expect(rt, "a node")
}

/// It opens alone over a new store; none if there was no memory.
fn tried(rt: &impl Abort, alloc: Global) -> Option<(Node<ListStore>, Life)>
    ensures node { IfSome result (λ opened. IsNode opened.0.kept.setup.node) }
    ensures setup { IfSome result (λ opened. IsSetup opened.0.kept.setup) }
    ensures alone { IfSome result (λ opened. opened.0.kept.setup.nodes ≡ 1) }
    ensures finished { IfSome result (λ opened. opened.0.unfinished ≡ None) }
{
    let setup = Setup::make(only_node(rt), 1, 1, 172800).expect(rt, "a setup");
    match open_node(alloc, ListStore::make(alloc), setup) {
        Ok((node, life)) => {
            node.bounds();
            Some((node, life))
        }
        Err((fault, store)) => {
            drop(store);
            assert_same(rt, &fault, &StoreFault::Memory);
            None
        }
    }
}

pub fn opened(rt: &impl Abort, alloc: Global) -> (Node<ListStore>, Life)
    ensures node { IsNode result.0.kept.setup.node }
    ensures setup { IsSetup result.0.kept.setup }
    ensures alone { result.0.kept.setup.nodes ≡ 1 }
    ensures finished { result.0.unfinished ≡ None }
{
    for _ in 0..TRIES {
        if let Some(opened) = tried(rt, alloc) {
            return opened;
        }
    }
    panic!(rt; "it opens");
}

/// Room for a node, or for a seat.
pub fn one_place<T: Drop>(rt: &impl Abort, alloc: Global) -> Vec<T>
    ensures { result.items ≡ [] }
{
    match Vec::with_capacity(alloc, 1) {
        Ok(place) => place,
        Err(_) => Vec::with_capacity(alloc, 1).expect(rt, "memory"),
    }
}

/// A cluster of one node; none if there was no memory.
pub fn started<L: Begins>(
    rt: &impl Abort,
    alloc: Global,
    first: First,
) -> Option<Cluster<ListStore, L>>
    requires name { first.blank.name ≡ L.name }
    requires parts { first.blank.parts ≡ L.parts }
    requires all { first.blank.parts ≡ 1000000 }
    requires numbers { L.numbers ≡ none_sent }
    requires begins { IsBeginning L.cluster L.kept first.node }
    requires alone { L.cluster.nodes ≡ 1 }
{
    let mut nodes = one_place(rt, alloc);
    nodes.push(first.node).expect(rt, "room");
    match Cluster::<ListStore, L>::start(alloc, first.blank, nodes) {
        Ok(cluster) => Some(cluster),
        Err(_) => None,
    }
}
