//! Nodes of the tests, and walks of them over lines of what comes and what is answered.

ghost use Rattle.node_core.specs.Nodes.{IsLifeOf};

use crate::same::assert_same;
use lines_of_tests::{first_other, node};
use node_core::{Input, Life, Node, Setup, open_node};
use stable_store::{ListStore, StableStore};
use std::alloc::Global;
use std::process::Abort;

// That of a node alone, and that of the second node of three.
pub fn alone(rt: &impl Abort) -> Setup {
    Setup::make(node(1).expect(rt, "a node"), 1, 1, 172800).expect(rt, "a setup")
}

pub fn second(rt: &impl Abort) -> Setup {
    Setup::make(node(2).expect(rt, "a node"), 3, 1, 172800).expect(rt, "a setup")
}

// A node that opens over a store.
pub fn opened_over<S: StableStore + Drop>(
    rt: &impl Abort,
    alloc: Global,
    store: S,
    setup: Setup,
) -> (Node<S>, Life)
    ensures { IsLifeOf result.0 result.1 }
{
    match open_node(alloc, store, setup) {
        Ok(opened) => opened,
        Err(_) => panic!(rt; "it opens"),
    }
}

// A node that opens over a new store.
pub fn opened(rt: &impl Abort, alloc: Global, setup: Setup) -> (Node<ListStore>, Life) {
    opened_over(rt, alloc, ListStore::make(alloc), setup)
}

// What comes to a node by a line.
pub fn input(rt: &impl Abort, alloc: Global, comes: &str) -> Input {
    lines_of_tests::input(alloc, comes).expect(rt, "a line")
}

// That the node answers as the rows of a part say.
pub fn assert_part<S: StableStore>(rt: &impl Abort, alloc: Global, node: &mut Node<S>, part: &str) {
    let other = first_other(alloc, node, part);
    assert_same(rt, &(part, other), &(part, None));
}

// The same of a node that opens over a store. The store, once it has stopped.
pub fn walked<S: StableStore + Drop>(
    rt: &impl Abort,
    alloc: Global,
    store: S,
    setup: Setup,
    part: &str,
) -> S {
    let (mut node, _life) = opened_over(rt, alloc, store, setup);
    assert_part(rt, alloc, &mut node, part);
    node.into_store()
}

// The same over a new store.
pub fn assert_walk(rt: &impl Abort, alloc: Global, setup: Setup, part: &str) {
    let store = walked(rt, alloc, ListStore::make(alloc), setup, part);
    drop(store);
}
