//! Nodes that open over stores on disk.

ghost use Rattle.std.specs.Prelude.{◌≡◌};
ghost use Rattle.node_threads.specs.Actions.{AllBegin};
ghost use Rattle.node_threads.specs.Defaults.{from_one};
ghost use Rattle.node_threads.specs.Openings.{cluster_of, kept_at};

use node_core::{Life, Node};
use node_threads::{Defaults, open_nodes, opened_nodes_begin};
use sql_store::SqlStore;
use sqlite::MemStore;
use std::alloc::Global;
use std::process::Abort;

/// How many parts a ledger of slips has.
pub const PARTS: u64 = 1_000_000;

/// For how many seconds a message is valid that does not say it.
const VALIDITY: u32 = 259200;

/// How many nodes there are.
pub const NODES: u8 = 3;

/// A store of the tests, in memory.
pub type InMemory = SqlStore<MemStore>;

/// What the nodes go by: each incarnation begins with the serial 1.
fn defaults(rt: &impl Abort) -> Defaults
    ensures { result ≡ from_one 259200 }
{
    Defaults::make(1, VALIDITY).expect(rt, "defaults")
}

fn new_stores(rt: &impl Abort, alloc: Global) -> Vec<InMemory> {
    let mut stores = Vec::new(alloc);
    for _ in 0..NODES {
        let store = SqlStore::in_memory(alloc).expect(rt, "a store");
        stores.push(store).expect(rt, "memory");
    }
    stores
}

/// The nodes over new stores: their journal begins with what they keep.
pub fn over_new_stores(rt: &impl Abort, alloc: Global) -> (Vec<Node<InMemory>>, Vec<Life>)
    ensures { AllBegin (cluster_of result.0.items (from_one 259200)) (kept_at result.0.items (from_one 259200)) result.0.items }
{
    opened_nodes_begin::<InMemory>();
    match open_nodes(alloc, new_stores(rt, alloc), defaults(rt)) {
        Ok(opened) => opened,
        Err(_) => panic!(rt; "they open"),
    }
}
