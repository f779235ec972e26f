//! Nine nodes, each over a store that fails again and again.

ghost use Rattle.std.specs.Prelude.{◌≡◌};
ghost use Rattle.mc_model.specs.cluster.Steps.{setup_of};
ghost use Rattle.node_model.specs.Stepped.{opened_new};
ghost use Rattle.stable_store.specs.Stored.{stored_in};
ghost use Rattle.node_threads.specs.Actions.{AllBegin};
ghost use Rattle.node_threads.specs.Defaults.{from_one};
ghost use Rattle.node_threads.specs.Openings.{AreNew, cluster_of};

use crate::unsteady_store::UnsteadyStore;
use node_core::{Life, Node};
use node_threads::{Defaults, open_nodes, opened_nodes_begin};
use std::alloc::Global;
use std::process::Abort;

/// How many nodes there are.
pub const NODES: u8 = 9;

/// For how many seconds a message is valid that does not say it.
pub const VALIDITY: u32 = 172800;

/// What the nodes go by: each incarnation begins with the serial 1.
fn defaults(rt: &impl Abort) -> Defaults
    ensures { result ≡ from_one 172800 }
{
    Defaults::make(1, VALIDITY).expect(rt, "defaults")
}

/// Of the store of node 1 every save of this number fails, and of one more for each node behind it.
const EVERY: u64 = 100;

/// A new store for each node.
fn new_stores(rt: &impl Abort, alloc: Global) -> Vec<UnsteadyStore>
    ensures { AreNew (λ store. stored_in store.store store.failed) result.items }
{
    let mut stores = Vec::new(alloc);
    for place in 0..NODES {
        let every = EVERY + u64::from(place);
        let put = stores.push(UnsteadyStore::make(alloc, every));
        put.expect(rt, "memory");
    }
    stores
}

/// The nodes over their new stores, and their lives: their journal begins with what those of the model open with.
pub fn opened(rt: &impl Abort, alloc: Global) -> (Vec<Node<UnsteadyStore>>, Vec<Life>)
    ensures { AllBegin (cluster_of result.0.items (from_one 172800)) (λ node. opened_new (setup_of (cluster_of result.0.items (from_one 172800)) node)) result.0.items }
{
    let stores = new_stores(rt, alloc);
    opened_nodes_begin::<UnsteadyStore>();
    match open_nodes(alloc, stores, defaults(rt)) {
        Ok(opened) => opened,
        Err(_) => panic!(rt; "they open"),
    }
}
