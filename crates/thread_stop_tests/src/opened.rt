//! Nodes that open over new stores.

ghost use Rattle.std.specs.Prelude.{◌≡◌, None};
ghost use Rattle.mc_model.specs.cluster.Steps.{setup_of};
ghost use Rattle.mc_model.specs.message.Ids.{IsNode};
ghost use Rattle.node_model.specs.Stepped.{opened_new};
ghost use Rattle.stable_store.specs.Stored.{stored_in};
ghost use Rattle.journal_laws.specs.Openings.{IsNew};
ghost use Rattle.node_core.specs.Setups.{IsSetup};
ghost use Rattle.node_threads.specs.Actions.{AllBegin};
ghost use Rattle.node_threads.specs.Defaults.{from_one};
ghost use Rattle.node_threads.specs.Openings.{AreNew, cluster_of};

use node_core::{Life, Node, Setup, open_node};
use node_threads::{Defaults, open_nodes, opened_nodes_begin};
use stable_store::{HoldingStore, Latch, LatchHold, ListStore, StableStore};
use std::alloc::Global;
use std::process::Abort;
use std::sync::Arc;

/// How many parts a ledger of slips has.
pub const PARTS: u64 = 1_000_000;

/// For how many seconds a message is valid that does not say it.
const VALIDITY: u32 = 172800;

/// A store of which a save is held up at a latch.
pub type HeldStore = HoldingStore<LatchHold>;

/// What the nodes go by: each incarnation begins with the serial 1.
fn defaults(rt: &impl Abort) -> Defaults
    ensures { result ≡ from_one 172800 }
{
    Defaults::make(1, VALIDITY).expect(rt, "defaults")
}

/// Node 1 opens alone over a store.
pub fn opened<S: StableStore + Drop>(rt: &impl Abort, alloc: Global, store: S) -> (Node<S>, Life)
    ensures node { IsNode result.0.kept.setup.node }
    ensures setup { IsSetup result.0.kept.setup }
    ensures alone { result.0.kept.setup.nodes ≡ 1 }
    ensures finished { result.0.unfinished ≡ None }
{
    let number = lines_of_tests::node(1).expect(rt, "a node");
    let setup = Setup::make(number, 1, 1, 172800).expect(rt, "a setup");
    match open_node(alloc, store, setup) {
        Ok((node, life)) => {
            node.bounds();
            (node, life)
        }
        Err(_) => panic!(rt; "it opens"),
    }
}

/// A new store of which the save of this number is held up at a latch; of 0 none is.
fn held_store(rt: &impl Abort, alloc: Global, latch: &Arc<Latch, Global>, save: u64) -> HeldStore
    ensures { IsNew (stored_in result.store 0) }
{
    let latch = Arc::try_clone(latch).expect(rt, "memory");
    HoldingStore::make(ListStore::make(alloc), save, LatchHold::make(latch))
}

/// New stores of three nodes, of which the first one's third save is held up at a latch.
fn held_stores(rt: &impl Abort, alloc: Global, latch: &Arc<Latch, Global>) -> Vec<HeldStore>
    ensures { AreNew (λ store. stored_in store.store 0) result.items }
{
    let mut stores = Vec::new(alloc);
    for save in [3, 0, 0] {
        let put = stores.push(held_store(rt, alloc, latch, save));
        put.expect(rt, "memory");
    }
    stores
}

/// Three nodes over these stores, and their lives: their journal begins with what those of the model open with.
pub fn three_held(
    rt: &impl Abort,
    alloc: Global,
    latch: &Arc<Latch, Global>,
) -> (Vec<Node<HeldStore>>, Vec<Life>)
    ensures { AllBegin (cluster_of result.0.items (from_one 172800)) (λ node. opened_new (setup_of (cluster_of result.0.items (from_one 172800)) node)) result.0.items }
{
    let stores = held_stores(rt, alloc, latch);
    opened_nodes_begin::<HeldStore>();
    match open_nodes(alloc, stores, defaults(rt)) {
        Ok(opened) => opened,
        Err(_) => panic!(rt; "they open"),
    }
}
