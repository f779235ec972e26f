//! The opening of the nodes of a cluster in two halves.

ghost use Rattle.std.specs.Prelude.{◌≡◌, ◌↔◌, ◌≤◌, None, length, IfErr, IfOk, IsErrOf};
ghost use Rattle.node_core.specs.Loadings.{Begins, IsLoaded};
ghost use Rattle.node_threads.specs.declared.start_fault.StartFault.TheVariants.{Nodes};
ghost use Rattle.node_threads.specs.Loadings.{AreLoaded, BeginAJournal, BeginOver, CantBegin, CantBeginOne, CantLoad};
ghost use Rattle.node_threads.specs.Openings.{AreNotNodes, CantOpen};

use crate::defaults::Defaults;
use crate::opening::{fault_of, setup_at};
use crate::start_fault::StartFault;
use mc_types::MOST_NODES;
use node_core::{Life, Loaded, Node, Setup};
use stable_store::StableStore;
use std::alloc::Global;
use std::collections::VecDeque;

/// Loads the nodes of a cluster, each over its store, that of node 1 first; no incarnation is raised. `begin_nodes` does what is left of `open_nodes`, with the
/// same defaults. Nodes exactly if there is no store, or more than nine, and then none is loaded; Open tells of the first store that can't be loaded, and why;
/// else an `Err` is want of memory. At an `Err` the stores are dropped.
pub fn load_nodes<S: StableStore + Drop>(
    alloc: Global,
    stores: Vec<S>,
    defaults: Defaults,
) -> Result<Vec<Loaded<S>>, StartFault>
    ensures loaded { IfOk result (λ loaded. AreLoaded S.stored (length stores.items) defaults stores.items loaded.items) }
    ensures nodes { IsErrOf result Nodes ↔ AreNotNodes stores.items }
    ensures fault { IfErr result (CantLoad S.stored defaults stores.items) }
{
    if stores.is_empty() || stores.len() > MOST_NODES as usize {
        return Err(StartFault::Nodes);
    }
    load_each(alloc, stores, defaults)
}

/// Loads one to nine nodes, each over its store.
fn load_each<S: StableStore + Drop>(
    alloc: Global,
    stores: Vec<S>,
    defaults: Defaults,
) -> Result<Vec<Loaded<S>>, StartFault>
    requires least { 1 ≤ length stores.items }
    requires most { length stores.items ≤ 9 }
    ensures loaded { IfOk result (λ loaded. AreLoaded S.stored (length stores.items) defaults stores.items loaded.items) }
    ensures fault { IfErr result (CantLoad S.stored defaults stores.items) }
{
    let count = stores.len();
    let mut loaded = Vec::with_capacity(alloc, count)?;
    let mut left = VecDeque::from_vec(stores);
    while let Some(store) = left.pop_front() {
        let setup = setup_at(loaded.len(), count, defaults);
        let one = load_one(alloc, store, setup)?;
        loaded.push(one)?;
    }
    Ok(loaded)
}

/// Loads a node over its store. Open, with its number, if the store can't be loaded; else an `Err` is want of memory.
fn load_one<S: StableStore + Drop>(
    alloc: Global,
    store: S,
    setup: Setup,
) -> Result<Loaded<S>, StartFault>
    ensures loaded { IfOk result (IsLoaded S.stored setup store) }
    ensures fault { IfErr result (CantOpen S.stored setup.node store) }
{
    match Loaded::of(alloc, store, setup) {
        Ok(loaded) => Ok(loaded),
        Err((fault, store)) => {
            drop(store);
            Err(fault_of(setup.node(), fault))
        }
    }
}

/// Begins the next incarnation of each node that was loaded, in their order: the nodes and their lives stand in the same order. They stand as `open_nodes`
/// leaves them, over whatever stores they were loaded, so that `Cluster::start` takes them. Open tells of the first whose store can't be written, or has no
/// incarnation left; else an `Err` is want of memory. At an `Err` the stores are dropped, and those before that one have their next incarnation.
pub fn begin_nodes<S: StableStore + Drop>(
    alloc: Global,
    loaded: Vec<Loaded<S>>,
) -> Result<(Vec<Node<S>>, Vec<Life>), StartFault>
    ensures opened { IfOk result (λ opened. BeginOver S.stored loaded.items opened.0.items opened.1.items) }
    ensures begins { IfOk result (λ opened. BeginAJournal S.stored loaded.items opened.0.items) }
    ensures fault { IfErr result (CantBegin S.stored loaded.items) }
{
    let mut nodes = Vec::with_capacity(alloc, loaded.len())?;
    let mut lives = Vec::with_capacity(alloc, loaded.len())?;
    let mut left = VecDeque::from_vec(loaded);
    while let Some(one) = left.pop_front() {
        let (node, life) = begin_one(one)?;
        nodes.push(node)?;
        lives.push(life)?;
    }
    Ok((nodes, lives))
}

/// Begins the next incarnation of a node that was loaded. Open, with its number, if its store can't be written, or has none left; else an `Err` is want of
/// memory.
fn begin_one<S: StableStore + Drop>(loaded: Loaded<S>) -> Result<(Node<S>, Life), StartFault>
    ensures begins { IfOk result (λ opened. Begins S.stored loaded opened.0 opened.1) }
    ensures finished { IfOk result (λ opened. opened.0.unfinished ≡ None) }
    ensures untold { IfOk result (λ opened. opened.0.stopped ≡ None) }
    ensures fault { IfErr result (CantBeginOne S.stored loaded) }
{
    let setup = loaded.setup();
    match loaded.begin() {
        Ok((node, life)) => Ok((node, life)),
        Err((fault, store)) => {
            drop(store);
            Err(fault_of(setup.node(), fault))
        }
    }
}
