//! The opening of the nodes of a cluster.

ghost use Rattle.std.specs.Prelude.{◌≡◌, ◌↔◌, ◌+◌, ◌<◌, ◌≤◌, length, IfErr, IfOk, IsErrOf};
ghost use Rattle.node_core.specs.Setups.{setup_with};
ghost use Rattle.node_threads.specs.declared.start_fault.StartFault.TheVariants.{Nodes};
ghost use Rattle.node_threads.specs.Openings.{AreNotNodes, AreOpened, BeginAsLeft, BeginAsNew, BeginAsTheyAre, CantOpen, CantStart, IsOpened, OpenInOrder};
ghost use Rattle.node_threads.specs.Openings.{fault_at};

use crate::defaults::Defaults;
use crate::start_fault::StartFault;
use mc_types::{MOST_NODES, NodeNo};
use node_core::{Life, Node, Setup, open_node};
use stable_store::{StableStore, StoreFault};
use std::alloc::Global;
use std::collections::VecDeque;

/// Opens the nodes of a cluster, each over its store, that of node 1 first: the nodes and their lives stand in the same order. Each incarnation begins
/// with the serial, and a message is valid for as long, as these defaults say. Nodes exactly if there is no store, or more than nine, and then none is opened;
/// Open tells of the first store that can't be opened, and why; else an `Err` is want of memory. At an `Err` the stores are dropped.
pub fn open_nodes<S: StableStore + Drop>(
    alloc: Global,
    stores: Vec<S>,
    defaults: Defaults,
) -> Result<(Vec<Node<S>>, Vec<Life>), StartFault>
    ensures opened { IfOk result (λ opened. AreOpened S.stored (length stores.items) defaults stores.items opened.0.items opened.1.items) }
    ensures nodes { IsErrOf result Nodes ↔ AreNotNodes stores.items }
    ensures fault { IfErr result (CantStart S.stored defaults stores.items) }
{
    if stores.is_empty() || stores.len() > MOST_NODES as usize {
        return Err(StartFault::Nodes);
    }
    open_each(alloc, stores, defaults)
}

/// What a proof takes of nodes that opened: they stand in their order, and where their journal begins, by what they keep and by what their stores had. The call
/// does nothing.
pub fn opened_nodes_begin<S: StableStore>()
    ensures order { OpenInOrder S.stored }
    ensures kept { BeginAsTheyAre S.stored }
    ensures new { BeginAsNew S.stored }
    ensures left { BeginAsLeft S.stored }
{}

/// Opens one to nine nodes, each over its store.
fn open_each<S: StableStore + Drop>(
    alloc: Global,
    stores: Vec<S>,
    defaults: Defaults,
) -> Result<(Vec<Node<S>>, Vec<Life>), StartFault>
    requires least { 1 ≤ length stores.items }
    requires most { length stores.items ≤ 9 }
    ensures opened { IfOk result (λ opened. AreOpened S.stored (length stores.items) defaults stores.items opened.0.items opened.1.items) }
    ensures fault { IfErr result (CantStart S.stored defaults stores.items) }
{
    let count = stores.len();
    let mut nodes = Vec::with_capacity(alloc, count)?;
    let mut lives = Vec::with_capacity(alloc, count)?;
    let mut left = VecDeque::from_vec(stores);
    while let Some(store) = left.pop_front() {
        let setup = setup_at(nodes.len(), count, defaults);
        let (node, life) = open_one(alloc, store, setup)?;
        nodes.push(node)?;
        lives.push(life)?;
    }
    Ok((nodes, lives))
}

/// The setup of the node at this place, of so many.
pub(crate) fn setup_at(place: usize, count: usize, defaults: Defaults) -> Setup
    requires place { place < count }
    requires count { count ≤ 9 }
    ensures { result ≡ setup_with (place + 1) count defaults.first_serial defaults.default_validity }
{
    let number = NodeNo::of(place as u8 + 1);
    Setup::make(
        number,
        count as u8,
        defaults.first_serial(),
        defaults.default_validity(),
    )
    .unwrap()
}

/// Opens a node over its store. Open, with its number, if the store can't be opened; else an `Err` is want of memory.
fn open_one<S: StableStore + Drop>(
    alloc: Global,
    store: S,
    setup: Setup,
) -> Result<(Node<S>, Life), StartFault>
    ensures opened { IfOk result (λ opened. IsOpened S.stored setup store opened.0 opened.1) }
    ensures fault { IfErr result (CantOpen S.stored setup.node store) }
{
    match open_node(alloc, store, setup) {
        Ok((node, life)) => Ok((node, life)),
        Err((fault, store)) => {
            drop(store);
            Err(fault_of(setup.node(), fault))
        }
    }
}

/// Why the nodes of a cluster do not open if a store tells this of a node.
pub(crate) fn fault_of(node: NodeNo, fault: StoreFault) -> StartFault
    ensures { result ≡ fault_at node fault }
{
    match fault {
        StoreFault::Memory => StartFault::Memory,
        StoreFault::Device | StoreFault::Damaged | StoreFault::Incarnations => {
            StartFault::Open(node, fault)
        }
    }
}
