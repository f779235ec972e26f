//! The stores of a cluster: looked at, then made.

ghost use Rattle.std.specs.Prelude.{◌≡◌, IfOk};
ghost use Rattle.cluster_stores.specs.Places.{AreWhereTold};

use crate::fault::StoresFault;
use crate::looking::look;
use crate::marking::make_stores;
use crate::refusal::Refusal;
use config::NodeConfig;
use node_stores::NodeStore;
use std::alloc::{AllocError, Global};
use std::rt::{Files, HostRuntime};
use whose_stores::judge;

/// The stores of the nodes, that of node 1 first, which may go on together. Shared, Unopened or Store, and Stores tell why there are none, in this order, and then
/// nothing was made or changed; only behind that are stores made that are not there, and written whose they are.
pub fn open_stores<R: Files + AllocGlobal>(
    rt: &R,
    host: &HostRuntime,
    nodes: &[NodeConfig],
) -> Result<Vec<NodeStore>, StoresFault>
    ensures { IfOk result (λ stores. AreWhereTold nodes.now stores.items) }
{
    let alloc = rt.alloc();
    if let Some((one, other)) = shared(nodes) {
        return Err(sharing(alloc, nodes, one, other)?);
    }
    let looked = look(rt, host, alloc, nodes)?;
    if let Some(difference) = judge(&looked.found) {
        let refusal = Refusal::make(alloc, nodes, &looked.found, difference)?;
        drop(looked);
        return Err(StoresFault::Stores(refusal));
    }
    make_stores(host, alloc, nodes, looked)
}

/// The places of two nodes whose stores have one path.
fn shared(nodes: &[NodeConfig]) -> Option<(usize, usize)> {
    for at in 0..nodes.len() {
        let first = shared_with(nodes, at);
        if let Some(first) = first {
            return Some((first, at));
        }
    }
    None
}

/// The first place before this one of a node whose store has the same path.
fn shared_with(nodes: &[NodeConfig], at: usize) -> Option<usize> {
    let path = path_at(nodes, at)?;
    for first in 0..at {
        if path_at(nodes, first) == Some(path) {
            return Some(first);
        }
    }
    None
}

/// The path of the store of the node at a place.
fn path_at(nodes: &[NodeConfig], place: usize) -> Option<&str> {
    match &nodes.get(place)?.store {
        Some(path) => Some(path.as_str()),
        None => None,
    }
}

fn sharing(
    alloc: Global,
    nodes: &[NodeConfig],
    one: usize,
    other: usize,
) -> Result<StoresFault, AllocError> {
    let path = path_at(nodes, one).unwrap_or("");
    let path = String::from_str(alloc, path)?;
    Ok(StoresFault::Shared(number_of(one), number_of(other), path))
}

/// The number of the node at a place.
pub(crate) fn number_of(place: usize) -> u8 {
    place.saturating_add(1).min(u8::MAX as usize) as u8
}
