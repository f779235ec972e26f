//! What is found where the nodes of a configuration keep their records, before anything is made or changed there.

ghost use Rattle.std.specs.Prelude.{◌≡◌, IfOk, is_some};
ghost use Rattle.cluster_stores.specs.Places.{AreSeenWhereTold, has_path, is_seen_on_disk};

use crate::fault::StoresFault;
use crate::opening::number_of;
use crate::unopened::unopened;
use config::NodeConfig;
use mc_types::LAST_INCARNATION;
use node_stores::NodeStore;
use stable_store::StoreFault;
use std::alloc::Global;
use std::fs;
use std::io::ErrorKind;
use std::rt::{Files, HostRuntime};
use whose_stores::Found;

/// Where a node is to keep its records.
#[derive(Drop)]
pub(crate) enum Seen<'a> {
    /// In memory.
    Memory,
    /// In the file of this path, which is missing or has no octets.
    New(&'a str),
    /// In this store, which is there, and open.
    There(NodeStore),
}

/// What is found at each node, that of node 1 first, and where it is to keep its records.
#[derive(Drop)]
pub(crate) struct Looked<'a> {
    pub(crate) found: Vec<Found>,
    pub(crate) seen: Vec<Seen<'a>>,
}

/// Looks where each node keeps its records. What is missing or has no octets stays so; what is there is opened. Store tells of the first that can't be
/// opened, says of itself what was never saved there, or has no incarnation left; Unopened of a file that the device refuses.
pub(crate) fn look<'a, R: Files>(
    rt: &R,
    host: &HostRuntime,
    alloc: Global,
    nodes: &'a [NodeConfig],
) -> Result<Looked<'a>, StoresFault>
    ensures { IfOk result (λ looked. AreSeenWhereTold nodes.now looked.seen.items) }
{
    let mut looked = Looked {
        found: Vec::new(alloc),
        seen: Vec::new(alloc),
    };
    for node in nodes {
        match look_at(rt, host, alloc, node) {
            Ok((found, seen)) => {
                looked.found.push(found)?;
                looked.seen.push(seen)?;
            }
            Err(fault) => {
                let number = number_of(looked.found.len());
                return Err(unopened(host, number, path_of(node), fault)?);
            }
        }
    }
    Ok(looked)
}

/// Where a node keeps its records, if not in memory.
pub(crate) fn path_of(node: &NodeConfig) -> Option<&str>
    ensures { is_some result ≡ has_path node.now }
{
    match &node.store {
        Some(path) => Some(path.as_str()),
        None => None,
    }
}

/// What is found at a node, and where it is to keep its records.
fn look_at<'a, R: Files>(
    rt: &R,
    host: &HostRuntime,
    alloc: Global,
    node: &'a NodeConfig,
) -> Result<(Found, Seen<'a>), StoreFault>
    ensures { IfOk result (λ looked. is_seen_on_disk looked.1 ≡ has_path node.now) }
{
    let Some(path) = path_of(node) else {
        return Ok((Found::Memory, Seen::Memory));
    };
    if is_new(rt, path) {
        return Ok((Found::New, Seen::New(path)));
    }
    let store = NodeStore::open(host, alloc, Some(path))?;
    let (store, stored) = store.looked(alloc)?;
    if stored.begun >= LAST_INCARNATION {
        return Err(StoreFault::Incarnations);
    }
    Ok((Found::Stored(stored), Seen::There(store)))
}

/// Whether there is no file at the path, or one without an octet. Of what the system does not tell the opening will.
fn is_new<R: Files>(rt: &R, path: &str) -> bool {
    match fs::metadata(rt, path) {
        Ok(metadata) => metadata.is_file() && metadata.len() == 0,
        Err(error) => error.kind() == ErrorKind::NotFound,
    }
}
