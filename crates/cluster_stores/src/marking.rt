//! Making the stores of a cluster, and writing into them whose they are.

ghost use Rattle.std.specs.Prelude.{◌≡◌, IfOk, map};
ghost use Rattle.node_stores.specs.Stores.{is_on_disk};
ghost use Rattle.cluster_stores.specs.Places.{is_seen_on_disk};

use crate::fault::StoresFault;
use crate::looking::{Looked, Seen, path_of};
use crate::opening::number_of;
use crate::private::make_private;
use crate::unopened::unopened;
use config::NodeConfig;
use node_stores::NodeStore;
use stable_store::StoreFault;
use std::alloc::{AllocError, Global};
use std::random::RandomSource;
use std::rt::HostRuntime;
use whose_stores::{Found, Whose};

/// The stores of all nodes, that of node 1 first: those that were looked at, and the others, which are made. Each in a file says from now on whose it is: of
/// the cluster that the first one names, or of one whose name is drawn. Unopened or Store tell of the first that can't be made or written.
pub(crate) fn make_stores(
    host: &HostRuntime,
    alloc: Global,
    nodes: &[NodeConfig],
    looked: Looked<'_>,
) -> Result<Vec<NodeStore>, StoresFault>
    ensures { IfOk result (λ stores. map is_on_disk stores.items ≡ map is_seen_on_disk looked.entry.seen.items) }
{
    let Looked { found, seen } = looked;
    let cluster = match named(&found) {
        Some(cluster) => cluster,
        None => drawn(host)?,
    };
    let mut stores = Vec::with_capacity(alloc, nodes.len())?;
    for place in seen {
        let at = stores.len();
        let lacks = lacking(&found, at).map(|begun| Whose {
            cluster,
            node: number_of(at),
            nodes: number_of(nodes.len().saturating_sub(1)),
            at: begun,
        });
        match made(host, alloc, place, lacks) {
            Ok(store) => stores.push(store)?,
            Err(fault) => return Err(unmade(host, nodes, at, fault)?),
        }
    }
    Ok(stores)
}

/// Why there is no store of the node at a place.
fn unmade(
    host: &HostRuntime,
    nodes: &[NodeConfig],
    place: usize,
    fault: StoreFault,
) -> Result<StoresFault, AllocError> {
    let path = match nodes.get(place) {
        Some(node) => path_of(node),
        None => None,
    };
    unopened(host, number_of(place), path, fault)
}

/// The store of a node, which is made if it is not there, and says whose it is, if it lacks that.
fn made(
    host: &HostRuntime,
    alloc: Global,
    seen: Seen<'_>,
    lacks: Option<Whose>,
) -> Result<NodeStore, StoreFault>
    ensures { IfOk result (λ store. is_on_disk store ≡ is_seen_on_disk seen.entry) }
{
    let store = opened(host, alloc, seen)?;
    match lacks {
        Some(whose) => store.marked(alloc, whose),
        None => Ok(store),
    }
}

/// The store that is there, or a new one: in the file of a path, which its owner alone may read, or in memory.
fn opened(host: &HostRuntime, alloc: Global, seen: Seen<'_>) -> Result<NodeStore, StoreFault>
    ensures { IfOk result (λ store. is_on_disk store ≡ is_seen_on_disk seen.entry) }
{
    match seen {
        Seen::There(store) => Ok(store),
        Seen::Memory => NodeStore::open(host, alloc, None),
        Seen::New(path) => {
            // If it can't be made, it can't be opened.
            let _ = make_private(host, path);
            NodeStore::open(host, alloc, Some(path))
        }
    }
}

/// The cluster that the first store names which says whose it is.
fn named(found: &[Found]) -> Option<i64> {
    for one in found {
        if let Found::Stored(stored) = one {
            if let Some(whose) = stored.whose {
                return Some(whose.cluster);
            }
        }
    }
    None
}

/// The incarnation that has begun last at the node at a place, or 0, if it has a file that does not say whose it is.
fn lacking(found: &[Found], place: usize) -> Option<u16> {
    match found.get(place) {
        Some(Found::New) => Some(0),
        Some(Found::Stored(stored)) if stored.whose.is_none() => Some(stored.begun),
        _ => None,
    }
}

/// A name for a cluster.
fn drawn(host: &HostRuntime) -> Result<i64, StoresFault> {
    let mut octets = [0; 8];
    match host.fill_bytes(&mut octets) {
        Ok(()) => Ok(i64::from_be_bytes(octets)),
        Err(_) => Err(StoresFault::Random),
    }
}
