//! What a node's store says of itself.

ghost use Rattle.std.specs.Prelude.{◌≡◌, pos, IfErr, IfOk};
ghost use Rattle.sql_records.specs.Stores.{IsLast};
ghost use Rattle.stable_store.specs.declared.fault.StoreFault.TheVariants.{Damaged};
ghost use Rattle.node_stores.specs.Named.{row_of};

use crate::named::named_in;
use crate::store::NodeStore;
use sql_store::{Said, SqlStore, WhoseRow};
use sqlite::Alter;
use stable_store::{StableStore, StoreFault};
use std::alloc::Global;
use whose_stores::{MOST_NODES, Stored, Whose};

/// The last incarnation there is.
const LAST_INCARNATION: i64 = 9_999;

impl NodeStore {
    ghost use Rattle.node_stores.specs.Stores.{is_on_disk};

    /// The store, and what it says of itself: whose it is, what has begun over it, and which incarnations its records name. Damaged if that was never
    /// saved there; Memory and Device as an opening tells them.
    pub fn looked(self, alloc: Global) -> Result<(NodeStore, Stored), StoreFault>
        ensures place { IfOk result (λ looked. is_on_disk looked.0 ≡ is_on_disk self) }
    {
        match self {
            NodeStore::OnDisk(store) => {
                let (store, stored) = looked(store, alloc)?;
                Ok((NodeStore::OnDisk(store), stored))
            }
            NodeStore::InMemory(store) => {
                let (store, stored) = looked(store, alloc)?;
                Ok((NodeStore::InMemory(store), stored))
            }
        }
    }

    /// The store, which says from now on whose it is, and did not before. Memory and Device as an opening tells them.
    pub fn marked(self, alloc: Global, whose: Whose) -> Result<NodeStore, StoreFault>
        ensures place { IfOk result (λ store. is_on_disk store ≡ is_on_disk self) }
    {
        let row = row_of(whose);
        match self {
            NodeStore::OnDisk(store) => Ok(NodeStore::OnDisk(store.marked(alloc, &row)?)),
            NodeStore::InMemory(store) => Ok(NodeStore::InMemory(store.marked(alloc, &row)?)),
        }
    }
}

fn looked<S: Alter + Drop>(
    store: SqlStore<S>,
    alloc: Global,
) -> Result<(SqlStore<S>, Stored), StoreFault> {
    let (mut store, said) = store.said(alloc)?;
    let Said { whose, last } = said;
    let whose = match whose {
        Some(row) => Some(whose_of(row)?),
        None => None,
    };
    let begun = begun_by(last)?;
    let records = store.load()?;
    let named = named_in(&records);
    drop(records);
    Ok((
        store,
        Stored {
            whose,
            begun,
            named,
        },
    ))
}

/// The row as it is stored.
fn row_of(whose: Whose) -> WhoseRow
    ensures { result ≡ row_of whose }
{
    WhoseRow {
        cluster: whose.cluster,
        node: whose.node as i64,
        nodes: whose.nodes as i64,
        at: whose.at as i64,
    }
}

/// What a row says. Damaged if one of its numbers is out of its range.
fn whose_of(row: WhoseRow) -> Result<Whose, StoreFault>
    ensures ok { IfOk result (λ whose. row ≡ row_of whose) }
    ensures refused { IfErr result (λ fault. fault ≡ Damaged) }
{
    let node = node_of(row.node)?;
    let nodes = node_of(row.nodes)?;
    let at = incarnation_of(row.at)?;
    Ok(Whose {
        cluster: row.cluster,
        node,
        nodes,
        at,
    })
}

/// A number of 1 to 9.
fn node_of(number: i64) -> Result<u8, StoreFault>
    ensures ok { IfOk result (λ node. number ≡ pos node) }
    ensures refused { IfErr result (λ fault. fault ≡ Damaged) }
{
    if number < 1 || number > MOST_NODES as i64 {
        return Err(StoreFault::Damaged);
    }
    Ok(number as u8)
}

/// An incarnation, or 0.
fn incarnation_of(number: i64) -> Result<u16, StoreFault>
    ensures ok { IfOk result (λ incarnation. number ≡ pos incarnation) }
    ensures refused { IfErr result (λ fault. fault ≡ Damaged) }
{
    if number < 0 || number > LAST_INCARNATION {
        return Err(StoreFault::Damaged);
    }
    Ok(number as u16)
}

/// The last incarnation, or 0 if none has begun. A row with 0 is damaged.
fn begun_by(last: Option<i64>) -> Result<u16, StoreFault>
    ensures ok { IfOk result (λ begun. IsLast last begun) }
    ensures refused { IfErr result (λ fault. fault ≡ Damaged) }
{
    let Some(number) = last else {
        return Ok(0);
    };
    if number < 1 || number > LAST_INCARNATION {
        return Err(StoreFault::Damaged);
    }
    Ok(number as u16)
}
