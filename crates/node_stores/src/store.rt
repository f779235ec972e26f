//! A node's store, on disk or in memory.

use mc_types::Incarnation;
use noting_store::{Note, NotingStore};
use sql_store::SqlStore;
use sqlite::{File, FileStore, MemStore};
use stable_store::{GroupStore, StableStore, StoreFault};
use std::alloc::Global;
use std::rt::HostRuntime;
use synod_acceptor::{Change, Record};

/// A node's store: on disk if its configuration names a file, and in memory else.
#[derive(Drop)]
pub enum NodeStore {
    /// What it stores is there when the program has ended.
    OnDisk(SqlStore<FileStore<File>>),
    /// It ends with the program.
    InMemory(SqlStore<MemStore>),
}

impl NodeStore {
    ghost use Rattle.std.specs.Prelude.{◌≡◌, ◌⊎◌, IfErr, IfNone, IfOk, IfSome, is_some};
    ghost use Rattle.stable_store.specs.declared.fault.StoreFault.TheVariants.{Device, Memory};
    ghost use Rattle.node_stores.specs.Stores.{OpensInMemory, OpensOnDisk, is_on_disk};

    /// The store in the file of this path and the log beside it, which are made if they are absent; with no path, a new store in memory, which is refused for
    /// want of memory alone. Of a path Memory for want of memory; else Device: the file can't be opened, has another table, or failed, or after want of memory
    /// nothing says that the connection is open. Of what a file holds that is there nothing is said before it is loaded.
    pub fn open(
        rt: &HostRuntime,
        alloc: Global,
        path: Option<&str>,
    ) -> Result<NodeStore, StoreFault>
        ensures on_disk { IfSome path.entry (λ _. IfOk result OpensOnDisk) }
        ensures in_memory { IfNone path.entry (IfOk result OpensInMemory) }
        ensures wants { IfNone path.entry (IfErr result (λ fault. fault ≡ Memory)) }
        ensures place { IfOk result (λ store. is_on_disk store ≡ is_some path.entry) }
        ensures refused { IfErr result (λ fault. (fault ≡ Device) ⊎ (fault ≡ Memory)) }
    {
        match path {
            Some(path) => Ok(NodeStore::OnDisk(SqlStore::open_path(rt, alloc, path)?)),
            None => Ok(NodeStore::InMemory(SqlStore::in_memory(alloc)?)),
        }
    }
}

impl StableStore for NodeStore {
    ghost use Rattle.node_stores.specs.Laws.{found_in, found_started_in, settled_in, settled_started_in};
    ghost use Rattle.node_stores.specs.Stores.{kept_in};

    ghost stored = { kept_in };

    ghost found = { found_in };

    ghost found_started = { found_started_in };

    ghost settled = { settled_in };

    ghost settled_started = { settled_started_in };

    fn load(&mut self) -> Result<Vec<Record>, StoreFault> {
        match self {
            NodeStore::OnDisk(store) => store.load(),
            NodeStore::InMemory(store) => store.load(),
        }
    }

    fn save(&mut self, change: &Change) -> Result<(), StoreFault> {
        match self {
            NodeStore::OnDisk(store) => store.save(change),
            NodeStore::InMemory(store) => store.save(change),
        }
    }

    fn next_incarnation(&mut self) -> Result<Incarnation, StoreFault> {
        match self {
            NodeStore::OnDisk(store) => store.next_incarnation(),
            NodeStore::InMemory(store) => store.next_incarnation(),
        }
    }

    fn failures(&self) -> u64 {
        match self {
            NodeStore::OnDisk(store) => store.failures(),
            NodeStore::InMemory(store) => store.failures(),
        }
    }
}

impl GroupStore for NodeStore {
    fn save_all(&mut self, changes: &[Change]) -> Result<(), StoreFault> {
        match self {
            NodeStore::OnDisk(store) => store.save_all(changes),
            NodeStore::InMemory(store) => store.save_all(changes),
        }
    }
}

impl NotingStore for NodeStore {
    ghost use Rattle.node_stores.specs.Stores.{may_know_in};

    ghost may_know = { may_know_in };

    /// A new store in memory, and a file of an earlier program, keep no notes: nothing is done.
    fn note(&mut self, notes: &[Note]) -> Result<(), StoreFault> {
        match self {
            NodeStore::OnDisk(store) => store.note(notes),
            NodeStore::InMemory(store) => store.note(notes),
        }
    }

    fn load_noted(&mut self, nodes: u8) -> Result<Vec<Note>, StoreFault> {
        match self {
            NodeStore::OnDisk(store) => store.load_noted(nodes),
            NodeStore::InMemory(store) => store.load_noted(nodes),
        }
    }
}
