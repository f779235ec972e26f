//! A node's store on disk.

use crate::filling::fill_tables;
use crate::order::Order;
use crate::settling::{count, settle};
use mc_types::Incarnation;
use noting_store::{Note, NotingStore};
use record_rows::ReadFault;
use sql_records::{
    NextFault, load_notes, load_records, raise_incarnation, save_notes, save_record, save_records,
};
use sqlite::{Alter, Connection, Error, ErrorCode, File, FileStore, MemStore};
use sqlite_trees::store::Store;
use stable_store::{GroupStore, StableStore, StoreFault};
use std::alloc::Global;
use std::marker::Model;
use std::rt::HostRuntime;
use synod_acceptor::{Change, Record};

/// A node's store over a connection of `sqlite`: the records of its acceptor are the rows of `slots`, and its last incarnation is that
/// of `life`.
///
/// After a fault after which the connection may be shut it is spent: from then on each call answers Device, and counts it as a failure,
/// until its connection is adopted anew.
pub struct SqlStore<S: Alter> {
    conn: Connection<S>,
    order: Order,
    spent: bool,
    failed: u64,
    alloc: Global,
}

impl<S: Alter + Drop> Drop for SqlStore<S> {
    fn drop(self) {
        let SqlStore {
            conn: _,
            order: _,
            spent: _,
            failed: _,
            alloc: _,
        } = self;
    }
}

impl<S: Alter> Model for SqlStore<S> {
    ghost use Rattle.sql_store.specs.Sql.{IsKept, Sql, sql_code};
    ghost use Rattle.sql_store.specs.Orders.{layout_of};

    ghost Value = { Sql S };

    ghost coded = { sql_code S.code };

    ghost view = { λ s. record { conn = s.conn; layout = layout_of s.order; spent = s.spent; failed = s.failed } };

    ghost invariant = { λ s. IsKept S.Store s.conn (layout_of s.order) s.spent };
}

impl<S: Alter> SqlStore<S> {
    ghost use Rattle.std.specs.Prelude.{◌≡◌, ◌⊎◌, ℕ, false, IfErr, IfOk};
    ghost use Rattle.mc_model.specs.synod.Acceptor.{Records};
    ghost use Rattle.sqlite.specs.Held.{state};
    ghost use Rattle.sqlite.specs.State.{HasCleanDisk, Survives};
    ghost use Rattle.record_rows.specs.Ours.{Stands};
    ghost use Rattle.record_rows.specs.Tables.{Present, schema_in};
    ghost use Rattle.stable_store.specs.declared.fault.StoreFault.TheVariants.{Device, Memory};
    ghost use Rattle.sql_store.specs.Adopted.{Adds, FoundRecords, FoundStarted, IsFilled, IsPresent};
    ghost use Rattle.sql_store.specs.Sql.{stored_in};

    /// A store over the connection, with what its database holds; a table that is absent is made, and empty. With the fault it hands
    /// the connection back: Memory for want of memory; Device for a connection that is shut or in a transaction, for a database that
    /// has another object or a table of another form, and for a disk that failed. If there is no memory to ask whether the connection is
    /// open, it is asked once more; if there is none again, nothing says that it is open, and it is Device.
    pub fn adopt(
        alloc: Global,
        mut conn: Connection<S>,
    ) -> Result<SqlStore<S>, (StoreFault, Connection<S>)>
        ensures fresh { IfOk result (λ store. (store.spent ≡ false) × (store.failed ≡ 0)) }
        ensures filled { IfOk result (λ store. HasCleanDisk (state S.Store store.conn)
            → IsFilled store.layout (state S.Store conn) (state S.Store store.conn)) }
        ensures known { IfOk result (λ store. HasCleanDisk (state S.Store store.conn)
            → (present : Present) × IsPresent present (state S.Store conn)) }
        ensures records { IfOk result (λ store. (present : Present) (records : Records) → (state S.Store conn).now.schema ≡ schema_in present
            → FoundRecords present (state S.Store conn).now.trees records → (stored_in S.Store store).holds records) }
        ensures started { IfOk result (λ store. (present : Present) (started : ℕ) → (state S.Store conn).now.schema ≡ schema_in present
            → FoundStarted present (state S.Store conn).now.trees started → (stored_in S.Store store).has_started started) }
        ensures survives { IfOk result (λ store. Survives (state S.Store conn) (state S.Store store.conn) (Adds (state S.Store conn))) }
        ensures refused { IfErr result (λ refusal. (refusal.0 ≡ Device) ⊎ (refusal.0 ≡ Memory)) }
        ensures handed { IfErr result (λ refusal. Survives (state S.Store conn) (state S.Store refusal.1) (Adds (state S.Store conn))) }
        ensures kept { IfErr result (λ refusal. HasCleanDisk (state S.Store refusal.1) → refusal.0 ≡ Memory
            → Stands (state S.Store conn) (state S.Store refusal.1)) }
    {
        match fill_tables(alloc, &mut conn) {
            Ok(order) => Ok(SqlStore {
                conn,
                order,
                spent: false,
                failed: 0,
                alloc,
            }),
            Err(fault) => Err((fault, conn)),
        }
    }

    /// Its connection, as the last call left it.
    pub fn into_connection(self) -> Connection<S>
        ensures { result ≡ self.conn }
    {
        let SqlStore {
            conn: left,
            order: _,
            spent: _,
            failed: _,
            alloc: _,
        } = self;
        left
    }
}

impl SqlStore<MemStore> {
    ghost use Rattle.std.specs.Prelude.{◌≡◌, IfErr, IfOk};
    ghost use Rattle.sqlite.specs.Steps.{over_memory};
    ghost use Rattle.stable_store.specs.declared.fault.StoreFault.TheVariants.{Memory};
    ghost use Rattle.sql_store.specs.Adopted.{no_records};
    ghost use Rattle.sql_store.specs.Sql.{stored_in};

    /// A new store in memory: no record, and no incarnation. It ends with the program. A refusal is want of memory.
    pub fn in_memory(alloc: Global) -> Result<SqlStore<MemStore>, StoreFault>
        ensures records { IfOk result (λ store. (stored_in over_memory store).holds no_records) }
        ensures started { IfOk result (λ store. (stored_in over_memory store).has_started 0) }
        ensures refused { IfErr result (λ fault. fault ≡ Memory) }
    {
        let conn = Connection::open_in_memory(alloc)?;
        match SqlStore::adopt(alloc, conn) {
            Ok(store) => Ok(store),
            Err(_) => Err(StoreFault::Memory),
        }
    }
}

impl SqlStore<FileStore<File>> {
    ghost use Rattle.std.specs.Prelude.{◌≡◌, ◌⊎◌, false, IfErr, IfOk};
    ghost use Rattle.sqlite.specs.Files.{file_state};
    ghost use Rattle.sqlite.specs.State.{HasCleanDisk};
    ghost use Rattle.record_rows.specs.Ours.{IsOurs};
    ghost use Rattle.stable_store.specs.declared.fault.StoreFault.TheVariants.{Device, Memory};

    /// The store in the file of this path and the log beside it, which are made if they are absent. Memory for want of memory, as `adopt`
    /// tells it; else Device. Of what a file holds that is there nothing is said before it is loaded.
    pub fn open_path(
        rt: &HostRuntime,
        alloc: Global,
        path: &str,
    ) -> Result<SqlStore<FileStore<File>>, StoreFault>
        ensures fresh { IfOk result (λ store. (store.spent ≡ false) × (store.failed ≡ 0)) }
        ensures ours { IfOk result (λ store. HasCleanDisk (file_state store.conn) → IsOurs store.layout (file_state store.conn)) }
        ensures refused { IfErr result (λ fault. (fault ≡ Device) ⊎ (fault ≡ Memory)) }
    {
        let conn = match Connection::open(rt, path) {
            Ok(conn) => conn,
            Err(Error::SqliteFailure(ErrorCode::OutOfMemory)) => return Err(StoreFault::Memory),
            Err(_) => return Err(StoreFault::Device),
        };
        match SqlStore::adopt(alloc, conn) {
            Ok(store) => Ok(store),
            Err((fault, _)) => Err(fault),
        }
    }
}

impl<S: Alter> StableStore for SqlStore<S> {
    ghost use Rattle.sqlite.specs.Held.{state};
    ghost use Rattle.sql_store.specs.Sql.{stored_in};
    ghost use Rattle.sql_records.proofs.Laws.{found_at, found_started_at, settled_at, settled_started_at};

    ghost stored = { λ s. stored_in S.Store s };

    ghost found = { λ s records clean holds. found_at s.layout (state ⟦<S as Store>⟧ s.conn) s.spent s.failed (S.stays s.conn.store) records clean holds };

    ghost found_started = { λ s started clean holds.
        found_started_at s.layout (state ⟦<S as Store>⟧ s.conn) s.spent s.failed (S.stays s.conn.store) started clean holds };

    ghost settled = { λ s records left holds found.
        settled_at s.layout (state ⟦<S as Store>⟧ s.conn) s.spent s.failed (S.settled s.conn.store) records left holds found };

    ghost settled_started = { λ s started left holds found.
        settled_started_at s.layout (state ⟦<S as Store>⟧ s.conn) s.spent s.failed (S.settled s.conn.store) started left holds found };

    fn load(&mut self) -> Result<Vec<Record>, StoreFault> {
        if self.spent {
            return Err(count(&mut self.failed));
        }
        match load_records(self.alloc, &mut self.conn) {
            Ok(records) => Ok(records),
            Err(ReadFault::Damaged) => Err(StoreFault::Damaged),
            Err(ReadFault::Failed(fault)) => Err(settle(&mut self.spent, &mut self.failed, fault)),
        }
    }

    fn save(&mut self, change: &Change) -> Result<(), StoreFault> {
        if self.spent {
            return Err(count(&mut self.failed));
        }
        match save_record(self.alloc, &mut self.conn, &change.after) {
            Ok(()) => Ok(()),
            Err(fault) => Err(settle(&mut self.spent, &mut self.failed, fault)),
        }
    }

    fn next_incarnation(&mut self) -> Result<Incarnation, StoreFault> {
        if self.spent {
            return Err(count(&mut self.failed));
        }
        match raise_incarnation(&mut self.conn) {
            Ok(next) => Ok(next),
            Err(NextFault::Damaged) => Err(StoreFault::Damaged),
            Err(NextFault::Incarnations) => Err(StoreFault::Incarnations),
            Err(NextFault::Failed(fault)) => Err(settle(&mut self.spent, &mut self.failed, fault)),
        }
    }

    fn failures(&self) -> u64 {
        self.failed
    }
}

impl<S: Alter> GroupStore for SqlStore<S> {
    fn save_all(&mut self, changes: &[Change]) -> Result<(), StoreFault> {
        if changes.is_empty() {
            return Ok(());
        }
        if self.spent {
            return Err(count(&mut self.failed));
        }
        match save_records(self.alloc, &mut self.conn, changes) {
            Ok(()) => Ok(()),
            Err(fault) => Err(settle(&mut self.spent, &mut self.failed, fault)),
        }
    }
}

impl<S: Alter> NotingStore for SqlStore<S> {
    ghost use Rattle.sqlite.specs.Held.{state};
    ghost use Rattle.sql_records.specs.Noting.{may_know_over};

    ghost may_know = { λ s n. may_know_over (state S.Store s.conn) n };

    /// A database without the table `known`, as of an earlier program, keeps no notes: nothing is done.
    fn note(&mut self, notes: &[Note]) -> Result<(), StoreFault> {
        if notes.is_empty() {
            return Ok(());
        }
        if self.spent {
            return Err(count(&mut self.failed));
        }
        match save_notes(self.alloc, &mut self.conn, notes) {
            Ok(()) => Ok(()),
            Err(fault) => Err(settle(&mut self.spent, &mut self.failed, fault)),
        }
    }

    fn load_noted(&mut self, nodes: u8) -> Result<Vec<Note>, StoreFault> {
        if self.spent {
            return Err(count(&mut self.failed));
        }
        match load_notes(self.alloc, &mut self.conn, nodes) {
            Ok(notes) => Ok(notes),
            Err(ReadFault::Damaged) => Err(StoreFault::Damaged),
            Err(ReadFault::Failed(fault)) => Err(settle(&mut self.spent, &mut self.failed, fault)),
        }
    }
}
