//! What a store asks of its connection.

ghost use Rattle.std.specs.Prelude.{◌≡◌, ◌≢◌, ◌≤◌, ◌+◌, ◌⊎◌, ℕ, [], Ok, IfOk, IfErr, OnOk};
ghost use Rattle.sqlite.specs.State.{HasCleanDisk, Survives};
ghost use Rattle.sqlite.specs.Held.{state};
ghost use Rattle.record_rows.specs.Tables.{Layout};
ghost use Rattle.record_rows.specs.Ours.{IsOurs, IsStrange, Stands};
ghost use Rattle.record_rows.specs.declared.fault.Fault.TheVariants.{Shut};
ghost use Rattle.record_rows.specs.declared.fault.ReadFault.TheVariants as unread;
ghost use Rattle.synod_acceptor.specs.Records.{entries_of, record_at};
ghost use Rattle.sql_records.specs.Stores.{HasRecords, IsLast, IsStarted};
ghost use Rattle.sql_records.specs.Calls.{HasNotStarted, HasPutAll, HasPutNext, HasPutRecord, HasStartedAll, HoldsNone, PutsAll, PutsNext, PutsRecord};
ghost use Rattle.sql_records.specs.declared.fault.NextFault.TheVariants.{Damaged, Failed, Incarnations};

use crate::fault::NextFault;
use crate::row::{records_of, row_of, rows_of};
use mc_types::{Incarnation, LAST_INCARNATION};
use record_rows::{
    Fault, ReadFault, put_incarnation, put_slot, put_slots, read_incarnation, read_slots,
};
use sqlite::{Alter, Connection};
use std::alloc::Global;
use synod_acceptor::{Change, Record};

/// All records, by the ids and places of their slots ascending.
pub fn load_records<S: Alter>(
    alloc: Global,
    conn: &mut Connection<S>,
) -> Result<Vec<Record>, ReadFault>
    ensures loaded { HasCleanDisk (state S.Store conn.new) → IfOk result (λ records. (layout : Layout) → IsOurs layout (state S.Store conn.old)
        → HasRecords layout (state S.Store conn.old).now.trees (record_at (entries_of records.items))) }
    ensures damaged { HasCleanDisk (state S.Store conn.new) → result ≡ Err unread.Damaged → HoldsNone (state S.Store conn.old) }
    ensures kept { HasCleanDisk (state S.Store conn.new) → result ≢ Err (unread.Failed Shut) → (layout : Layout) → IsOurs layout (state S.Store conn.old)
        → Stands (state S.Store conn.old) (state S.Store conn.new) }
    ensures survives { Survives (state S.Store conn.old) (state S.Store conn.new) (IsStrange (state S.Store conn.old)) }
{
    let rows = read_slots(alloc, conn)?;
    records_of(alloc, &rows)
}

/// Stores the record in place of that of its slot.
pub fn save_record<S: Alter>(
    alloc: Global,
    conn: &mut Connection<S>,
    kept: &Record,
) -> Result<(), Fault>
    ensures ok { HasCleanDisk (state S.Store conn.new) → OnOk result (HasPutRecord kept.now (state S.Store conn.old) (state S.Store conn.new)) }
    ensures kept { HasCleanDisk (state S.Store conn.new) → IfErr result (λ fault. fault ≢ Shut → (layout : Layout) → IsOurs layout (state S.Store conn.old)
        → Stands (state S.Store conn.old) (state S.Store conn.new)) }
    ensures survives { Survives (state S.Store conn.old) (state S.Store conn.new) (PutsRecord kept.now (state S.Store conn.old)) }
{
    match row_of(alloc, kept) {
        Ok(row) => put_slot(conn, &row),
        Err(_) => Err(Fault::Memory),
    }
}

/// Stores the records of the changes in their order, each in place of that of its slot: all of them, or none. With no changes nothing is done.
pub fn save_records<S: Alter>(
    alloc: Global,
    conn: &mut Connection<S>,
    changes: &[Change],
) -> Result<(), Fault>
    ensures none { changes.now ≡ [] → (result ≡ Ok tt) × (conn.new ≡ conn.old) }
    ensures ok { HasCleanDisk (state S.Store conn.new) → OnOk result (HasPutAll changes.now (state S.Store conn.old) (state S.Store conn.new)) }
    ensures kept { HasCleanDisk (state S.Store conn.new) → IfErr result (λ fault. fault ≢ Shut → (layout : Layout) → IsOurs layout (state S.Store conn.old)
        → Stands (state S.Store conn.old) (state S.Store conn.new)) }
    ensures survives { Survives (state S.Store conn.old) (state S.Store conn.new) (PutsAll changes.now (state S.Store conn.old)) }
{
    if changes.is_empty() {
        return Ok(());
    }
    match rows_of(alloc, changes) {
        Ok(rows) => put_slots(conn, &rows),
        Err(_) => Err(Fault::Memory),
    }
}

/// The incarnation after the last one. It is damaged exactly if that is none.
fn next_after(last: Option<i64>) -> Result<Incarnation, NextFault>
    ensures next { IfOk result (λ next. (started : ℕ) → IsLast last started → next ≡ started + 1) }
    ensures damaged { result ≡ Err Damaged → (started : ℕ) → IsLast last started → ⊥ }
    ensures incarnations { result ≡ Err Incarnations → (started : ℕ) → IsLast last started → 9999 ≤ started }
    ensures faults { IfErr result (λ fault. (fault ≡ Damaged) ⊎ (fault ≡ Incarnations)) }
{
    let started = match last {
        Some(number) => number,
        None => 0,
    };
    if started < 0 || started > LAST_INCARNATION as i64 {
        return Err(NextFault::Damaged);
    }
    if started == 0 && last.is_some() {
        return Err(NextFault::Damaged);
    }
    if started == LAST_INCARNATION as i64 {
        return Err(NextFault::Incarnations);
    }
    Ok(Incarnation::of(started as u16 + 1))
}

/// Stores the incarnation after the last one, and then answers it.
pub fn raise_incarnation<S: Alter>(conn: &mut Connection<S>) -> Result<Incarnation, NextFault>
    ensures ok { HasCleanDisk (state S.Store conn.new) → IfOk result (λ next. HasPutNext next (state S.Store conn.old) (state S.Store conn.new)) }
    ensures damaged { HasCleanDisk (state S.Store conn.new) → result ≡ Err Damaged → HasNotStarted (state S.Store conn.old) }
    ensures incarnations { HasCleanDisk (state S.Store conn.new) → result ≡ Err Incarnations → HasStartedAll (state S.Store conn.old) }
    ensures kept { HasCleanDisk (state S.Store conn.new) → IfErr result (λ fault. fault ≢ Failed Shut → (layout : Layout) → IsOurs layout (state S.Store conn.old)
        → Stands (state S.Store conn.old) (state S.Store conn.new)) }
    ensures survives { Survives (state S.Store conn.old) (state S.Store conn.new) (PutsNext (state S.Store conn.old)) }
{
    let last = match read_incarnation(conn) {
        Ok(last) => last,
        Err(ReadFault::Damaged) => return Err(NextFault::Damaged),
        Err(ReadFault::Failed(fault)) => return Err(NextFault::Failed(fault)),
    };
    let next = next_after(last)?;
    match put_incarnation(conn, last, next.number() as i64) {
        Ok(()) => Ok(next),
        Err(fault) => Err(NextFault::Failed(fault)),
    }
}
