//! Several rows of `slots` at once.

ghost use Rattle.std.specs.Prelude.{◌≡◌, ◌≢◌, [], ◌∷◌, false, IfErr, IsTrue, Ok, OnErr, OnOk};
ghost use Rattle.sqlite.specs.State.{HasCleanDisk, KeepsCommit, Survives};
ghost use Rattle.sqlite.specs.Held.{state};
ghost use Rattle.record_rows.specs.Group.{HasPutInside, HasPutRows, PutsRows};
ghost use Rattle.record_rows.specs.Ours.{IsSettled, Stands};
ghost use Rattle.record_rows.specs.declared.fault.Fault.TheVariants.{Shut};

use crate::fault::Fault;
use crate::probe::fault_after;
use crate::row::SlotRow;
use crate::slots::PUT;
use sqlite::types::ToSql;
use sqlite::{Alter, Connection, Error, Transaction};

/// Puts a row into the database of a transaction.
fn put_inside<S: Alter>(work: &mut Transaction<'_, S>, row: &SlotRow) -> Result<(), Error>
    ensures same_reference { work.new.conn.ghost_name ≡ work.old.conn.ghost_name }
    ensures ok { HasCleanDisk (state S.Store work.new.conn.now) → IsTrue (state S.Store work.old.conn.now).in_transaction
        → OnOk result (HasPutInside (row.now ∷ []) (state S.Store work.old.conn.now) (state S.Store work.new.conn.now)) }
    ensures kept { HasCleanDisk (state S.Store work.new.conn.now) → IsTrue (state S.Store work.old.conn.now).in_transaction
        → KeepsCommit (state S.Store work.old.conn.now) (state S.Store work.new.conn.now) }
    ensures survives { Survives (state S.Store work.old.conn.now) (state S.Store work.new.conn.now) (λ _. ⊥) }
{
    let id = (&row.id).to_sql();
    let place = (&row.place).to_sql();
    let promised = (&row.promised).to_sql();
    let voted = (&row.voted).to_sql();
    let chain = (&row.chain).to_sql();
    match work.execute(PUT, &[id, place, promised, voted, chain]) {
        Ok(_) => Ok(()),
        Err(error) => Err(error),
    }
}

/// Puts rows into the database of a transaction, in their order, up to the first that fails.
fn put_rows<S: Alter>(work: &mut Transaction<'_, S>, rows: &[SlotRow]) -> Result<(), Error>
    ensures same_reference { work.new.conn.ghost_name ≡ work.old.conn.ghost_name }
    ensures ok { HasCleanDisk (state S.Store work.new.conn.now) → IsTrue (state S.Store work.old.conn.now).in_transaction
        → OnOk result (HasPutInside rows.now (state S.Store work.old.conn.now) (state S.Store work.new.conn.now)) }
    ensures kept { HasCleanDisk (state S.Store work.new.conn.now) → IsTrue (state S.Store work.old.conn.now).in_transaction
        → KeepsCommit (state S.Store work.old.conn.now) (state S.Store work.new.conn.now) }
    ensures survives { Survives (state S.Store work.old.conn.now) (state S.Store work.new.conn.now) (λ _. ⊥) }
{
    for row in rows {
        put_inside(work, row)?;
    }
    Ok(())
}

/// Puts all of the rows, and undoes what was put if one of them is not.
fn put_together<S: Alter>(conn: &mut Connection<S>, rows: &[SlotRow]) -> Result<(), Error>
    requires { conn.old.in_transaction ≡ false }
    ensures ok { HasCleanDisk (state S.Store conn.new) → OnOk result (HasPutRows rows.now (state S.Store conn.old) (state S.Store conn.new)) }
    ensures kept { HasCleanDisk (state S.Store conn.new) → OnErr result (IsSettled (state S.Store conn.old) → IsTrue (state S.Store conn.new).is_open
        → Stands (state S.Store conn.old) (state S.Store conn.new)) }
    ensures survives { Survives (state S.Store conn.old) (state S.Store conn.new) (PutsRows rows.now (state S.Store conn.old)) }
{
    let mut work = conn.transaction();
    put_rows(&mut work, rows)?;
    work.commit()
}

/// Stores the rows in their order, each in place of the one with its id and place, if there is one, by one transaction: all of them, or none. A connection that is
/// in a transaction is refused as `Undone`; with no rows nothing is done.
pub fn put_slots<S: Alter>(conn: &mut Connection<S>, rows: &[SlotRow]) -> Result<(), Fault>
    ensures none { rows.now ≡ [] → (result ≡ Ok tt) × (conn.new ≡ conn.old) }
    ensures ok { HasCleanDisk (state S.Store conn.new) → OnOk result (HasPutRows rows.now (state S.Store conn.old) (state S.Store conn.new)) }
    ensures kept { HasCleanDisk (state S.Store conn.new) → IfErr result (λ fault. fault ≢ Shut → IsSettled (state S.Store conn.old)
        → Stands (state S.Store conn.old) (state S.Store conn.new)) }
    ensures survives { Survives (state S.Store conn.old) (state S.Store conn.new) (PutsRows rows.now (state S.Store conn.old)) }
{
    if rows.is_empty() {
        return Ok(());
    }
    if !conn.is_autocommit() {
        return Err(Fault::Undone);
    }
    match put_together(conn, rows) {
        Ok(()) => Ok(()),
        Err(error) => Err(fault_after(conn, error)),
    }
}
