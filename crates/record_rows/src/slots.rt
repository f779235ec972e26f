//! The rows of `slots`.

ghost use Rattle.std.specs.Prelude.{◌≡◌, ◌≢◌, map, IfOk, IfErr, OnOk};
ghost use Rattle.sqlite.specs.State.{HasCleanDisk, Survives};
ghost use Rattle.sqlite.specs.Held.{state};
ghost use Rattle.record_rows.specs.Ours.{IsSettled, IsOurs, Stands, PutsRow, HasPut, HasRead, HoldsNoSlots, IsStrange};
ghost use Rattle.record_rows.specs.Content.{entry_of, AreAscending};
ghost use Rattle.record_rows.specs.declared.fault.Fault.TheVariants.{Shut};
ghost use Rattle.record_rows.specs.declared.fault.ReadFault.TheVariants.{Damaged, Failed};

use crate::fault::{Fault, ReadFault};
use crate::probe::fault_after;
use crate::row::{SlotRow, ascending_rows};
use sqlite::types::ToSql;
use sqlite::{Alter, Connection};
use std::alloc::Global;

pub(crate) const PUT: &str =
    "INSERT INTO slots (id, place, promised, voted, chain) VALUES (?1, ?2, ?3, ?4, ?5) \
    ON CONFLICT (id, place) DO UPDATE SET promised = excluded.promised, voted = excluded.voted, chain = excluded.chain";

const READ: &str = "SELECT rowid, id, place, promised, voted, chain FROM slots ORDER BY id, place";

/// Stores a row in place of the one with its id and place, if there is one, by one statement.
pub fn put_slot<S: Alter>(conn: &mut Connection<S>, row: &SlotRow) -> Result<(), Fault>
    ensures ok { HasCleanDisk (state S.Store conn.new) → OnOk result (HasPut row.now (state S.Store conn.old) (state S.Store conn.new)) }
    ensures kept { HasCleanDisk (state S.Store conn.new) → IfErr result (λ fault. fault ≢ Shut → IsSettled (state S.Store conn.old) → Stands (state S.Store conn.old) (state S.Store conn.new)) }
    ensures survives { Survives (state S.Store conn.old) (state S.Store conn.new) (PutsRow row.now (state S.Store conn.old)) }
{
    let id = (&row.id).to_sql();
    let place = (&row.place).to_sql();
    let promised = (&row.promised).to_sql();
    let voted = (&row.voted).to_sql();
    let chain = (&row.chain).to_sql();
    match conn.execute(PUT, &[id, place, promised, voted, chain]) {
        Ok(_) => Ok(()),
        Err(error) => Err(fault_after(conn, error)),
    }
}

/// All rows of `slots`, by id and place ascending. It refuses, as damaged, a rowid, id, place, promise or vote that is no
/// integer, a chain that is no blob, and two rows with one id and place.
pub fn read_slots<S: Alter>(
    alloc: Global,
    conn: &mut Connection<S>,
) -> Result<Vec<SlotRow>, ReadFault>
    ensures read { HasCleanDisk (state S.Store conn.new) → IfOk result (λ rows. HasRead (map entry_of rows.items) (state S.Store conn.old)) }
    ensures ascending { IfOk result (λ rows. AreAscending (map entry_of rows.items)) }
    ensures damaged { HasCleanDisk (state S.Store conn.new) → result ≡ Err Damaged → HoldsNoSlots (state S.Store conn.old) }
    ensures kept { HasCleanDisk (state S.Store conn.new) → result ≢ Err (Failed Shut) → (layout : _) → IsOurs layout (state S.Store conn.old) → Stands (state S.Store conn.old) (state S.Store conn.new) }
    ensures survives { Survives (state S.Store conn.old) (state S.Store conn.new) (IsStrange (state S.Store conn.old)) }
{
    match conn.query_all(READ, &[]) {
        Ok(shown) => ascending_rows(alloc, shown.as_slice()),
        Err(error) => Err(ReadFault::Failed(fault_after(conn, error))),
    }
}
