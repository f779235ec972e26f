//! What a store asks of its connection about notes.

ghost use Rattle.std.specs.Prelude.{◌≡◌, ◌≢◌, [], IfErr, IfOk, Ok, OnOk};
ghost use Rattle.mc_model.specs.synod.Lists.{In};
ghost use Rattle.sqlite.specs.Held.{state};
ghost use Rattle.sqlite.specs.State.{HasCleanDisk, Survives};
ghost use Rattle.record_rows.specs.Ours.{IsOurs, IsStrange, Stands};
ghost use Rattle.record_rows.specs.Tables.{Layout};
ghost use Rattle.record_rows.specs.declared.fault.Fault.TheVariants.{Shut};
ghost use Rattle.record_rows.specs.declared.fault.ReadFault.TheVariants.{Failed};
ghost use Rattle.noting_store.specs.Noted.{AreApart, AreOf, Noted, noted_in};
ghost use Rattle.sql_records.specs.Noting.{HasNote, HasPutNotes, PutsNotes};

use crate::note_row::{notes_in, rows_for};
use noting_store::Note;
use record_rows::{Fault, ReadFault, has_known, put_known, read_known};
use sqlite::{Alter, Connection};
use std::alloc::Global;

/// Stores the notes, each in place of that of its message, by one transaction: all of them, or none. With no notes, and in a database without the table `known`,
/// nothing is done.
pub fn save_notes<S: Alter>(
    alloc: Global,
    conn: &mut Connection<S>,
    notes: &[Note],
) -> Result<(), Fault>
    ensures none { notes.now ≡ [] → (result ≡ Ok tt) × (conn.new ≡ conn.old) }
    ensures ok { HasCleanDisk (state S.Store conn.new) → OnOk result (HasPutNotes (noted_in notes.now) (state S.Store conn.old) (state S.Store conn.new)) }
    ensures kept { HasCleanDisk (state S.Store conn.new) → IfErr result (λ fault. fault ≢ Shut → (layout : Layout) → IsOurs layout (state S.Store conn.old)
        → Stands (state S.Store conn.old) (state S.Store conn.new)) }
    ensures survives { Survives (state S.Store conn.old) (state S.Store conn.new) (PutsNotes (noted_in notes.now) (state S.Store conn.old)) }
{
    if notes.is_empty() || !has_known(conn) {
        return Ok(());
    }
    match rows_for(alloc, notes) {
        Ok(rows) => put_known(conn, &rows),
        Err(_) => Err(Fault::Memory),
    }
}

/// The notes that are stored, of a cluster of so many nodes, by the ids of their messages ascending; none in a database without the table `known`. It refuses, as
/// damaged, a row that is no note of such a cluster.
pub fn load_notes<S: Alter>(
    alloc: Global,
    conn: &mut Connection<S>,
    nodes: u8,
) -> Result<Vec<Note>, ReadFault>
    ensures found { HasCleanDisk (state S.Store conn.new) → IfOk result (λ notes. (layout : Layout) → IsOurs layout (state S.Store conn.old)
        → (n : Noted) → In n (noted_in notes.items) → HasNote (state S.Store conn.old).now.trees n) }
    ensures nodes { IfOk result (λ notes. AreOf nodes notes.items) }
    ensures apart { IfOk result (λ notes. AreApart (noted_in notes.items)) }
    ensures kept { HasCleanDisk (state S.Store conn.new) → result ≢ Err (Failed Shut) → (layout : Layout) → IsOurs layout (state S.Store conn.old)
        → Stands (state S.Store conn.old) (state S.Store conn.new) }
    ensures survives { Survives (state S.Store conn.old) (state S.Store conn.new) (IsStrange (state S.Store conn.old)) }
{
    if !has_known(conn) {
        return Ok(Vec::new(alloc));
    }
    let rows = read_known(alloc, conn)?;
    notes_in(alloc, nodes, &rows)
}
