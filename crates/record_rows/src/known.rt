//! The rows of `known`.

ghost use Rattle.std.specs.Prelude.{◌≡◌, ◌≢◌, ◌↔◌, [], ◌∷◌, false, IfErr, IfOk, IsTrue, Ok, OnErr, OnOk};
ghost use Rattle.sqlite.specs.State.{HasCleanDisk, KeepsCommit, Survives};
ghost use Rattle.sqlite.specs.Held.{state};
ghost use Rattle.record_rows.specs.Ours.{IsOurs, IsSettled, Stands};
ghost use Rattle.record_rows.specs.declared.fault.Fault.TheVariants.{Shut};
ghost use Rattle.record_rows.specs.declared.fault.ReadFault.TheVariants.{Failed};
ghost use Rattle.record_rows.specs.Known.{HasKnown, HasPutInside, HasPutKnown, HasReadKnown, LacksKnown, PutsKnown, StandsAt, known_in};

use crate::fault::{Fault, ReadFault};
use crate::known_row::{KnownRow, known_rows};
use crate::probe::fault_after;
use sqlite::types::ToSql;
use sqlite::{Alter, Connection, Error, Transaction};
use sqlite_schema::schema::Table;
use std::alloc::Global;

const PUT: &str =
    "INSERT OR REPLACE INTO known (id, place, voted, voters, chain) VALUES (?1, ?2, ?3, ?4, ?5)";

const READ: &str = "SELECT id, place, voted, voters, chain FROM known ORDER BY id";

/// The trees in which the rows of the two tables stand.
const WHOSE_TREE: u32 = 3;

const KNOWN_TREE: u32 = 4;

/// Puts a row into the database of a transaction.
fn put_inside<S: Alter>(work: &mut Transaction<'_, S>, row: &KnownRow) -> Result<(), Error>
    ensures same_reference { work.new.conn.ghost_name ≡ work.old.conn.ghost_name }
    ensures ok { HasCleanDisk (state S.Store work.new.conn.now) → IsTrue (state S.Store work.old.conn.now).in_transaction
        → OnOk result (HasPutInside (row.now ∷ []) (state S.Store work.old.conn.now) (state S.Store work.new.conn.now)) }
    ensures kept { HasCleanDisk (state S.Store work.new.conn.now) → IsTrue (state S.Store work.old.conn.now).in_transaction
        → KeepsCommit (state S.Store work.old.conn.now) (state S.Store work.new.conn.now) }
    ensures survives { Survives (state S.Store work.old.conn.now) (state S.Store work.new.conn.now) (λ _. ⊥) }
{
    let id = (&row.id).to_sql();
    let place = (&row.place).to_sql();
    let voted = (&row.voted).to_sql();
    let voters = (&row.voters).to_sql();
    let chain = (&row.chain).to_sql();
    match work.execute(PUT, &[id, place, voted, voters, chain]) {
        Ok(_) => Ok(()),
        Err(error) => Err(error),
    }
}

/// Puts rows into the database of a transaction, in their order, up to the first that fails.
fn put_rows<S: Alter>(work: &mut Transaction<'_, S>, rows: &[KnownRow]) -> Result<(), Error>
    ensures same_reference { work.new.conn.ghost_name ≡ work.old.conn.ghost_name }
    ensures ok { HasCleanDisk (state S.Store work.new.conn.now) → IsTrue (state S.Store work.old.conn.now).in_transaction
        → OnOk result (HasPutInside rows.now (state S.Store work.old.conn.now) (state S.Store work.new.conn.now)) }
    ensures kept { HasCleanDisk (state S.Store work.new.conn.now) → IsTrue (state S.Store work.old.conn.now).in_transaction
        → KeepsCommit (state S.Store work.old.conn.now) (state S.Store work.new.conn.now) }
    ensures survives { Survives (state S.Store work.old.conn.now) (state S.Store work.new.conn.now) (λ _. ⊥) }
{
    for row in rows {
        put_inside(work, row)?;
    }
    Ok(())
}

/// Puts all of the rows, and undoes what was put if one of them is not.
fn put_together<S: Alter>(conn: &mut Connection<S>, rows: &[KnownRow]) -> Result<(), Error>
    requires { conn.old.in_transaction ≡ false }
    ensures ok { HasCleanDisk (state S.Store conn.new) → OnOk result (HasPutKnown rows.now (state S.Store conn.old) (state S.Store conn.new)) }
    ensures kept { HasCleanDisk (state S.Store conn.new) → OnErr result (IsSettled (state S.Store conn.old) → IsTrue (state S.Store conn.new).is_open
        → Stands (state S.Store conn.old) (state S.Store conn.new)) }
    ensures survives { Survives (state S.Store conn.old) (state S.Store conn.new) (PutsKnown rows.now (state S.Store conn.old)) }
{
    let mut work = conn.transaction();
    put_rows(&mut work, rows)?;
    work.commit()
}

/// Stores the rows in their order, each in place of the one with its id, if there is one, by one transaction: all of them, or none. A connection that is in a
/// transaction is refused as `Undone`; with no rows nothing is done.
pub fn put_known<S: Alter>(conn: &mut Connection<S>, rows: &[KnownRow]) -> Result<(), Fault>
    ensures none { rows.now ≡ [] → (result ≡ Ok tt) × (conn.new ≡ conn.old) }
    ensures ok { HasCleanDisk (state S.Store conn.new) → OnOk result (HasPutKnown rows.now (state S.Store conn.old) (state S.Store conn.new)) }
    ensures kept { HasCleanDisk (state S.Store conn.new) → IfErr result (λ fault. fault ≢ Shut → IsSettled (state S.Store conn.old)
        → Stands (state S.Store conn.old) (state S.Store conn.new)) }
    ensures survives { Survives (state S.Store conn.old) (state S.Store conn.new) (PutsKnown rows.now (state S.Store conn.old)) }
{
    if rows.is_empty() {
        return Ok(());
    }
    if !conn.is_autocommit() {
        return Err(Fault::Undone);
    }
    match put_together(conn, rows) {
        Ok(()) => Ok(()),
        Err(error) => Err(fault_after(conn, error)),
    }
}

/// All rows of `known`, by id. It refuses, as damaged, an id, place, vote or set of voters that is no integer, and a chain that is no blob.
pub fn read_known<S: Alter>(
    alloc: Global,
    conn: &mut Connection<S>,
) -> Result<Vec<KnownRow>, ReadFault>
    ensures read { HasCleanDisk (state S.Store conn.new) → IfOk result (λ rows. HasReadKnown (known_in rows.items) (state S.Store conn.old)) }
    ensures kept { HasCleanDisk (state S.Store conn.new) → result ≢ Err (Failed Shut) → (layout : _) → IsOurs layout (state S.Store conn.old)
        → HasKnown (state S.Store conn.old).now.schema.tables → Stands (state S.Store conn.old) (state S.Store conn.new) }
    ensures survives { Survives (state S.Store conn.old) (state S.Store conn.new) (LacksKnown (state S.Store conn.old)) }
{
    match conn.query_all(READ, &[]) {
        Ok(shown) => known_rows(alloc, shown.as_slice()),
        Err(error) => Err(ReadFault::Failed(fault_after(conn, error))),
    }
}

/// Whether the connection's database has the table, fourth behind `whose`, as `add_beside` of `record_rows` makes it.
pub fn has_known<S: Alter>(conn: &Connection<S>) -> bool
    ensures { IsTrue result ↔ HasKnown (state S.Store conn.now).now.schema.tables }
{
    let tables = conn.schema().tables.as_slice();
    stands_at(tables, 2, b"whose", WHOSE_TREE) && stands_at(tables, 3, b"known", KNOWN_TREE)
}

/// Whether the table at this place has this name, and its rows stand in this tree.
fn stands_at(tables: &[Table], at: usize, name: &[u8], tree: u32) -> bool
    ensures { IsTrue result ↔ StandsAt tables.now at name.now tree }
{
    if at >= tables.len() {
        return false;
    }
    is_of(&tables[at], name, tree)
}

fn is_of(table: &Table, name: &[u8], tree: u32) -> bool
    ensures { IsTrue result ↔ (table.now.name ≡ name.now) × (table.now.tree ≡ tree) }
{
    table.tree == tree && table.name.as_slice() == name
}
