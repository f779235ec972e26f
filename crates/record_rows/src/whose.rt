//! The tables beside the two, as they are made, and the row of `whose`.

ghost use Rattle.std.specs.Prelude.{◌≡◌, ◌≢◌, ℕ, [], Ok, codes, IfErr, IfOk, IfSome, IsSome, OnOk};
ghost use Rattle.sqlite.specs.Batch.{ExecutesAll};
ghost use Rattle.sqlite.specs.Held.{state};
ghost use Rattle.sqlite.specs.State.{CommitsBy, Executes, HasCleanDisk, Survives};
ghost use Rattle.record_rows.specs.Ours.{IsSettled, Stands};
ghost use Rattle.record_rows.specs.Whose.{AreShownWhose, HasFoundWhose, HasPutWhose, HasReadWhose, IsShownWhose, add_text, is_named, put_whose_text, values_in};
ghost use Rattle.record_rows.specs.declared.whose.WhoseRow.{WhoseRow as WhoseValue};
ghost use Rattle.record_rows.specs.declared.fault.Fault.TheVariants.{Shut};
ghost use Rattle.record_rows.specs.declared.fault.ReadFault.TheVariants.{Damaged};

use crate::fault::{Fault, ReadFault};
use crate::probe::fault_after;
use crate::row::number_at;
use sqlite::types::ToSql;
use sqlite::{Alter, Connection, Row};
use sqlite_schema::schema::Table;

const ADD: &str =
    "BEGIN; CREATE TABLE whose (one INTEGER PRIMARY KEY CHECK (one = 1), cluster INTEGER NOT NULL, node INTEGER NOT NULL, nodes INTEGER NOT NULL, \
    at INTEGER NOT NULL); CREATE TABLE known (id INTEGER PRIMARY KEY, place INTEGER NOT NULL, voted INTEGER NOT NULL, voters INTEGER NOT NULL, \
    chain BLOB NOT NULL); CREATE TABLE gone (first INTEGER PRIMARY KEY, last INTEGER NOT NULL, state INTEGER NOT NULL); \
    CREATE TABLE ended (id INTEGER PRIMARY KEY, place INTEGER NOT NULL, promised INTEGER NOT NULL, voted INTEGER NOT NULL, \
    voters INTEGER NOT NULL, chain BLOB NOT NULL, below BLOB NOT NULL); COMMIT";

const PUT: &str = "INSERT INTO whose (one, cluster, node, nodes, at) VALUES (1, ?1, ?2, ?3, ?4)";

const READ: &str = "SELECT cluster, node, nodes, at FROM whose";

/// The row of `whose`: whose the store is, in numbers as they are stored.
#[derive(Clone, Copy, Debug, PartialEq, Eq)]
pub struct WhoseRow {
    /// The name of the cluster.
    pub cluster: i64,
    /// The number of the node.
    pub node: i64,
    /// How many nodes there are.
    pub nodes: i64,
    /// The last incarnation as this was written, or 0.
    pub at: i64,
}

/// Whether the database of a connection has the table `whose`.
pub fn has_whose<S: Alter>(conn: &Connection<S>) -> bool
    ensures { result ≡ is_named (codes "whose") (state S.Store conn.now).now.schema.tables }
{
    is_named(conn.schema().tables.as_slice(), b"whose")
}

fn is_named(tables: &[Table], name: &[u8]) -> bool
    ensures { result ≡ is_named name.now tables.now }
{
    for table in tables {
        if table.name.as_slice() == name {
            return true;
        }
    }
    false
}

/// Makes all tables beside the two in a database that has none of them, in one transaction. At a fault that may still be open, and the connection is to be
/// dropped.
pub fn add_beside<S: Alter>(conn: &mut Connection<S>) -> Result<(), Fault>
    ensures { HasCleanDisk (state S.Store conn.new) → OnOk result (ExecutesAll S.Store add_text conn.old conn.new (Ok tt)) }
{
    match conn.execute_batch(ADD) {
        Ok(()) => Ok(()),
        Err(error) => Err(fault_after(conn, error)),
    }
}

fn whose_in(row: &Row) -> Result<Option<WhoseRow>, ReadFault>
    ensures ok { IfOk result (λ found. IfSome found (IsShownWhose row.now)) }
    ensures some { IfOk result IsSome }
    ensures damaged { IfErr result (λ fault. (fault ≡ Damaged) × ((whose : WhoseValue) → IsShownWhose row.now whose → ⊥)) }
{
    let cluster = number_at(row, 0)?;
    let node = number_at(row, 1)?;
    let nodes = number_at(row, 2)?;
    let at = number_at(row, 3)?;
    Ok(Some(WhoseRow {
        cluster,
        node,
        nodes,
        at,
    }))
}

fn whose_of(shown: &[Row]) -> Result<Option<WhoseRow>, ReadFault>
    ensures ok { IfOk result (AreShownWhose shown.now) }
    ensures damaged { IfErr result (λ fault. (fault ≡ Damaged) × ((whose : _) → AreShownWhose shown.now whose → ⊥)) }
{
    match shown {
        [] => Ok(None),
        [row] => whose_in(row),
        _ => Err(ReadFault::Damaged),
    }
}

/// The row of `whose`, if there is that table, and it has one. It refuses, as damaged, a number that is no integer, and a second row.
pub fn read_whose<S: Alter>(conn: &mut Connection<S>) -> Result<Option<WhoseRow>, ReadFault>
    ensures found { HasCleanDisk (state S.Store conn.new) → IfOk result (HasFoundWhose (state S.Store conn.old)) }
    ensures read { HasCleanDisk (state S.Store conn.new) → IfOk result (HasReadWhose (state S.Store conn.old) (state S.Store conn.new)) }
{
    shown_whose(conn)
}

fn shown_whose<S: Alter>(conn: &mut Connection<S>) -> Result<Option<WhoseRow>, ReadFault>
    ensures { HasCleanDisk (state S.Store conn.new) → IfOk result (HasReadWhose (state S.Store conn.old) (state S.Store conn.new)) }
{
    if !has_whose(conn) {
        return Ok(None);
    }
    match conn.query_all(READ, &[]) {
        Ok(shown) => whose_of(shown.as_slice()),
        Err(error) => Err(ReadFault::Failed(fault_after(conn, error))),
    }
}

/// Stores the row of `whose`, which has none yet, by one statement.
pub fn put_whose<S: Alter>(conn: &mut Connection<S>, row: &WhoseRow) -> Result<(), Fault>
    ensures put { HasCleanDisk (state S.Store conn.new) → OnOk result (HasPutWhose row.now (state S.Store conn.old) (state S.Store conn.new)) }
    ensures ok { HasCleanDisk (state S.Store conn.new) → OnOk result ((count : ℕ) × Executes put_whose_text (values_in row.now) (state S.Store conn.old) (state S.Store conn.new) (Ok count)) }
    ensures kept { HasCleanDisk (state S.Store conn.new) → IfErr result (λ fault. fault ≢ Shut → IsSettled (state S.Store conn.old) → Stands (state S.Store conn.old) (state S.Store conn.new)) }
    ensures survives { Survives (state S.Store conn.old) (state S.Store conn.new) (CommitsBy put_whose_text (values_in row.now) (state S.Store conn.old)) }
{
    let cluster = (&row.cluster).to_sql();
    let node = (&row.node).to_sql();
    let nodes = (&row.nodes).to_sql();
    let at = (&row.at).to_sql();
    match conn.execute(PUT, &[cluster, node, nodes, at]) {
        Ok(_) => Ok(()),
        Err(error) => Err(fault_after(conn, error)),
    }
}
