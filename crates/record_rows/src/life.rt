//! The row of `life`.

ghost use Rattle.std.specs.Prelude.{◌≡◌, ◌≢◌, ℤ, pos, IsSome, IfSome, IfOk, IfErr, OnOk};
ghost use Rattle.sqlite.specs.declared.types.Value.TheVariants.{Int};
ghost use Rattle.sqlite.specs.Order.{column};
ghost use Rattle.record_rows.specs.Content.{IsShownLife};
ghost use Rattle.record_rows.specs.declared.fault.ReadFault.TheVariants.{Damaged, Failed};
ghost use Rattle.sqlite.specs.State.{HasCleanDisk, Survives};
ghost use Rattle.sqlite.specs.Held.{state};
ghost use Rattle.record_rows.specs.Ours.{IsSettled, IsOurs, Stands, PutsLife, HasPutLife, HasReadLife, HoldsNoLife, IsStrange};
ghost use Rattle.record_rows.specs.declared.fault.Fault.TheVariants.{Shut};

use crate::fault::{Fault, ReadFault};
use crate::probe::fault_after;
use crate::row::number_at;
use sqlite::types::ToSql;
use sqlite::{Alter, Connection, Row};

const READ: &str = "SELECT one, incarnation FROM life";

const FIRST: &str = "INSERT INTO life (one, incarnation) VALUES (1, ?1)";

const NEXT: &str = "UPDATE life SET incarnation = ?1";

fn last_in(row: &Row) -> Result<Option<i64>, ReadFault>
    ensures ok { IfOk result (λ last. IfSome last (λ n. (column row.now 0 ≡ Int (pos 1)) × (column row.now 1 ≡ Int n))) }
    ensures some { IfOk result IsSome }
    ensures damaged { IfErr result (λ e. (e ≡ Damaged) × ((n : ℤ) → column row.now 0 ≡ Int (pos 1) → column row.now 1 ≡ Int n → ⊥)) }
{
    let one = number_at(row, 0)?;
    let last = number_at(row, 1)?;
    if one == 1 {
        Ok(Some(last))
    } else {
        Err(ReadFault::Damaged)
    }
}

fn last_of(shown: &[Row]) -> Result<Option<i64>, ReadFault>
    ensures ok { IfOk result (IsShownLife shown.now) }
    ensures damaged { IfErr result (λ e. (e ≡ Damaged) × ((last : _) → IsShownLife shown.now last → ⊥)) }
{
    match shown {
        [] => Ok(None),
        [row] => last_in(row),
        _ => Err(ReadFault::Damaged),
    }
}

/// The last incarnation that is stored, if there is one. It refuses, as damaged, a row whose `one` is not 1, an incarnation
/// that is no integer, and a second row.
pub fn read_incarnation<S: Alter>(conn: &mut Connection<S>) -> Result<Option<i64>, ReadFault>
    ensures read { HasCleanDisk (state S.Store conn.new) → IfOk result (λ last. HasReadLife last (state S.Store conn.old)) }
    ensures damaged { HasCleanDisk (state S.Store conn.new) → result ≡ Err Damaged → HoldsNoLife (state S.Store conn.old) }
    ensures kept { HasCleanDisk (state S.Store conn.new) → result ≢ Err (Failed Shut) → (layout : _) → IsOurs layout (state S.Store conn.old) → Stands (state S.Store conn.old) (state S.Store conn.new) }
    ensures survives { Survives (state S.Store conn.old) (state S.Store conn.new) (IsStrange (state S.Store conn.old)) }
{
    match conn.query_all(READ, &[]) {
        Ok(shown) => last_of(shown.as_slice()),
        Err(error) => Err(ReadFault::Failed(fault_after(conn, error))),
    }
}

/// Stores an incarnation in place of `last`, which `read_incarnation` gave, by one statement.
pub fn put_incarnation<S: Alter>(
    conn: &mut Connection<S>,
    last: Option<i64>,
    incarnation: i64,
) -> Result<(), Fault>
    ensures ok { HasCleanDisk (state S.Store conn.new) → OnOk result (HasPutLife last incarnation (state S.Store conn.old) (state S.Store conn.new)) }
    ensures kept { HasCleanDisk (state S.Store conn.new) → IfErr result (λ fault. fault ≢ Shut → IsSettled (state S.Store conn.old) → Stands (state S.Store conn.old) (state S.Store conn.new)) }
    ensures survives { Survives (state S.Store conn.old) (state S.Store conn.new) (PutsLife last incarnation (state S.Store conn.old)) }
{
    let text = match last {
        Some(_) => NEXT,
        None => FIRST,
    };
    let value = (&incarnation).to_sql();
    match conn.execute(text, &[value]) {
        Ok(_) => Ok(()),
        Err(error) => Err(fault_after(conn, error)),
    }
}
