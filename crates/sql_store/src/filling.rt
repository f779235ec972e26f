//! Making the tables that a database lacks.

ghost use Rattle.std.specs.Prelude.{◌≡◌, ◌⊎◌, [], IfOk, IfErr, IsTrue, OnOk};
ghost use Rattle.sqlite.specs.State.{HasCleanDisk, IsNotRun, IsUnchanged, Survives};
ghost use Rattle.sqlite.specs.Held.{state};
ghost use Rattle.record_rows.specs.Found.{IsFoundIn};
ghost use Rattle.record_rows.specs.Ours.{IsSettled, Stands};
ghost use Rattle.record_rows.specs.Tables.{Present};
ghost use Rattle.record_rows.specs.declared.fault.Fault.TheVariants.{Memory};
ghost use Rattle.stable_store.specs.declared.fault.StoreFault.TheVariants as stored;
ghost use Rattle.sql_store.specs.Adopted.{Adds, IsFilled, IsPresent};
ghost use Rattle.sql_store.specs.Orders.{layout_of};

use crate::order::Order;
use crate::settling::refusal_of;
use record_rows::{Fault, Found, add_life, add_slots, find_tables, make_tables};
use sqlite::{Alter, Connection, Error};
use stable_store::StoreFault;
use std::alloc::Global;

/// A statement that does nothing.
const NOTHING: &str = "";

/// Asks the connection whether it is open: it answers by a statement, and refuses that by an error.
fn answer<S: Alter>(conn: &mut Connection<S>) -> Result<(), Error>
    ensures ok { HasCleanDisk (state S.Store conn.new) → OnOk result (IsUnchanged (state S.Store conn.old) (state S.Store conn.new)) }
    ensures err { HasCleanDisk (state S.Store conn.new) → IfErr result (λ e. (params : _)
        → IsNotRun (state S.Store conn.old) (state S.Store conn.new) [] params e) }
    ensures survives { Survives (state S.Store conn.old) (state S.Store conn.new) (λ _. ⊥) }
{
    match conn.prepare(NOTHING) {
        Ok(statement) => {
            drop(statement);
            Ok(())
        }
        Err(error) => Err(error),
    }
}

/// Whether the connection is open, and in no transaction: else Device. Want of memory is told from that by asking once more; if there is none then either,
/// nothing says that the connection is open, and it is Device, too.
fn ask<S: Alter>(conn: &mut Connection<S>) -> Result<(), StoreFault>
    ensures stands { HasCleanDisk (state S.Store conn.new) → OnOk result (Stands (state S.Store conn.old) (state S.Store conn.new)) }
    ensures settled { HasCleanDisk (state S.Store conn.new) → OnOk result (IsSettled (state S.Store conn.new)) }
    ensures kept { HasCleanDisk (state S.Store conn.new) → result ≡ Err stored.Memory → Stands (state S.Store conn.old) (state S.Store conn.new) }
    ensures faults { IfErr result (λ fault. (fault ≡ stored.Device) ⊎ (fault ≡ stored.Memory)) }
    ensures survives { Survives (state S.Store conn.old) (state S.Store conn.new) (λ _. ⊥) }
{
    if !conn.is_autocommit() {
        return Err(StoreFault::Device);
    }
    let Err(error) = answer(conn) else {
        return Ok(());
    };
    let answers = answer(conn).is_ok();
    Err(refusal_of(error, answers))
}

/// Makes the tables that a database lacks.
fn fill<S: Alter>(conn: &mut Connection<S>, found: Found) -> Result<Order, Fault>
    requires { IsFoundIn (state S.Store conn.old).now.schema found }
    ensures ok { HasCleanDisk (state S.Store conn.new) → IfOk result (λ order. IsTrue (state S.Store conn.old).is_open → IsSettled (state S.Store conn.old)
        → IsFilled (layout_of order) (state S.Store conn.old) (state S.Store conn.new)) }
    ensures known { IfOk result (λ _. (present : Present) × IsPresent present (state S.Store conn.old)) }
    ensures kept { HasCleanDisk (state S.Store conn.new) → IfErr result (λ fault. fault ≡ Memory → IsSettled (state S.Store conn.old)
        → Stands (state S.Store conn.old) (state S.Store conn.new)) }
    ensures survives { Survives (state S.Store conn.old) (state S.Store conn.new) (Adds (state S.Store conn.old)) }
{
    match found {
        Found::Neither => {
            make_tables(conn)?;
            Ok(Order::LifeFirst)
        }
        Found::LifeAlone => {
            add_slots(conn)?;
            Ok(Order::LifeFirst)
        }
        Found::SlotsAlone => {
            add_life(conn)?;
            Ok(Order::SlotsFirst)
        }
        Found::LifeFirst => Ok(Order::LifeFirst),
        Found::SlotsFirst => Ok(Order::SlotsFirst),
        Found::Foreign => Err(Fault::Undone),
    }
}

/// Makes the tables that the database of a connection lacks. Of a connection that is shut or in a transaction, of a database that has
/// another object, or a table of another form, and of a disk that failed it answers Device; else of want of memory, Memory.
pub(crate) fn fill_tables<S: Alter>(
    alloc: Global,
    conn: &mut Connection<S>,
) -> Result<Order, StoreFault>
    ensures ok { HasCleanDisk (state S.Store conn.new) → IfOk result (λ order. IsFilled (layout_of order) (state S.Store conn.old) (state S.Store conn.new)) }
    ensures known { IfOk result (λ _. HasCleanDisk (state S.Store conn.new) → (present : Present) × IsPresent present (state S.Store conn.old)) }
    ensures kept { HasCleanDisk (state S.Store conn.new) → result ≡ Err stored.Memory → Stands (state S.Store conn.old) (state S.Store conn.new) }
    ensures faults { IfErr result (λ fault. (fault ≡ stored.Device) ⊎ (fault ≡ stored.Memory)) }
    ensures survives { Survives (state S.Store conn.old) (state S.Store conn.new) (Adds (state S.Store conn.old)) }
{
    ask(conn)?;
    let Ok(found) = find_tables(alloc, conn) else {
        return Err(StoreFault::Memory);
    };
    match fill(conn, found) {
        Ok(order) => Ok(order),
        Err(Fault::Memory) => Err(StoreFault::Memory),
        Err(_) => Err(StoreFault::Device),
    }
}
