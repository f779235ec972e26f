//! Making both tables in an empty database.

ghost use Rattle.std.specs.Prelude.{◌≡◌, ◌≢◌, false, IfErr, IsTrue, OnErr, OnOk};
ghost use Rattle.sqlite.specs.State.{HasCleanDisk, Survives};
ghost use Rattle.sqlite.specs.Held.{state};
ghost use Rattle.record_rows.specs.Added.{AddsBoth, HasAddedBoth};
ghost use Rattle.record_rows.specs.Ours.{IsSettled, Stands};
ghost use Rattle.record_rows.specs.declared.fault.Fault.TheVariants.{Shut};

use crate::adding::{LIFE, SLOTS};
use crate::fault::Fault;
use crate::probe::fault_after;
use sqlite::{Alter, Connection, Error};

/// Makes both tables, and undoes the first if the second is not made.
fn make_both<S: Alter>(conn: &mut Connection<S>) -> Result<(), Error>
    requires { conn.old.in_transaction ≡ false }
    ensures ok { HasCleanDisk (state S.Store conn.new) → OnOk result (HasAddedBoth (state S.Store conn.old) (state S.Store conn.new)) }
    ensures kept { HasCleanDisk (state S.Store conn.new) → OnErr result (IsSettled (state S.Store conn.old) → IsTrue (state S.Store conn.new).is_open
        → Stands (state S.Store conn.old) (state S.Store conn.new)) }
    ensures survives { Survives (state S.Store conn.old) (state S.Store conn.new) (AddsBoth (state S.Store conn.old)) }
{
    let mut work = conn.transaction();
    work.execute(LIFE, &[])?;
    work.execute(SLOTS, &[])?;
    work.commit()
}

/// Makes both tables in an empty database, by one transaction. A connection that is in a transaction is refused as `Undone`.
pub fn make_tables<S: Alter>(conn: &mut Connection<S>) -> Result<(), Fault>
    ensures ok { HasCleanDisk (state S.Store conn.new) → OnOk result (HasAddedBoth (state S.Store conn.old) (state S.Store conn.new)) }
    ensures kept { HasCleanDisk (state S.Store conn.new) → IfErr result (λ fault. fault ≢ Shut → IsSettled (state S.Store conn.old)
        → Stands (state S.Store conn.old) (state S.Store conn.new)) }
    ensures survives { Survives (state S.Store conn.old) (state S.Store conn.new) (AddsBoth (state S.Store conn.old)) }
{
    if !conn.is_autocommit() {
        return Err(Fault::Undone);
    }
    match make_both(conn) {
        Ok(()) => Ok(()),
        Err(error) => Err(fault_after(conn, error)),
    }
}
