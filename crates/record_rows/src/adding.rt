//! Making the table that a database lacks.

ghost use Rattle.std.specs.Prelude.{◌≡◌, ◌≢◌, IfErr, OnOk};
ghost use Rattle.sqlite.specs.State.{HasCleanDisk, Survives};
ghost use Rattle.sqlite.specs.Held.{state};
ghost use Rattle.record_rows.specs.Added.{AddsLife, AddsSlots, HasAddedLife, HasAddedSlots};
ghost use Rattle.record_rows.specs.Ours.{IsSettled, Stands};
ghost use Rattle.record_rows.specs.declared.fault.Fault.TheVariants.{Shut};

use crate::fault::Fault;
use crate::probe::fault_after;
use sqlite::{Alter, Connection};

pub(crate) const LIFE: &str =
    "CREATE TABLE life (one INTEGER PRIMARY KEY CHECK (one = 1), incarnation INTEGER NOT NULL)";

pub(crate) const SLOTS: &str =
    "CREATE TABLE slots (id INTEGER NOT NULL, place INTEGER NOT NULL, promised INTEGER NOT NULL, voted INTEGER NOT NULL, \
    chain BLOB NOT NULL, PRIMARY KEY (id, place))";

/// Makes `slots` in a database that has `life` alone, by one statement.
pub fn add_slots<S: Alter>(conn: &mut Connection<S>) -> Result<(), Fault>
    ensures ok { HasCleanDisk (state S.Store conn.new) → OnOk result (HasAddedSlots (state S.Store conn.old) (state S.Store conn.new)) }
    ensures kept { HasCleanDisk (state S.Store conn.new) → IfErr result (λ fault. fault ≢ Shut → IsSettled (state S.Store conn.old)
        → Stands (state S.Store conn.old) (state S.Store conn.new)) }
    ensures survives { Survives (state S.Store conn.old) (state S.Store conn.new) (AddsSlots (state S.Store conn.old)) }
{
    match conn.execute(SLOTS, &[]) {
        Ok(_) => Ok(()),
        Err(error) => Err(fault_after(conn, error)),
    }
}

/// Makes `life` in a database that has `slots` alone, by one statement.
pub fn add_life<S: Alter>(conn: &mut Connection<S>) -> Result<(), Fault>
    ensures ok { HasCleanDisk (state S.Store conn.new) → OnOk result (HasAddedLife (state S.Store conn.old) (state S.Store conn.new)) }
    ensures kept { HasCleanDisk (state S.Store conn.new) → IfErr result (λ fault. fault ≢ Shut → IsSettled (state S.Store conn.old)
        → Stands (state S.Store conn.old) (state S.Store conn.new)) }
    ensures survives { Survives (state S.Store conn.old) (state S.Store conn.new) (AddsLife (state S.Store conn.old)) }
{
    match conn.execute(LIFE, &[]) {
        Ok(_) => Ok(()),
        Err(error) => Err(fault_after(conn, error)),
    }
}
