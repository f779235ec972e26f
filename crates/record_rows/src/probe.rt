//! What is left after a statement that failed.

ghost use Rattle.std.specs.Prelude.{◌≡◌, ◌≢◌, false};
ghost use Rattle.sqlite.specs.State.{HasCleanDisk, IsUnchanged, Survives};
ghost use Rattle.sqlite.specs.Held.{state};
ghost use Rattle.record_rows.specs.Silent.{IsSilent};
ghost use Rattle.record_rows.specs.declared.fault.Fault.TheVariants.{Memory, Shut};
ghost use Rattle.sqlite.specs.declared.error.ErrorCode.TheVariants.{OutOfMemory};

use crate::fault::Fault;
use sqlite::{Alter, Connection, Error, ErrorCode};

/// A statement that does nothing.
const PROBE: &str = "";

const NO_MEMORY: Error = Error::SqliteFailure(ErrorCode::OutOfMemory);

/// The fault that a statement's error is told as. A connection that takes one more statement is open: it is Memory then exactly if there was no memory for the
/// first, and else Undone. Shut if it refuses that, too, or has no memory for it.
pub(crate) fn fault_after<S: Alter>(conn: &mut Connection<S>, error: Error) -> Fault
    ensures open { HasCleanDisk (state S.Store conn.new) → result ≢ Shut → IsUnchanged (state S.Store conn.old) (state S.Store conn.new) }
    ensures shut { HasCleanDisk (state S.Store conn.new) → result ≡ Shut → IsSilent (state S.Store conn.old) (state S.Store conn.new) }
    ensures memory { result ≡ Memory → error ≡ Error.SqliteFailure OutOfMemory }
    ensures wants { error ≡ Error.SqliteFailure OutOfMemory → result ≢ Shut → result ≡ Memory }
    ensures mode { conn.old.in_transaction ≡ false → conn.new.in_transaction ≡ false }
    ensures survives { Survives (state S.Store conn.old) (state S.Store conn.new) (λ _. ⊥) }
{
    match conn.prepare(PROBE) {
        Ok(statement) => {
            drop(statement);
            told_as(error)
        }
        Err(_) => Fault::Shut,
    }
}

/// What the error of a statement is told as, if its connection is open.
fn told_as(error: Error) -> Fault
    ensures open { result ≢ Shut }
    ensures memory { result ≡ Memory → error ≡ Error.SqliteFailure OutOfMemory }
    ensures wants { error ≡ Error.SqliteFailure OutOfMemory → result ≡ Memory }
{
    if error == NO_MEMORY {
        Fault::Memory
    } else {
        Fault::Undone
    }
}
