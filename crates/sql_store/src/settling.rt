//! What a store does about a fault of its connection.

ghost use Rattle.std.specs.Prelude.{◌≡◌, ◌≢◌, ◌+◌, ◌-◌, ◌^◌, ◌≤◌, ◌⊎◌, IsTrue, min, true};
ghost use Rattle.record_rows.specs.declared.fault.Fault.TheVariants as faults;
ghost use Rattle.sqlite.specs.declared.error.ErrorCode.TheVariants.{OutOfMemory};
ghost use Rattle.stable_store.specs.declared.fault.StoreFault.TheVariants.{Device, Memory};

use record_rows::Fault;
use sqlite::{Error, ErrorCode};
use stable_store::StoreFault;

const NO_MEMORY: Error = Error::SqliteFailure(ErrorCode::OutOfMemory);

/// Counts a failure of the device, up to 2^64 - 1.
pub(crate) fn count(failed: &mut u64) -> StoreFault
    ensures device { result ≡ Device }
    ensures counted { min (failed.old + 1) (2 ^ 64 - 1) ≤ failed.new }
    ensures rises { failed.old ≤ failed.new }
{
    *failed = failed.saturating_add(1);
    StoreFault::Device
}

/// What the fault is told as: Memory exactly if there was none. A store whose connection may be shut is spent.
pub(crate) fn settle(spent: &mut bool, failed: &mut u64, fault: Fault) -> StoreFault
    ensures shut { fault ≡ faults.Shut → spent.new ≡ true }
    ensures open { fault ≢ faults.Shut → spent.new ≡ spent.old }
    ensures memory { result ≡ Memory → fault ≡ faults.Memory }
    ensures wants { fault ≡ faults.Memory → result ≡ Memory }
    ensures device { result ≡ Device → min (failed.old + 1) (2 ^ 64 - 1) ≤ failed.new }
    ensures rises { failed.old ≤ failed.new }
    ensures faults { (result ≡ Device) ⊎ (result ≡ Memory) }
{
    match fault {
        Fault::Memory => StoreFault::Memory,
        Fault::Undone => count(failed),
        Fault::Shut => {
            *spent = true;
            count(failed)
        }
    }
}

/// What an error is told as by which a connection answers whether it is open: Memory exactly if there was none, and the connection answers when it is asked
/// again.
pub(crate) fn refusal_of(error: Error, answers: bool) -> StoreFault
    ensures memory { result ≡ Memory → IsTrue answers }
    ensures cause { result ≡ Memory → error ≡ Error.SqliteFailure OutOfMemory }
    ensures wants { error ≡ Error.SqliteFailure OutOfMemory → IsTrue answers → result ≡ Memory }
    ensures faults { (result ≡ Device) ⊎ (result ≡ Memory) }
{
    if answers && error == NO_MEMORY {
        StoreFault::Memory
    } else {
        StoreFault::Device
    }
}
