//! The limits of all accounts of a configuration.

ghost use Rattle.std.specs.Prelude.{◌≡◌, map, IfOk, IfErr};
ghost use Rattle.toml.specs.View.{view};
ghost use Rattle.config.specs.Rows.{rows_of};
ghost use Rattle.config.specs.declared.key.Part.TheVariants.{Accounts};
ghost use Rattle.config_limits.specs.Reading as spec;

use crate::fault::LimitsFault;
use crate::limited_account::LimitedAccount;
use crate::row::account_of;
use crate::row_fault::RowFault;
use crate::values::account_rows;
use std::alloc::Global;
use toml::Value;

/// The accounts of a document with their limits, in the order of the text. `BadValue` tells of a key whose value is not what it has to be, of the first account that
/// has one; `Memory` of want of memory.
pub fn read_limits(alloc: Global, document: &Value) -> Result<Vec<LimitedAccount>, LimitsFault>
    ensures ok { IfOk result (λ accounts. spec.AreLimited (rows_of (view document.now) Accounts) accounts.items) }
    ensures err { IfErr result (spec.IsFaultIn (rows_of (view document.now) Accounts)) }
{
    accounts_of(alloc, account_rows(document))
}

/// The accounts of some tables.
fn accounts_of(alloc: Global, rows: &[Value]) -> Result<Vec<LimitedAccount>, LimitsFault>
    ensures ok { IfOk result (λ accounts. spec.AreLimited (map view rows.now) accounts.items) }
    ensures err { IfErr result (spec.IsFaultIn (map view rows.now)) }
{
    let mut accounts = Vec::new(alloc);
    for (place, row) in rows.iter().enumerate() {
        match account_of(alloc, row) {
            Ok(account) => accounts.push(account)?,
            Err(fault) => return Err(fault_at(fault, place)),
        }
    }
    Ok(accounts)
}

/// The fault of the table at a place.
fn fault_at(fault: RowFault, place: usize) -> LimitsFault
    ensures { result ≡ spec.fault_at fault place }
{
    match fault {
        RowFault::BadValue(key) => LimitsFault::BadValue(key, place),
        RowFault::Memory => LimitsFault::Memory,
    }
}
