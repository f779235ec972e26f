//! A row of `slots`.

ghost use Rattle.std.specs.Prelude.{◌≡◌, ◌⊎◌, ◌↔◌, ℤ, map, IfOk, IfErr, IsTrue};
ghost use Rattle.sqlite.specs.declared.types.Value.TheVariants.{Int, Blob};
ghost use Rattle.sqlite.specs.Order.{column};
ghost use Rattle.record_rows.specs.declared.fault.Fault.TheVariants.{Memory};
ghost use Rattle.record_rows.specs.declared.fault.ReadFault.TheVariants.{Damaged, Failed};
ghost use Rattle.record_rows.specs.Content.{Entry, entry_of, slot_of, is_below, IsShownAs, AreShownAs, AreAscending};

use crate::fault::ReadFault;
use sqlite::Row;
use sqlite::types::ValueRef;
use std::alloc::Global;

/// A row of `slots`, with its numbers as they are stored: which of them are ids, places and ballots its reader has to test.
#[derive(Debug, Drop)]
pub struct SlotRow {
    pub id: i64,
    pub place: i64,
    pub promised: i64,
    pub voted: i64,
    pub chain: Vec<u8>,
}

/// The integer in a column of a row that was read.
pub(crate) fn number_at(row: &Row, at: usize) -> Result<i64, ReadFault>
    ensures ok { IfOk result (λ n. column row.now at ≡ Int n) }
    ensures damaged { IfErr result (λ e. (e ≡ Damaged) × ((n : ℤ) → column row.now at ≡ Int n → ⊥)) }
{
    match row.get_ref(at) {
        Ok(ValueRef::Int(n)) => Ok(n),
        _ => Err(ReadFault::Damaged),
    }
}

pub(crate) fn chain_at(alloc: Global, row: &Row, at: usize) -> Result<Vec<u8>, ReadFault>
    ensures ok { IfOk result (λ chain. column row.now at ≡ Blob chain.items) }
    ensures damaged { result ≡ Err Damaged → (chain : _) → column row.now at ≡ Blob chain → ⊥ }
    ensures faults { IfErr result (λ e. (e ≡ Damaged) ⊎ (e ≡ Failed Memory)) }
{
    match row.get_ref(at) {
        Ok(ValueRef::Blob(chain)) => Ok(Vec::from_slice(alloc, chain)?),
        _ => Err(ReadFault::Damaged),
    }
}

fn slot_row(alloc: Global, row: &Row) -> Result<SlotRow, ReadFault>
    ensures ok { IfOk result (λ slot. IsShownAs row.now (entry_of slot)) }
    ensures damaged { result ≡ Err Damaged → (entry : Entry) → IsShownAs row.now entry → ⊥ }
    ensures faults { IfErr result (λ e. (e ≡ Damaged) ⊎ (e ≡ Failed Memory)) }
{
    let _rowid = number_at(row, 0)?;
    let id = number_at(row, 1)?;
    let place = number_at(row, 2)?;
    let promised = number_at(row, 3)?;
    let voted = number_at(row, 4)?;
    let chain = chain_at(alloc, row, 5)?;
    Ok(SlotRow {
        id,
        place,
        promised,
        voted,
        chain,
    })
}

fn slot_rows(alloc: Global, shown: &[Row]) -> Result<Vec<SlotRow>, ReadFault>
    ensures ok { IfOk result (λ rows. AreShownAs shown.now (map entry_of rows.items)) }
    ensures damaged { result ≡ Err Damaged → (entries : _) → AreShownAs shown.now entries → ⊥ }
    ensures faults { IfErr result (λ e. (e ≡ Damaged) ⊎ (e ≡ Failed Memory)) }
{
    let mut rows = Vec::new(alloc);
    for row in shown {
        let next = slot_row(alloc, row)?;
        rows.push(next)?;
    }
    Ok(rows)
}

/// Whether a row stands before another in `slots`.
fn is_before(first: &SlotRow, second: &SlotRow) -> bool
    ensures { result ≡ is_below (slot_of first.now) (slot_of second.now) }
{
    first.id < second.id || first.id == second.id && first.place < second.place
}

/// Whether the rows ascend by id and place, no two with one key.
fn are_ascending(rows: &[SlotRow]) -> bool
    ensures { IsTrue result ↔ AreAscending (map entry_of rows.now) }
{
    for at in 1..rows.len() {
        if !is_before(&rows[at - 1], &rows[at]) {
            return false;
        }
    }
    true
}

/// The rows that a query showed, if they ascend.
pub(crate) fn ascending_rows(alloc: Global, shown: &[Row]) -> Result<Vec<SlotRow>, ReadFault>
    ensures ok { IfOk result (λ rows. AreShownAs shown.now (map entry_of rows.items)) }
    ensures ascending { IfOk result (λ rows. AreAscending (map entry_of rows.items)) }
    ensures damaged { result ≡ Err Damaged → (entries : _) → AreShownAs shown.now entries → AreAscending entries → ⊥ }
    ensures faults { IfErr result (λ e. (e ≡ Damaged) ⊎ (e ≡ Failed Memory)) }
{
    let rows = slot_rows(alloc, shown)?;
    if are_ascending(rows.as_slice()) {
        Ok(rows)
    } else {
        Err(ReadFault::Damaged)
    }
}
