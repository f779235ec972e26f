//! A row of `known`.

ghost use Rattle.std.specs.Prelude.{◌≡◌, ◌⊎◌, IfErr, IfOk};
ghost use Rattle.record_rows.specs.declared.fault.Fault.TheVariants.{Memory};
ghost use Rattle.record_rows.specs.declared.fault.ReadFault.TheVariants.{Damaged, Failed};
ghost use Rattle.record_rows.specs.Known.{AreShownKnown, IsShownKnown, known_in, known_of};

use crate::fault::ReadFault;
use crate::row::{chain_at, number_at};
use sqlite::Row;
use std::alloc::Global;

/// A row of `known`, with its numbers as they are stored: which of them are ids, places, ballots and sets of nodes its reader has to test.
#[derive(Debug, Drop)]
pub struct KnownRow {
    pub id: i64,
    pub place: i64,
    pub voted: i64,
    pub voters: i64,
    pub chain: Vec<u8>,
}

fn known_row(alloc: Global, row: &Row) -> Result<KnownRow, ReadFault>
    ensures ok { IfOk result (λ known. IsShownKnown row.now (known_of known)) }
    ensures faults { IfErr result (λ e. (e ≡ Damaged) ⊎ (e ≡ Failed Memory)) }
{
    let id = number_at(row, 0)?;
    let place = number_at(row, 1)?;
    let voted = number_at(row, 2)?;
    let voters = number_at(row, 3)?;
    let chain = chain_at(alloc, row, 4)?;
    Ok(KnownRow {
        id,
        place,
        voted,
        voters,
        chain,
    })
}

/// The rows that a query showed.
pub(crate) fn known_rows(alloc: Global, shown: &[Row]) -> Result<Vec<KnownRow>, ReadFault>
    ensures ok { IfOk result (λ rows. AreShownKnown shown.now (known_in rows.items)) }
    ensures faults { IfErr result (λ e. (e ≡ Damaged) ⊎ (e ≡ Failed Memory)) }
{
    let mut rows = Vec::new(alloc);
    for row in shown {
        let next = known_row(alloc, row)?;
        rows.push(next)?;
    }
    Ok(rows)
}
