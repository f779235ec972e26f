//! What a receipt tells.

ghost use Rattle.std.specs.Prelude.{◌≡◌, ◌↔◌, IfOk, IsErrOf};
ghost use Rattle.mc_model.specs.message.Receipts.{AsksReceipt};
ghost use Rattle.receipts.specs.Receipts.{HasFate, IsAsked, IsTold, Reports};
ghost use Rattle.receipts.specs.Told.{report_of};
ghost use Rattle.receipts.specs.declared.fault.ReceiptFault.TheVariants.{Memory, NoFate, NotAsked, NotTold};

use crate::fault::ReceiptFault;
use fate_chain::{Chain, ErrorCode, Final, Kind, Submission};
use mc_types::{Moment, MsgId};

/// What the receipt of a message tells.
#[derive(Clone, Copy)]
pub struct Report<'a> {
    pub id: MsgId,
    pub taken: &'a Submission,
    pub began: Moment,
    pub last: Final,
    pub error: ErrorCode,
    pub ended: Moment,
}

impl Report<'_> {
    /// What the receipt of a chain tells. NoFate if it has no final state, else NotAsked if no receipt of that was asked for, else NotTold if the
    /// chain does not end in a Told.
    pub fn of(chain: &Chain) -> Result<Report<'_>, ReceiptFault>
        ensures reports { IfOk result (λ report. Reports chain.now (report_of report)) }
        ensures asked { IfOk result (λ report. AsksReceipt (report_of report).final (report_of report).taken) }
        ensures told { IfOk result (λ report. IsTold chain.now.decrees) }
        ensures no_fate { IsErrOf result NoFate ↔ (HasFate chain.now.decrees → ⊥) }
        ensures not_asked { IsErrOf result NotAsked ↔ HasFate chain.now.decrees × (IsAsked chain.now.decrees → ⊥) }
        ensures not_told { IsErrOf result NotTold ↔ IsAsked chain.now.decrees × (IsTold chain.now.decrees → ⊥) }
        ensures memory { IsErrOf result Memory → ⊥ }
    {
        let newest = chain.newest_untold();
        let Kind::Fate(last, error) = newest.kind else {
            return Err(ReceiptFault::NoFate);
        };
        let taken = chain.submission();
        if !taken.asks_receipt(last) {
            return Err(ReceiptFault::NotAsked);
        }
        if !matches!(chain.newest().kind, Kind::Told) {
            return Err(ReceiptFault::NotTold);
        }
        let first = &chain.decrees()[0];
        Ok(Report {
            id: chain.id(),
            taken,
            began: first.moment,
            last,
            error,
            ended: newest.moment,
        })
    }
}
