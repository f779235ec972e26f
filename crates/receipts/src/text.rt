//! The text of a receipt.

ghost use Rattle.std.specs.Prelude.{◌≡◌, ◌≤◌, ◌↔◌, ◌+◌, ◌++◌, length, IfOk, IsErrOf, OnErr, OnOk};
ghost use Rattle.fate_chain.specs.Kinds.{final_of};
ghost use Rattle.receipts.specs.Receipts.{AppendsReceipt, HasFate, IsAsked, IsTold};
ghost use Rattle.receipts.specs.Texts.{dates_part, delivered_count, fate_part, first_text, message_part, stat, text_part, three_digits};
ghost use Rattle.receipts.specs.Texts.{receipt_text as text_told};
ghost use Rattle.receipts.specs.Told.{report_of};
ghost use Rattle.receipts.specs.declared.fault.ReceiptFault.TheVariants.{NoFate, NotAsked, NotTold};

use crate::fault::ReceiptFault;
use crate::report::Report;
use fate_chain::{Chain, ErrorCode, Final, Submission};
use smpp_time::receipt_date;
use std::alloc::{AllocError, Global};

/// The octets of the longest text: 102 for labels and values, and 20 of the message.
const LONGEST: usize = 122;
/// How many octets of the message a receipt shows.
const SHOWN: usize = 20;

/// Appends the text of the receipt (SMPP 3.4, appendix B) of a chain that ends in a final state and its Told, at most 122 octets. NoFate exactly
/// if it has no final state, else NotAsked exactly if no receipt of that was asked for, else NotTold exactly if it does not end in a Told; all before
/// any memory is taken. At an `Err` the vector is as it was.
pub fn receipt_text(chain: &Chain, text: &mut Vec<u8>) -> Result<(), ReceiptFault>
    ensures text { OnOk result (AppendsReceipt chain.now text.old.items text.new.items) }
    ensures no_fate { IsErrOf result NoFate ↔ (HasFate chain.now.decrees → ⊥) }
    ensures not_asked { IsErrOf result NotAsked ↔ HasFate chain.now.decrees × (IsAsked chain.now.decrees → ⊥) }
    ensures not_told { IsErrOf result NotTold ↔ IsAsked chain.now.decrees × (IsTold chain.now.decrees → ⊥) }
    ensures err { OnErr result (text.new.items ≡ text.old.items) }
{
    let report = match Report::of(chain) {
        Ok(report) => report,
        Err(fault) => return Err(fault),
    };
    let told = text_of(*text.allocator(), &report)?;
    text.extend_from_slice(&told)?;
    Ok(())
}

/// The text that tells a report.
#[tactic(auto, unfolding(crate::specs::Texts::receipt_text))]
pub fn text_of(alloc: Global, report: &Report<'_>) -> Result<Vec<u8>, AllocError>
    ensures text { IfOk result (λ text. text.items ≡ text_told (report_of report.now)) }
    ensures length { IfOk result (λ text. length text.items ≤ 122) }
{
    let mut text = Vec::with_capacity(alloc, LONGEST)?;
    put_message(&mut text, report)?;
    put_dates(&mut text, report)?;
    put_fate(&mut text, report)?;
    put_text(&mut text, report)?;
    Ok(text)
}

/// Which message it was.
fn put_message(text: &mut Vec<u8>, report: &Report<'_>) -> Result<(), AllocError>
    ensures text { OnOk result (text.new.items ≡ text.old.items ++ message_part (report_of report.now)) }
    ensures length { OnOk result (length text.new.items ≡ length text.old.items + 31) }
{
    text.extend_from_slice(b"id:")?;
    text.extend_from_slice(&report.id.text())?;
    text.extend_from_slice(b" sub:001 dlvrd:")?;
    text.extend_from_slice(&delivered_count(report.last))?;
    Ok(())
}

/// Since when it was here, and since when it has its final state.
fn put_dates(text: &mut Vec<u8>, report: &Report<'_>) -> Result<(), AllocError>
    ensures text { OnOk result (text.new.items ≡ text.old.items ++ dates_part (report_of report.now)) }
    ensures length { OnOk result (length text.new.items ≡ length text.old.items + 44) }
{
    text.extend_from_slice(b" submit date:")?;
    text.extend_from_slice(&receipt_date(report.began))?;
    text.extend_from_slice(b" done date:")?;
    text.extend_from_slice(&receipt_date(report.ended))?;
    Ok(())
}

/// What became of it.
fn put_fate(text: &mut Vec<u8>, report: &Report<'_>) -> Result<(), AllocError>
    ensures text { OnOk result (text.new.items ≡ text.old.items ++ fate_part (report_of report.now)) }
    ensures length { OnOk result (length text.new.items ≡ length text.old.items + 21) }
{
    text.extend_from_slice(b" stat:")?;
    text.extend_from_slice(&stat(report.last))?;
    text.extend_from_slice(b" err:")?;
    text.extend_from_slice(&three_digits(report.error))?;
    Ok(())
}

/// What it said.
fn put_text(text: &mut Vec<u8>, report: &Report<'_>) -> Result<(), AllocError>
    ensures text { OnOk result (text.new.items ≡ text.old.items ++ text_part (report_of report.now)) }
    ensures length { OnOk result (length text.new.items ≤ length text.old.items + 26) }
{
    text.extend_from_slice(b" text:")?;
    text.extend_from_slice(first_text(report.taken))?;
    Ok(())
}

/// How many of the one message were delivered, in three digits.
fn delivered_count(last: Final) -> [u8; 3]
    ensures { result ≡ delivered_count (final_of last) }
{
    match last {
        Final::Delivered => *b"001",
        Final::Expired | Final::Deleted | Final::Undeliverable | Final::Rejected => *b"000",
    }
}

/// The name of a final state, of seven characters.
fn stat(last: Final) -> [u8; 7]
    ensures { result ≡ stat (final_of last) }
{
    match last {
        Final::Delivered => *b"DELIVRD",
        Final::Expired => *b"EXPIRED",
        Final::Deleted => *b"DELETED",
        Final::Undeliverable => *b"UNDELIV",
        Final::Rejected => *b"REJECTD",
    }
}

/// The three digits of an error.
fn three_digits(error: ErrorCode) -> [u8; 3]
    ensures { result ≡ three_digits error }
{
    let number = error.number();
    [
        b'0' + (number / 100) as u8,
        b'0' + (number / 10 % 10) as u8,
        b'0' + (number % 10) as u8,
    ]
}

/// The first 20 characters of the message, or all if it has fewer; none if its data_coding is one that cannot be read here.
fn first_text(taken: &Submission) -> &[u8]
    ensures text { result.now ≡ first_text taken.now }
    ensures length { length result.now ≤ 20 }
{
    let text = taken.content.text();
    match taken.data_coding {
        0 | 1 | 3 => text.get(..SHOWN).unwrap_or(text),
        _ => b"",
    }
}
