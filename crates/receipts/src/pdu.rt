//! The deliver_sm of a receipt.

ghost use Rattle.std.specs.Prelude.{◌≡◌, ◌++◌, ◌∷◌, [], ◌↔◌, IfOk, IsErrOf};
ghost use Rattle.receipts.specs.Receipts.{HasFate, IsAsked, IsTold, IsReceipt, receipt_message, receipt_tlvs};
ghost use Rattle.receipts.specs.Told.{report_of};
ghost use Rattle.receipts.specs.declared.fault.ReceiptFault.TheVariants.{NoFate, NotAsked, NotTold};

use crate::fault::ReceiptFault;
use crate::report::Report;
use crate::text::text_of;
use fate_chain::Chain;
use pdu_codec::{Body, Message, Pdu, ShortMessage, Text, Tlvs};
use pdu_tables::Tag;
use std::alloc::{AllocError, Global};

/// esm_class of a delivery receipt (SMPP 3.4, section 5.2.12).
const RECEIPT: u8 = 0x04;

/// The deliver_sm (SMPP 3.4, section 4.6.1) of the receipt of a chain, with this sequence_number: back to the source of the message, with
/// its id and final state as optional parameters too. NoFate, NotAsked and NotTold as for its text, before any memory is taken.
pub fn receipt_pdu(alloc: Global, chain: &Chain, sequence: u32) -> Result<Pdu, ReceiptFault>
    ensures pdu { IfOk result (IsReceipt chain.now sequence) }
    ensures no_fate { IsErrOf result NoFate ↔ (HasFate chain.now.decrees → ⊥) }
    ensures not_asked { IsErrOf result NotAsked ↔ HasFate chain.now.decrees × (IsAsked chain.now.decrees → ⊥) }
    ensures not_told { IsErrOf result NotTold ↔ IsAsked chain.now.decrees × (IsTold chain.now.decrees → ⊥) }
{
    let report = match Report::of(chain) {
        Ok(report) => report,
        Err(fault) => return Err(fault),
    };
    Ok(Pdu {
        status: 0,
        sequence,
        body: Body::DeliverSm(message(alloc, &report)?),
    })
}

/// The message of a receipt.
fn message(alloc: Global, report: &Report<'_>) -> Result<Message, AllocError>
    ensures { IfOk result (λ message. message ≡ receipt_message (report_of report.now)) }
{
    let taken = report.taken;
    let text = text_of(alloc, report)?;
    Ok(Message {
        service_type: taken.service_type.copy()?,
        source: taken.destination.copy()?,
        destination: taken.source.copy()?,
        esm_class: RECEIPT,
        protocol_id: 0,
        priority_flag: 0,
        schedule_delivery_time: Text::of(alloc, b"")?,
        validity_period: Text::of(alloc, b"")?,
        registered_delivery: 0,
        replace_if_present_flag: 0,
        data_coding: 0,
        sm_default_msg_id: 0,
        short_message: ShortMessage::of(alloc, &text)?,
        tlvs: tlvs(alloc, report)?,
    })
}

/// receipted_message_id and message_state.
fn tlvs(alloc: Global, report: &Report<'_>) -> Result<Tlvs, AllocError>
    ensures { IfOk result (λ tlvs. tlvs ≡ receipt_tlvs (report_of report.now)) }
{
    let [a, b, c, d, e, f, g, h, i, j] = report.id.text();
    let mut tlvs = Tlvs::empty(alloc);
    tlvs.push(
        Tag::ReceiptedMessageId.code(),
        &[a, b, c, d, e, f, g, h, i, j, 0],
    )?;
    tlvs.push(Tag::MessageState.code(), &[report.last.state().code()])?;
    Ok(tlvs)
}
