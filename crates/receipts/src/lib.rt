//! Delivery receipts: their text, and their deliver_sm.
#![tactic(auto)]

mod fault;
mod pdu;
mod report;
mod text;

pub use fault::ReceiptFault;
pub use pdu::receipt_pdu;
pub use text::receipt_text;
