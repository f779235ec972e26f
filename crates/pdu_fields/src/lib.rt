//! The fields of PDUs, and what stands in them.
#![tactic(auto)]

mod address;
mod address_octets;
mod fault;
mod fields;
mod handling_octets;
mod text;
mod texts;
mod tlv;

pub use address::Address;
pub use address_octets::{AddressOctets, destination_at, source_at};
pub use fault::{Field, PduFault};
pub use fields::{check_optional, counted_at, nothing_at, octet_at, octets_at, text_at};
pub use handling_octets::{HandlingOctets, handling_at};
pub use text::{ShortMessage, Text};
pub use texts::{
    AddressDigits, AddressRange, MessageIdText, Password, ServiceType, SystemId, SystemType,
    TimeText,
};
pub use tlv::Tlvs;
