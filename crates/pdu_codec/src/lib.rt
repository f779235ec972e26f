//! PDUs of SMPP 3.4, from octets and to octets.
#![tactic(auto)]

mod header;
mod laws;
mod reading;
mod writing;

pub use header::{Header, read_header};
pub use laws::{first_fault_is_told, no_octets_want_memory, read_is_written, written_is_read};
pub use pdu_bodies::{Bind, BindAnswer, Body, Cancel, Message, Pdu, Query, QueryAnswer};
pub use pdu_fields::{
    Address, AddressDigits, AddressOctets, AddressRange, Field, MessageIdText, Password, PduFault,
    ServiceType, ShortMessage, SystemId, SystemType, Text, TimeText, Tlvs, check_optional,
};
pub use reading::decode;
pub use writing::encode;
