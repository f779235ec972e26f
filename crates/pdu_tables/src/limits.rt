//! How many octets a field may have (SMPP 3.4, section 5.2). The limit of a text counts the zero octet that ends it.

/// The octets of a PDU's header: command_length, command_id, command_status and sequence_number.
pub const HEADER: usize = 16;
/// The most octets that a PDU may have here, its header counted.
pub const PDU: usize = 8192;
/// The most octets that the optional parameters of a PDU may have here, their tags and lengths counted.
pub const OPTIONAL_PARAMETERS: usize = 7000;
/// The most octets of a short_message (section 5.2.22).
pub const SHORT_MESSAGE: usize = 254;

pub const SYSTEM_ID: usize = 16;

pub const PASSWORD: usize = 9;

pub const SYSTEM_TYPE: usize = 13;

pub const ADDRESS_RANGE: usize = 41;

pub const SERVICE_TYPE: usize = 6;
/// Of source_addr and of destination_addr.
pub const ADDRESS: usize = 21;
/// Of schedule_delivery_time, validity_period and final_date.
pub const TIME: usize = 17;

pub const MESSAGE_ID: usize = 65;
