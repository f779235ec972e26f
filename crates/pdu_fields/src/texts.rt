//! The texts of PDUs, by the fields that they are.

use crate::text::Text;
use pdu_tables::limits::{
    ADDRESS, ADDRESS_RANGE, MESSAGE_ID, PASSWORD, SERVICE_TYPE, SYSTEM_ID, SYSTEM_TYPE, TIME,
};

/// A system_id (SMPP 3.4, section 5.2.1): 15 octets at most.
pub type SystemId = Text<SYSTEM_ID>;

/// A password (section 5.2.2): eight octets at most.
pub type Password = Text<PASSWORD>;

/// A system_type (section 5.2.3): 12 octets at most.
pub type SystemType = Text<SYSTEM_TYPE>;

/// An address_range (section 5.2.7): 40 octets at most.
pub type AddressRange = Text<ADDRESS_RANGE>;

/// A service_type (section 5.2.11): five octets at most.
pub type ServiceType = Text<SERVICE_TYPE>;

/// The digits of a source_addr or of a destination_addr (sections 5.2.8 and 5.2.9): 20 octets at most.
pub type AddressDigits = Text<ADDRESS>;

/// A schedule_delivery_time, a validity_period or a final_date (sections 5.2.15, 5.2.16 and 4.8.2): 16 octets at most.
pub type TimeText = Text<TIME>;

/// A message_id (section 5.2.23): 64 octets at most.
pub type MessageIdText = Text<MESSAGE_ID>;
