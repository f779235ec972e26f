//! Laws of the tables, each the contract of a function that does nothing.

ghost use Rattle.std.specs.Prelude.{◌≡◌};

use crate::limits::{
    ADDRESS, ADDRESS_RANGE, HEADER, MESSAGE_ID, OPTIONAL_PARAMETERS, PASSWORD, PDU, SERVICE_TYPE,
    SHORT_MESSAGE, SYSTEM_ID, SYSTEM_TYPE, TIME,
};

/// The limits are those of SMPP 3.4, sections 3.2 and 5.2, and the two that this centre has chosen.
pub fn limits_are_those_of_the_standard()
    ensures header { HEADER ≡ 16 }
    ensures system_id { SYSTEM_ID ≡ 16 }
    ensures password { PASSWORD ≡ 9 }
    ensures system_type { SYSTEM_TYPE ≡ 13 }
    ensures address_range { ADDRESS_RANGE ≡ 41 }
    ensures service_type { SERVICE_TYPE ≡ 6 }
    ensures address { ADDRESS ≡ 21 }
    ensures time { TIME ≡ 17 }
    ensures message_id { MESSAGE_ID ≡ 65 }
    ensures short_message { SHORT_MESSAGE ≡ 254 }
    ensures pdu { PDU ≡ 8192 }
    ensures optional_parameters { OPTIONAL_PARAMETERS ≡ 7000 }
{}
