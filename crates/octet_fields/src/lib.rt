//! Fields of records and PDUs, from octets and to octets.
#![tactic(auto)]

mod defect;
mod laws;
mod reading;
mod writing;

pub use defect::Defect;
pub use laws::{first_fault_is_told, read_is_spelled, spelled_is_read, whole_is_read};
pub use reading::{
    check_parameters, counted_at, long_counted_at, nothing_at, octet_at, text_at, tlv_at, u16_at,
    u32_at, u64_at,
};
pub use writing::{length_of, put_counted, put_long_counted, put_octets, put_pieces};
