//! The receipt of each final state, as deliver_sm with the sequence_number 2. Their octets were written by hand from SMPP 3.4, sections
//! 4.6.1, 5.3.2.12 and 5.3.2.35 and appendix B: a line for the header and a line for each field or two. Beside each stands what
//! tshark 4.0.17 (`text2pcap -T 2775,2775`) tells of its message_state. Of each it also tells: Deliver_sm, Seq: 2, Len: 163;
//! Originator address: 155; Recipient address: 144; Message type: Short message contains SMSC Delivery Receipt (0x1);
//! Message length: 104; receipted_message_id, Length: 11, SMSC identifier: 1000100001; message_state, Length: 1; and nothing of a fault.

/// Message state: DELIVERED (2).
pub const DELIVERED_RECEIPT: &[u8] = b"\
    \x00\x00\x00\xa3\x00\x00\x00\x05\x00\x00\x00\x00\x00\x00\x00\x02\
    \0\
    \x01\x01155\0\
    \x01\x01144\0\
    \x04\x00\x00\
    \0\0\
    \x00\x00\x00\x00\
    \x68id:1000100001 sub:001 dlvrd:001 submit date:2401310000 done date:2401310000 stat:DELIVRD err:000 text:Hi\
    \x00\x1e\x00\x0b1000100001\0\
    \x04\x27\x00\x01\x02";

/// Message state: EXPIRED (3).
pub const EXPIRED_RECEIPT: &[u8] = b"\
    \x00\x00\x00\xa3\x00\x00\x00\x05\x00\x00\x00\x00\x00\x00\x00\x02\
    \0\
    \x01\x01155\0\
    \x01\x01144\0\
    \x04\x00\x00\
    \0\0\
    \x00\x00\x00\x00\
    \x68id:1000100001 sub:001 dlvrd:000 submit date:2401310000 done date:2402030000 stat:EXPIRED err:000 text:Hi\
    \x00\x1e\x00\x0b1000100001\0\
    \x04\x27\x00\x01\x03";

/// Message state: DELETED (4).
pub const DELETED_RECEIPT: &[u8] = b"\
    \x00\x00\x00\xa3\x00\x00\x00\x05\x00\x00\x00\x00\x00\x00\x00\x02\
    \0\
    \x01\x01155\0\
    \x01\x01144\0\
    \x04\x00\x00\
    \0\0\
    \x00\x00\x00\x00\
    \x68id:1000100001 sub:001 dlvrd:000 submit date:2401310000 done date:2401310000 stat:DELETED err:000 text:Hi\
    \x00\x1e\x00\x0b1000100001\0\
    \x04\x27\x00\x01\x04";

/// Message state: UNDELIVERABLE (5).
pub const UNDELIVERABLE_RECEIPT: &[u8] = b"\
    \x00\x00\x00\xa3\x00\x00\x00\x05\x00\x00\x00\x00\x00\x00\x00\x02\
    \0\
    \x01\x01155\0\
    \x01\x01144\0\
    \x04\x00\x00\
    \0\0\
    \x00\x00\x00\x00\
    \x68id:1000100001 sub:001 dlvrd:000 submit date:2401310000 done date:2401310028 stat:UNDELIV err:100 text:Hi\
    \x00\x1e\x00\x0b1000100001\0\
    \x04\x27\x00\x01\x05";

/// Message state: REJECTED (8).
pub const REJECTED_RECEIPT: &[u8] = b"\
    \x00\x00\x00\xa3\x00\x00\x00\x05\x00\x00\x00\x00\x00\x00\x00\x02\
    \0\
    \x01\x01155\0\
    \x01\x01144\0\
    \x04\x00\x00\
    \0\0\
    \x00\x00\x00\x00\
    \x68id:1000100001 sub:001 dlvrd:000 submit date:2401310000 done date:2401310000 stat:REJECTD err:102 text:Hi\
    \x00\x1e\x00\x0b1000100001\0\
    \x04\x27\x00\x01\x08";
