//! The octets of the tests, written by hand from SMPP 3.4, section 4 and appendix B, and of chains from their format.

/// A bind_transceiver of sme1 with the password pw1 and the version 0x34.
pub const BIND: &[u8] = b"\0\0\0\x1e\0\0\0\x09\0\0\0\0\0\0\0\x01sme1\0pw1\0\0\x34\0\0\0";

/// The same of sme2 with the password pw2.
pub const BIND_SME2: &[u8] = b"\0\0\0\x1e\0\0\0\x09\0\0\0\0\0\0\0\x01sme2\0pw2\0\0\x34\0\0\0";

/// A submit_sm from 144 to 155 with the text Hi.
pub const SUBMIT: &[u8] = b"\0\0\0\x29\0\0\0\x04\0\0\0\0\0\0\0\x02\
\0\x01\x01144\0\x01\x01155\0\0\0\0\0\0\0\0\0\0\x02Hi";

/// Its response, once the message 1000100001 is taken.
pub const SUBMIT_ANSWER: &[u8] = b"\0\0\0\x1b\x80\0\0\x04\0\0\0\0\0\0\0\x021000100001\0";

/// The response that refuses it since the queue is full, 0x14.
pub const SUBMIT_REFUSED: &[u8] = b"\0\0\0\x10\x80\0\0\x04\0\0\0\x14\0\0\0\x02";

/// The deliver_sm of the receipt of the message, with the sequence_number 1.
pub const RECEIPT: &[u8] = b"\0\0\0\xa3\0\0\0\x05\0\0\0\0\0\0\0\x01\
\0\x01\x01155\0\x01\x01144\0\x04\0\0\0\0\0\0\0\0\
\x68id:1000100001 sub:001 dlvrd:001 submit date:2401310000 done date:2401310000 stat:DELIVRD err:000 text:Hi\
\0\x1e\0\x0b1000100001\0\x04\x27\0\x01\x02";

/// The chain of the message, taken on 2024-01-31 with a receipt asked for, and its first attempt.
pub const ATTEMPTED: &[u8] = b"\x01\0\0\0\0\x3b\x9c\x50\xa1\0\x02\x01\x01\0\x01\x65\xb9\x8d\x80\
\x04sme1\x04sme1\0\x01\x01\x03144\x01\x01\x03155\0\0\0\x01\0\x65\xb9\x8d\x80\x65\xbd\x82\0\x02Hi\0\0\
\x02\x01\0\x01\x65\xb9\x8d\x80\x01";

/// The same, that it was delivered, and that its receipt is told.
pub const TOLD: &[u8] = b"\x02\0\0\0\0\x3b\x9c\x50\xa1\0\x04\x01\x01\0\x01\x65\xb9\x8d\x80\
\x04sme1\x04sme1\0\x01\x01\x03144\x01\x01\x03155\0\0\0\x01\0\x65\xb9\x8d\x80\x65\xbd\x82\0\0\x02Hi\0\0\
\x02\x01\0\x01\x65\xb9\x8d\x80\x01\x04\x01\0\x01\x65\xb9\x8d\x80\x02\0\0\x05\x01\0\x01\x65\xb9\x8d\x80";

/// An enquire_link, and its response.
pub const ENQUIRE_LINK: &[u8] = b"\0\0\0\x10\0\0\0\x15\0\0\0\0\0\0\0\x02";

pub const LINKED: &[u8] = b"\0\0\0\x10\x80\0\0\x15\0\0\0\0\0\0\0\x02";

/// An unbind, and its response.
pub const UNBIND: &[u8] = b"\0\0\0\x10\0\0\0\x06\0\0\0\0\0\0\0\x02";

pub const UNBOUND: &[u8] = b"\0\0\0\x10\x80\0\0\x06\0\0\0\0\0\0\0\x02";

/// The deliver_sm_resp to what was pushed with the sequence_number 1.
pub const DELIVER_ANSWER: &[u8] = b"\0\0\0\x11\x80\0\0\x05\0\0\0\0\0\0\0\x01\0";

/// One to a deliver_sm that nobody sent.
pub const STRAY_ANSWER: &[u8] = b"\0\0\0\x11\x80\0\0\x05\0\0\0\0\0\0\0\x09\0";
