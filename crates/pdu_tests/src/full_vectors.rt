//! PDUs with no two fields alike, one of each command, so that a field read or written in another's place shows. Their octets were
//! written by hand from the tables of SMPP 3.4, section 4: a line for the header and a line for each field or two. Beside each
//! stands what tshark 4.0.17 tells of its fields; of a response whose status is not 0 it tells the header alone.

/// Bind_receiver, 22: RECEIVER1, hidden07, PULL, 3.3, 0x06, 0x12, ^155.
pub const BIND_RECEIVER: &[u8] = b"\
    \x00\x00\x00\x30\x00\x00\x00\x01\x00\x00\x00\x15\x00\x00\x00\x16\
    RECEIVER1\0\
    hidden07\0\
    PULL\0\
    \x33\
    \x06\x12\
    ^155\0";

/// Bind_receiver - resp, Ok, 24: NORTH, sc_interface_version 3.3.
pub const BIND_RECEIVER_ANSWER: &[u8] = b"\
    \x00\x00\x00\x1b\x80\x00\x00\x01\x00\x00\x00\x00\x00\x00\x00\x18\
    NORTH\0\
    \x02\x10\x00\x01\x33";

/// Bind_transmitter, 26: TRANSMIT2, opaque06, PUSH, 3.5, 0x03, 0x0e, ^166.
pub const BIND_TRANSMITTER: &[u8] = b"\
    \x00\x00\x00\x30\x00\x00\x00\x02\x00\x00\x00\x19\x00\x00\x00\x1a\
    TRANSMIT2\0\
    opaque06\0\
    PUSH\0\
    \x35\
    \x03\x0e\
    ^166\0";

/// Bind_transmitter - resp, Ok, 28: SOUTH, sc_interface_version 3.5.
pub const BIND_TRANSMITTER_ANSWER: &[u8] = b"\
    \x00\x00\x00\x1b\x80\x00\x00\x02\x00\x00\x00\x00\x00\x00\x00\x1c\
    SOUTH\0\
    \x02\x10\x00\x01\x35";

/// Bind_transceiver, 11: SMPP3TEST, secret08, SUBMIT1, 3.4, 0x05, 0x09, ^44.
pub const BIND_TRANSCEIVER: &[u8] = b"\
    \x00\x00\x00\x32\x00\x00\x00\x09\x00\x00\x00\x0a\x00\x00\x00\x0b\
    SMPP3TEST\0\
    secret08\0\
    SUBMIT1\0\
    \x34\
    \x05\x09\
    ^44\0";

/// Bind_transceiver - resp, 0x0d, 12.
pub const BIND_TRANSCEIVER_ANSWER: &[u8] = b"\
    \x00\x00\x00\x1a\x80\x00\x00\x09\x00\x00\x00\x0d\x00\x00\x00\x0c\
    SMSC\0\
    \x02\x10\x00\x01\x34";

/// Submit_sm, 16909071: CMT, 0x01, 0x08, 4477, 0x02, 0x09, 155, Store and forward and UDHI, 0x7f, 0x03, Jan 31, 2024, 604800
/// seconds, Delivery receipt 0x1 and Intermediate 0x1, Don't replace, 0xf5, 99, 48656c6c6f. (It takes replace_if_present_flag for
/// a bit: 6 is none that it knows.)
pub const SUBMIT: &[u8] = b"\
    \x00\x00\x00\x50\x00\x00\x00\x04\x00\x00\x00\x0e\x01\x02\x03\x0f\
    CMT\0\
    \x01\x084477\0\
    \x02\x09155\0\
    \x43\x7f\x03\
    240131000000000+\0\
    000007000000000R\0\
    \x11\x06\xf5\x63\
    \x05Hello";

/// Submit_sm - resp, Ok, 30: 3000400005.
pub const SUBMIT_ANSWER: &[u8] = b"\
    \x00\x00\x00\x1b\x80\x00\x00\x04\x00\x00\x00\x00\x00\x00\x00\x1e\
    3000400005\0";

/// Deliver_sm, 32: WAP, 0x01, 0x08, 4477, 0x02, 0x09, 155, SMSC Delivery Receipt and Reply path, 0x3f, 0x04, Jan 31, 2025, 691200
/// seconds, Delivery receipt 0x2 and Intermediate 0x1, Replace, 0xf6, 100, 416e73776572, receipted_message_id 3000400005,
/// message_state DELIVERED.
pub const DELIVER: &[u8] = b"\
    \x00\x00\x00\x65\x00\x00\x00\x05\x00\x00\x00\x1f\x00\x00\x00\x20\
    WAP\0\
    \x01\x084477\0\
    \x02\x09155\0\
    \x84\x3f\x04\
    250131000000000+\0\
    000008000000000R\0\
    \x12\x07\xf6\x64\
    \x06Answer\
    \x00\x1e\x00\x0b3000400005\0\
    \x04\x27\x00\x01\x02";

/// Deliver_sm - resp, Ok, 34: 4000500006.
pub const DELIVER_ANSWER: &[u8] = b"\
    \x00\x00\x00\x1b\x80\x00\x00\x05\x00\x00\x00\x00\x00\x00\x00\x22\
    4000500006\0";

/// Query_sm, 17: 2000300004, 0x01, 0x08, 4477.
pub const QUERY: &[u8] = b"\
    \x00\x00\x00\x22\x00\x00\x00\x03\x00\x00\x00\x00\x00\x00\x00\x11\
    2000300004\0\
    \x01\x084477\0";

/// Query_sm - resp, 0x07, 8.
pub const QUERY_ANSWER: &[u8] = b"\
    \x00\x00\x00\x2e\x80\x00\x00\x03\x00\x00\x00\x07\x00\x00\x00\x08\
    2000300004\0\
    240131000000000+\0\
    \x05\x09";

/// Cancel_sm, 18: CMT, 2000300004, 0x01, 0x08, 4477, 0x02, 0x09, 155.
pub const CANCEL: &[u8] = b"\
    \x00\x00\x00\x2c\x00\x00\x00\x08\x00\x00\x00\x00\x00\x00\x00\x12\
    CMT\0\
    2000300004\0\
    \x01\x084477\0\
    \x02\x09155\0";

/// Cancel_sm - resp, Cancel SM failed, 35.
pub const CANCEL_ANSWER: &[u8] =
    b"\x00\x00\x00\x10\x80\x00\x00\x08\x00\x00\x00\x11\x00\x00\x00\x23";

/// Unbind, 37.
pub const UNBIND: &[u8] = b"\x00\x00\x00\x10\x00\x00\x00\x06\x00\x00\x00\x24\x00\x00\x00\x25";

/// Unbind - resp, 0x26, 39.
pub const UNBIND_ANSWER: &[u8] =
    b"\x00\x00\x00\x10\x80\x00\x00\x06\x00\x00\x00\x26\x00\x00\x00\x27";

/// Enquire_link, 41.
pub const ENQUIRE_LINK: &[u8] = b"\x00\x00\x00\x10\x00\x00\x00\x15\x00\x00\x00\x28\x00\x00\x00\x29";

/// Enquire_link - resp, 0x2a, 43.
pub const ENQUIRE_LINK_ANSWER: &[u8] =
    b"\x00\x00\x00\x10\x80\x00\x00\x15\x00\x00\x00\x2a\x00\x00\x00\x2b";

/// Generic_nack, Invalid command ID, 44.
pub const GENERIC_NACK: &[u8] = b"\x00\x00\x00\x10\x80\x00\x00\x00\x00\x00\x00\x03\x00\x00\x00\x2c";

/// All of them, and what each says (`told.rt`): a number as octets, a text as it is.
pub const FULL_PDUS: &[(&[u8], &[u8])] = &[
    (
        BIND_RECEIVER,
        b"bind_receiver|\0\0\0\x15|\0\0\0\x16|RECEIVER1|hidden07|PULL|\x33|\x06|\x12|^155",
    ),
    (
        BIND_RECEIVER_ANSWER,
        b"bind_receiver_resp|\0\0\0\0|\0\0\0\x18|NORTH|\x02\x10\x00\x01\x33",
    ),
    (
        BIND_TRANSMITTER,
        b"bind_transmitter|\0\0\0\x19|\0\0\0\x1a|TRANSMIT2|opaque06|PUSH|\x35|\x03|\x0e|^166",
    ),
    (
        BIND_TRANSMITTER_ANSWER,
        b"bind_transmitter_resp|\0\0\0\0|\0\0\0\x1c|SOUTH|\x02\x10\x00\x01\x35",
    ),
    (
        BIND_TRANSCEIVER,
        b"bind_transceiver|\0\0\0\x0a|\0\0\0\x0b|SMPP3TEST|secret08|SUBMIT1|\x34|\x05|\x09|^44",
    ),
    (
        BIND_TRANSCEIVER_ANSWER,
        b"bind_transceiver_resp|\0\0\0\x0d|\0\0\0\x0c|SMSC|\x02\x10\x00\x01\x34",
    ),
    (
        SUBMIT,
        b"submit_sm|\0\0\0\x0e|\x01\x02\x03\x0f|CMT|\x01|\x08|4477|\x02|\x09|155|\x43|\x7f|\x03|240131000000000+|000007000000000R|\x11|\x06|\xf5|\x63|\
            Hello|",
    ),
    (
        SUBMIT_ANSWER,
        b"submit_sm_resp|\0\0\0\0|\0\0\0\x1e|3000400005",
    ),
    (
        DELIVER,
        b"deliver_sm|\0\0\0\x1f|\0\0\0\x20|WAP|\x01|\x08|4477|\x02|\x09|155|\x84|\x3f|\x04|250131000000000+|000008000000000R|\x12|\x07|\xf6|\x64|Answer|\
            \x00\x1e\x00\x0b3000400005\0\x04\x27\x00\x01\x02",
    ),
    (
        DELIVER_ANSWER,
        b"deliver_sm_resp|\0\0\0\0|\0\0\0\x22|4000500006",
    ),
    (
        QUERY,
        b"query_sm|\0\0\0\0|\0\0\0\x11|2000300004|\x01|\x08|4477",
    ),
    (
        QUERY_ANSWER,
        b"query_sm_resp|\0\0\0\x07|\0\0\0\x08|2000300004|240131000000000+|\x05|\x09",
    ),
    (
        CANCEL,
        b"cancel_sm|\0\0\0\0|\0\0\0\x12|CMT|2000300004|\x01|\x08|4477|\x02|\x09|155",
    ),
    (CANCEL_ANSWER, b"cancel_sm_resp|\0\0\0\x11|\0\0\0\x23"),
    (UNBIND, b"unbind|\0\0\0\x24|\0\0\0\x25"),
    (UNBIND_ANSWER, b"unbind_resp|\0\0\0\x26|\0\0\0\x27"),
    (ENQUIRE_LINK, b"enquire_link|\0\0\0\x28|\0\0\0\x29"),
    (
        ENQUIRE_LINK_ANSWER,
        b"enquire_link_resp|\0\0\0\x2a|\0\0\0\x2b",
    ),
    (GENERIC_NACK, b"generic_nack|\0\0\0\x03|\0\0\0\x2c"),
];
