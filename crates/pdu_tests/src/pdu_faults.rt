//! The first fault of octets that are no PDU, and the longest PDUs that are read.

use crate::cases::{assert_same, framed, joined};
use crate::told::assert_said;
use crate::vectors::*;
use pdu_codec::{Field, PduFault, decode};
use std::alloc::Global;
use std::process::Abort;

/// Octets, how many of them there are, those that follow them, and their fault once command_length says how many they are.
type Row = (&'static [u8], usize, &'static [u8], PduFault);

/// The fault of the octets and those that follow them, once command_length says how many they are.
fn fault_of(rt: &impl Abort, alloc: Global, octets: &[u8], after: &[u8]) -> Option<PduFault> {
    let framed = framed(rt, alloc, octets, after);
    let fault = decode(alloc, &framed).err();
    drop(framed);
    fault
}

/// That the row of this number has its fault.
fn assert_fault(rt: &impl Abort, alloc: Global, number: usize, row: Row) {
    let (octets, length, after, wanted) = row;
    let front = octets.get(..length).expect(rt, "octets");
    let fault = fault_of(rt, alloc, front, after);
    assert_same(rt, &(number, fault), &(number, Some(wanted)));
}

/// The sequence_number and the status of a PDU.
const LAST: &[u8] = b"\0\0\0\0\0\0\0\x01";

const FAULTS: &[Row] = &[
    (QUERY, 15, b"", PduFault::Length),
    // No command of SMPP 3.4; replace_sm; and one that SMPP 3.4 reserves.
    (b"\0\0\0\0\x00\x00\xff\xff", 8, LAST, PduFault::Command),
    (b"\0\0\0\0\x00\x00\x00\x07", 8, LAST, PduFault::Command),
    (b"\0\0\0\0\x80\x00\x00\x16", 8, LAST, PduFault::Command),
    (QUERY, 32, b"", PduFault::Cut(Field::SourceAddr)),
    (
        BIND_TRANSCEIVER,
        16,
        b"sixteen octets..",
        PduFault::LongText(Field::SystemId),
    ),
    (SUBMIT, 38, b"\xff\x48\x69", PduFault::TextLength),
    (BIND_ANSWER, 27, b"", PduFault::Tlvs),
    (SUBMIT_ANSWER, 27, b"\0", PduFault::Extra),
    (CANCEL, 37, b"\0", PduFault::Extra),
    (
        CANCEL,
        36,
        b"twenty-one characters\0",
        PduFault::LongText(Field::DestinationAddr),
    ),
    (CANCEL_OK, 16, b"\0", PduFault::Extra),
];

#[test]
fn faults(rt: HostRuntime) {
    for (number, row) in FAULTS.iter().enumerate() {
        assert_fault(&rt, rt.alloc(), number, *row);
    }
}

/// So many octets 0, 1, 2 and so on up to 250, and again.
fn counting(rt: &impl Abort, alloc: Global, count: usize) -> Vec<u8> {
    let mut octets = Vec::new(alloc);
    for place in 0..count {
        octets.push((place % 251) as u8).expect(rt, "memory");
    }
    octets
}

/// The fault of a PDU of no command that has so many octets behind its header.
fn fault_of_zeros(rt: &impl Abort, alloc: Global, count: usize) -> Option<PduFault> {
    let zeros = vec![in alloc; 0u8; count].expect(rt, "memory");
    let unknown = b"\0\0\0\0\0\0\xff\xff\0\0\0\0\0\0\0\x01";
    let fault = fault_of(rt, alloc, unknown, &zeros);
    drop(zeros);
    fault
}

/// The fault of a submit_sm with a message_payload of 6,997 octets.
fn fault_of_parameters(rt: &impl Abort, alloc: Global) -> Option<PduFault> {
    let payload = counting(rt, alloc, 6997);
    let tlvs = joined(rt, alloc, &[b"\x04\x24\x1b\x55", &payload]);
    drop(payload);
    let fault = fault_of(rt, alloc, SUBMIT, &tlvs);
    drop(tlvs);
    fault
}

/// The fault of a query_sm that has one octet fewer than its command_length says.
fn fault_of_shorter(rt: &impl Abort, alloc: Global) -> Option<PduFault> {
    let shorter = QUERY.get(..32).expect(rt, "octets");
    decode(alloc, shorter).err()
}

/// The fault of a query_sm that has one octet more than its command_length says.
fn fault_of_longer(rt: &impl Abort, alloc: Global) -> Option<PduFault> {
    let longer = joined(rt, alloc, &[QUERY, b"\0"]);
    let fault = decode(alloc, &longer).err();
    drop(longer);
    fault
}

const LENGTHS: [Option<PduFault>; 5] = [
    Some(PduFault::Command),
    Some(PduFault::Length),
    Some(PduFault::Tlvs),
    Some(PduFault::Length),
    Some(PduFault::Length),
];

/// 8,192 octets may be a PDU, and 8,193 are none, whatever their command. Optional parameters have 7,000 octets at most. And a query_sm
/// of one octet fewer than command_length says, and of one more.
fn lengths(rt: &impl Abort, alloc: Global) -> [Option<PduFault>; 5] {
    [
        fault_of_zeros(rt, alloc, 8176),
        fault_of_zeros(rt, alloc, 8177),
        fault_of_parameters(rt, alloc),
        fault_of_shorter(rt, alloc),
        fault_of_longer(rt, alloc),
    ]
}

#[test]
fn lengths_have_limits(rt: HostRuntime) {
    assert_same(&rt, &lengths(&rt, rt.alloc()), &LENGTHS);
}

/// A submit_sm (SMPP 3.4, section 4.4.1) with each text as long as it may be, the greatest short_message, and these octets of optional
/// parameters: a message_payload of 6,996.
fn greatest(rt: &impl Abort, alloc: Global, message: &[u8], payload: &[u8]) -> Vec<u8> {
    let pieces: [&[u8]; 6] = [
        b"\0\0\x1c\xc4\0\0\0\x04\0\0\0\0\0\0\0\x01",
        b"aaaaa\0\x01\x02aaaaaaaaaaaaaaaaaaaa\0\x03\x04aaaaaaaaaaaaaaaaaaaa\0\x05\x06\x07",
        b"aaaaaaaaaaaaaaaa\0aaaaaaaaaaaaaaaa\0\x08\x09\x0a\x0b\xfe",
        message,
        b"\x04\x24\x1b\x54",
        payload,
    ];
    joined(rt, alloc, &pieces)
}

/// What is told of it.
fn told_of_greatest(rt: &impl Abort, alloc: Global, message: &[u8], payload: &[u8]) -> Vec<u8> {
    let pieces: [&[u8]; 5] = [
        b"submit_sm|\0\0\0\0|\0\0\0\x01|aaaaa|\x01|\x02|aaaaaaaaaaaaaaaaaaaa|\x03|\x04|aaaaaaaaaaaaaaaaaaaa|",
        b"\x05|\x06|\x07|aaaaaaaaaaaaaaaa|aaaaaaaaaaaaaaaa|\x08|\x09|\x0a|\x0b|",
        message,
        b"|\x04\x24\x1b\x54",
        payload,
    ];
    joined(rt, alloc, &pieces)
}

#[test]
fn a_submit_of_7364_octets_is_read_and_written(rt: HostRuntime) {
    let alloc = rt.alloc();
    let message = counting(&rt, alloc, 254);
    let payload = counting(&rt, alloc, 6996);
    let octets = greatest(&rt, alloc, &message, &payload);
    let told = told_of_greatest(&rt, alloc, &message, &payload);
    assert_said(&rt, alloc, octets.len(), &octets, &told);
    assert_same(&rt, &octets.len(), &7364);
}

/// That a fault is told so.
fn assert_told(rt: &impl Abort, alloc: Global, fault: PduFault, wanted: &str) {
    let told = fault.to_string(alloc).expect(rt, "memory");
    assert_same(rt, &told.as_str(), &wanted);
}

#[test]
fn faults_are_told(rt: HostRuntime) {
    let cut = PduFault::Cut(Field::DestinationAddr);
    let told = "the PDU ends before destination_addr does";
    assert_told(&rt, rt.alloc(), cut, told);
    let long = PduFault::TextLength;
    assert_told(&rt, rt.alloc(), long, "sm_length is above 254");
}
