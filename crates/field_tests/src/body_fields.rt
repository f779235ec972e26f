//! The fields of PDUs at the front of octets.

use crate::same::assert_same;
use pdu_fields::{
    Field, PduFault, counted_at, destination_at, handling_at, nothing_at, octet_at, octets_at,
    source_at, text_at,
};
use std::alloc::Global;
use std::process::Abort;

/// What is read of a field, and the octets behind it.
type Read<T> = Result<(T, &'static [u8]), PduFault>;

const TEXTS: [Read<&[u8]>; 4] = [
    Ok((b"sme1", b"rest")),
    Err(PduFault::LongText(Field::SystemId)),
    Ok((b"Hi", b"!")),
    Err(PduFault::TextLength),
];

fn texts() -> [Read<&'static [u8]>; 4] {
    [
        text_at(Field::SystemId, 5, b"sme1\0rest"),
        text_at(Field::SystemId, 4, b"sme1\0rest"),
        counted_at(b"\x02Hi!"),
        counted_at(b"\xffHi!"),
    ]
}

const OCTETS: [Read<u8>; 2] = [Ok((3, b"rest")), Err(PduFault::Cut(Field::EsmClass))];

fn octets() -> [Read<u8>; 2] {
    [
        octet_at(Field::EsmClass, b"\x03rest"),
        octet_at(Field::EsmClass, b""),
    ]
}

const PAIRS: [Read<[u8; 2]>; 2] = [Ok(([1, 8], b"rest")), Err(PduFault::Cut(Field::AddrNpi))];

fn pairs() -> [Read<[u8; 2]>; 2] {
    let fields = [Field::AddrTon, Field::AddrNpi];
    [
        octets_at(fields, b"\x01\x08rest"),
        octets_at(fields, b"\x01"),
    ]
}

const NOTHING: [Result<(), PduFault>; 2] = [Ok(()), Err(PduFault::Extra)];

fn nothing() -> [Result<(), PduFault>; 2] {
    [nothing_at(b""), nothing_at(b"!")]
}

#[test]
fn fields_are_read_and_faults_told(rt: HostRuntime) {
    assert_same(&rt, &texts(), &TEXTS);
    assert_same(&rt, &octets(), &OCTETS);
    assert_same(&rt, &pairs(), &PAIRS);
    assert_same(&rt, &nothing(), &NOTHING);
}

/// The type of number, the plan, the digits, and the octets behind them.
type Found = (u8, u8, &'static [u8], &'static [u8]);

const SOURCE: Found = (1, 8, b"4477", b"rest");

const DESTINATION: Found = (2, 9, b"155", b"");

fn source(rt: &impl Abort) -> Found {
    let (source, rest) = source_at(b"\x01\x084477\0rest").expect(rt, "a source");
    (source.ton, source.npi, source.digits, rest)
}

/// A destination, and whether its digits are those of the address that is made of it.
fn destination(rt: &impl Abort, alloc: Global) -> (Found, bool) {
    let (destination, rest) = destination_at(b"\x02\x09155\0").expect(rt, "a destination");
    let found = (destination.ton, destination.npi, destination.digits, rest);
    let address = destination.address(alloc).expect(rt, "memory");
    let is_made = address.digits.octets() == b"155".as_slice();
    drop(address);
    (found, is_made)
}

#[test]
fn addresses_are_read(rt: HostRuntime) {
    assert_same(&rt, &source(&rt), &SOURCE);
    assert_same(&rt, &destination(&rt, rt.alloc()), &(DESTINATION, true));
}

/// The fields of a submit_sm from esm_class to sm_default_msg_id (SMPP 3.4, section 4.4.1): octets, texts, and octets again.
type Handling = ([u8; 3], [&'static [u8]; 2], [u8; 4]);

const HANDLING: Handling = (
    [0x43, 0x7f, 3],
    [b"240131000000000+", b"000007000000000R"],
    [0x11, 6, 0xf5, 99],
);

fn handling(rt: &impl Abort) -> (Handling, &'static [u8]) {
    let octets = b"\x43\x7f\x03240131000000000+\0000007000000000R\0\x11\x06\xf5\x63rest";
    let (handling, rest) = handling_at(octets).expect(rt, "fields");
    let found = (
        [
            handling.esm_class,
            handling.protocol_id,
            handling.priority_flag,
        ],
        [handling.schedule_delivery_time, handling.validity_period],
        [
            handling.registered_delivery,
            handling.replace_if_present_flag,
            handling.data_coding,
            handling.sm_default_msg_id,
        ],
    );
    (found, rest)
}

#[test]
fn handling_is_read(rt: HostRuntime) {
    assert_same(&rt, &handling(&rt), &(HANDLING, b"rest".as_slice()));
}
