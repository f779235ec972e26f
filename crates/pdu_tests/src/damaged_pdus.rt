//! Octets that are cut or changed anywhere: they are a PDU that is written as the same octets, or a fault is told.

use crate::cases::{assert_same, framed};
use crate::full_vectors::FULL_PDUS;
use crate::told::is_written_as;
use crate::vectors::VECTORS;
use pdu_codec::{PduFault, decode};
use std::alloc::Global;
use std::process::Abort;

/// The octets are a PDU that is written as them, or a fault of theirs is told.
fn is_either(alloc: Global, octets: &[u8]) -> bool {
    match decode(alloc, octets) {
        Ok(pdu) => {
            let is_written = is_written_as(alloc, &pdu, octets);
            drop(pdu);
            is_written
        }
        Err(fault) => fault != PduFault::Memory,
    }
}

/// Whether a prefix is read with its own command_length as either, and with the whole one's as a PDU of a wrong length.
fn is_prefix(rt: &impl Abort, alloc: Global, prefix: &[u8]) -> bool {
    let octets = framed(rt, alloc, prefix, b"");
    let is_either = is_either(alloc, &octets);
    drop(octets);
    is_either && decode(alloc, prefix).err() == Some(PduFault::Length)
}

/// Whether the octets are read as either with another octet at a place.
fn is_changed(rt: &impl Abort, alloc: Global, whole: &[u8], place: usize, octet: u8) -> bool {
    let mut octets = Vec::from_slice(alloc, whole).expect(rt, "memory");
    if let Some(changed) = octets.get_mut(place) {
        *changed = octet;
    }
    let is_either = is_either(alloc, &octets);
    drop(octets);
    is_either
}

/// That the PDU of this number may be cut at each place, and changed there.
fn assert_damaged(rt: &impl Abort, alloc: Global, number: usize, whole: &[u8]) {
    for place in 0..whole.len() {
        let judged = [
            is_prefix(rt, alloc, &whole[..place]),
            is_changed(rt, alloc, whole, place, 0x00),
            is_changed(rt, alloc, whole, place, 0x7f),
            is_changed(rt, alloc, whole, place, 0x80),
            is_changed(rt, alloc, whole, place, 0xff),
        ];
        assert_same(rt, &(number, place, judged), &(number, place, [true; 5]));
    }
}

fn assert_all_damaged(rt: &impl Abort, alloc: Global, pdus: &[(&[u8], &[u8])]) {
    for (number, (whole, _)) in pdus.iter().enumerate() {
        assert_damaged(rt, alloc, number, whole);
    }
}

#[test]
fn prefixes_and_changed_octets(rt: HostRuntime) {
    assert_all_damaged(&rt, rt.alloc(), FULL_PDUS);
    assert_all_damaged(&rt, rt.alloc(), VECTORS);
}
