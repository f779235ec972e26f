//! PDUs that are read and written, and frames that are read.

use crate::same::assert_same;
use frame_io::{FrameFault, next_frame};
use octet_io::CountedReader;
use pdu_codec::{Pdu, PduFault, decode, encode};
use pdu_frames::Framer;
use std::alloc::Global;
use std::io;
use std::io::Read;
use std::process::Abort;

/// A bind_transceiver of sme1, its response, a submit_sm with two optional parameters, a query_sm_resp and a cancel_sm.
const PDUS: &[&[u8]] = &[
    b"\0\0\0\x1e\0\0\0\x09\0\0\0\0\0\0\0\x01sme1\0pw1\0\0\x34\0\0\0",
    b"\0\0\0\x1c\x80\0\0\x09\0\0\0\0\0\0\0\x01CENTRE\0\x02\x10\0\x01\x34",
    b"\0\0\0\x34\0\0\0\x04\0\0\0\0\0\0\0\x02\0\x01\x01144\0\x01\x01155\0\0\0\0\0\0\x01\0\0\0\x02Hi\x02\x04\0\x02\0\x07\x02\x0e\0\x01\x02",
    b"\0\0\0\x1e\x80\0\0\x03\0\0\0\0\0\0\0\x031000100001\0\0\x01\0",
    b"\0\0\0\x25\0\0\0\x08\0\0\0\0\0\0\0\x04\x001000100001\0\x01\x01144\0\0\0\0",
];

/// The PDU of these octets; none if there was no memory.
fn tried(rt: &impl Abort, alloc: Global, octets: &[u8]) -> Option<Pdu> {
    match decode(alloc, octets) {
        Ok(pdu) => Some(pdu),
        Err(fault) => {
            assert_same(rt, &fault, &PduFault::Memory);
            None
        }
    }
}

fn read(rt: &impl Abort, alloc: Global, octets: &[u8]) -> Pdu {
    match tried(rt, alloc, octets) {
        Some(pdu) => pdu,
        None => tried(rt, alloc, octets).expect(rt, "a PDU"),
    }
}

/// A vector that holds one octet.
fn begun(rt: &impl Abort, alloc: Global) -> Vec<u8> {
    match Vec::from_slice(alloc, b"|") {
        Ok(octets) => octets,
        Err(_) => Vec::from_slice(alloc, b"|").expect(rt, "memory"),
    }
}

/// Puts the octets of a PDU behind those that are there, which stay alone if there was no memory.
fn write(rt: &impl Abort, pdu: &Pdu, octets: &mut Vec<u8>) {
    if encode(pdu, octets).is_err() {
        assert_same(rt, &octets.as_slice(), &b"|".as_slice());
        encode(pdu, octets).expect(rt, "memory");
    }
}

#[test]
fn pdus_are_read_and_written(rt: HostRuntime) {
    let alloc = rt.alloc();
    for wanted in PDUS {
        let pdu = read(&rt, alloc, wanted);
        let mut octets = begun(&rt, alloc);
        write(&rt, &pdu, &mut octets);
        drop(pdu);
        assert_same(&rt, &octets.get(1..), &Some(*wanted));
    }
}

/// A reader of octets, seven at a time.
#[derive(Drop)]
struct Source<'a> {
    octets: &'a [u8],
}

impl Read for Source<'_> {
    fn read(&mut self, buffer: &mut [u8]) -> io::Result<usize> {
        let count = self.octets.len().min(buffer.len()).min(7);
        let (front, rest) = self.octets.split_at(count);
        buffer[..count].copy_from_slice(front);
        self.octets = rest;
        Ok(count)
    }
}

fn framer(rt: &impl Abort, alloc: Global) -> Framer {
    match Framer::make(alloc) {
        Ok(framer) => framer,
        Err(fault) => {
            assert_same(rt, &fault, &PduFault::Memory);
            Framer::make(alloc).expect(rt, "memory")
        }
    }
}

/// Reads the next frame into a vector that holds nothing, and still does if there was no memory.
fn next(
    rt: &impl Abort,
    reader: &mut CountedReader<Source<'_>>,
    framer: &mut Framer,
    frame: &mut Vec<u8>,
) -> Result<bool, FrameFault> {
    match next_frame(reader, framer, frame) {
        Err(FrameFault::Memory) => {
            assert_same(rt, &frame.as_slice(), &b"".as_slice());
            next_frame(reader, framer, frame)
        }
        read => read,
    }
}

#[test]
fn frames_are_read(rt: HostRuntime) {
    let alloc = rt.alloc();
    for wanted in PDUS {
        let mut framer = framer(&rt, alloc);
        let mut reader = CountedReader::make(Source { octets: wanted });
        let mut frame = Vec::new(alloc);
        let read = next(&rt, &mut reader, &mut framer, &mut frame);
        assert_same(&rt, &(read, frame.as_slice()), &(Ok(true), *wanted));
        let end = next_frame(&mut reader, &mut framer, &mut frame);
        assert_same(&rt, &end, &Ok(false));
    }
}
