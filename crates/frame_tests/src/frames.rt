//! The frames of an input, and what it ends in.

use crate::same::assert_same;
use crate::source::Source;
use frame_io::{FrameFault, next_frame};
use octet_io::CountedReader;
use pdu_frames::Framer;
use std::process::Abort;

/// A bind_transceiver, a query_sm, and three octets of a third PDU.
const INPUT: &[u8] =
    b"\x00\x00\x00\x1e\x00\x00\x00\x09\x00\x00\x00\x00\x00\x00\x00\x01sme1\x00pw1\x00\x00\x34\x00\x00\x00\
\x00\x00\x00\x21\x00\x00\x00\x03\x00\x00\x00\x00\x00\x00\x00\x031000100001\x00\x01\x01144\x00\x00\x00\x00";

/// Where its frames end.
const ENDS: [usize; 3] = [0, 30, 63];

/// The front of `INPUT`.
fn front(rt: &impl Abort, count: usize) -> &'static [u8] {
    INPUT.get(..count).expect(rt, "octets")
}

/// Some of the places at which its frames end.
fn ends(rt: &impl Abort, from: usize, to: usize) -> &'static [usize] {
    ENDS.get(from..to).expect(rt, "places")
}

/// Reads on: frames of `INPUT`, which end at these places after the first of them, and then this.
fn assert_read<A: Abort + AllocGlobal>(
    rt: &A,
    reader: &mut CountedReader<&mut Source<'_>>,
    framer: &mut Framer,
    places: &[usize],
    last: Result<bool, FrameFault>,
) {
    let mut frame = Vec::new(rt.alloc());
    for pair in places.windows(2) {
        let [from, to] = pair else {
            panic!(rt; "two places");
        };
        assert_eq!(rt; next_frame(reader, framer, &mut frame), Ok(true));
        assert_eq!(rt; Some(frame.as_slice()), INPUT.get(*from..*to));
    }
    assert_eq!(rt; next_frame(reader, framer, &mut frame), last);
}

/// That this is told of a source, from its beginning.
fn assert_whole<A: Abort + AllocGlobal>(
    rt: &A,
    source: &mut Source<'_>,
    places: &[usize],
    last: Result<bool, FrameFault>,
) {
    let mut framer = Framer::make(rt.alloc()).expect(rt, "memory");
    assert_read(
        rt,
        &mut CountedReader::make(source),
        &mut framer,
        places,
        last,
    );
}

#[test]
fn frames_come_at_any_pace(rt: HostRuntime) {
    for pace in [1, 2, 3, 7, 8192] {
        for interrupts in [false, true] {
            let mut source = Source::of(INPUT, pace);
            source.interrupts = interrupts;
            assert_whole(&rt, &mut source, &ENDS, Err(FrameFault::Short));
            assert_eq!(rt; source.octets, b"".as_slice());
        }
    }
}

#[test]
fn an_end_between_frames_is_no_fault(rt: HostRuntime) {
    for (count, places) in [(0, 1), (30, 2), (63, 3)] {
        let mut source = Source::of(front(&rt, count), 5);
        assert_whole(&rt, &mut source, ends(&rt, 0, places), Ok(false));
    }
}

#[test]
fn an_end_within_a_frame_is_short(rt: HostRuntime) {
    for count in 1..30 {
        let mut source = Source::of(front(&rt, count), 4);
        assert_whole(&rt, &mut source, ends(&rt, 0, 1), Err(FrameFault::Short));
    }
}

#[test]
fn nothing_behind_a_wrong_length_is_read(rt: HostRuntime) {
    for length in [b"\x00\x00\x20\x01", b"\x00\x00\x00\x0f"] {
        let mut octets = [0; 104];
        octets[..4].copy_from_slice(length);
        for pace in [1, 3, 8192] {
            let mut source = Source::of(&octets, pace);
            assert_whole(&rt, &mut source, ends(&rt, 0, 1), Err(FrameFault::Length));
            assert_eq!(rt; source.octets.len(), 100);
        }
    }
}

#[test]
fn nothing_behind_a_frame_is_read(rt: HostRuntime) {
    let mut source = Source::of(INPUT, 8192);
    let mut framer = Framer::make(rt.alloc()).expect(&rt, "memory");
    let mut frame = Vec::new(rt.alloc());
    let read = next_frame(
        &mut CountedReader::make(&mut source),
        &mut framer,
        &mut frame,
    );
    assert_eq!(rt; read, Ok(true));
    assert_eq!(rt; source.octets, &INPUT[ENDS[1]..]);
}

/// How often a reader that gives all that it is asked for is asked for a frame with this command_length.
fn reads_of<A: Abort + AllocGlobal>(rt: &A, length: u32) -> usize {
    let mut octets = Vec::from_slice(rt.alloc(), &length.to_be_bytes()).expect(rt, "memory");
    octets.resize(length as usize, 0).expect(rt, "memory");
    let mut source = Source::of(&octets, 8192);
    let mut framer = Framer::make(rt.alloc()).expect(rt, "memory");
    let mut frame = Vec::new(rt.alloc());
    let read = next_frame(
        &mut CountedReader::make(&mut source),
        &mut framer,
        &mut frame,
    );
    assert_same(rt, &(read, frame.len()), &(Ok(true), length as usize));
    source.reads
}

/// Once for the command_length, and then for 1,024 octets at a time.
#[test]
fn a_frame_takes_few_reads(rt: HostRuntime) {
    for (length, most) in [(16, 2), (1028, 2), (8192, 9)] {
        let few = reads_of(&rt, length) <= most;
        assert_same(&rt, &(length, few), &(length, true));
    }
}

/// The same call, made again, goes on where it stopped.
#[test]
fn a_failed_read_loses_nothing(rt: HostRuntime) {
    for left in 3..=INPUT.len() {
        let mut source = Source::of(INPUT, 1);
        source.fails_at = Some(left);
        let mut framer = Framer::make(rt.alloc()).expect(&rt, "memory");
        let mut reader = CountedReader::make(&mut source);
        let come = INPUT.len() - left;
        let whole = ENDS.iter().filter(|end| **end <= come).count();
        assert_read(
            &rt,
            &mut reader,
            &mut framer,
            ends(&rt, 0, whole),
            Err(FrameFault::Read),
        );
        assert_read(
            &rt,
            &mut reader,
            &mut framer,
            ends(&rt, whole.saturating_sub(1), ENDS.len()),
            Err(FrameFault::Short),
        );
    }
}
