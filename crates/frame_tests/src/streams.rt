//! Frames out of streams that are cut into pieces. What is expected is the PDUs of which a stream was made.

use crate::pdus::*;
use crate::same::assert_same;
use pdu_fields::PduFault;
use pdu_frames::Framer;
use std::alloc::Global;
use std::process::Abort;

/// The octets of the pieces, one after the other.
fn joined(rt: &impl Abort, alloc: Global, pieces: &[&[u8]]) -> Vec<u8> {
    let mut octets = Vec::new(alloc);
    for piece in pieces {
        octets.extend_from_slice(piece).expect(rt, "memory");
    }
    octets
}

fn framer(rt: &impl Abort, alloc: Global) -> Framer {
    Framer::make(alloc).expect(rt, "memory")
}

/// How many of the octets the framer takes; none if it tells a wrong length.
fn fed(rt: &impl Abort, framer: &mut Framer, octets: &[u8]) -> Option<usize> {
    match framer.feed(octets) {
        Ok(count) => Some(count),
        Err(PduFault::Length) => None,
        Err(_) => panic!(rt; "another fault"),
    }
}

/// Whether a frame is taken; none if the framer tells a wrong length.
fn taken(rt: &impl Abort, framer: &mut Framer, frame: &mut Vec<u8>) -> Option<bool> {
    match framer.take(frame) {
        Ok(is_taken) => Some(is_taken),
        Err(PduFault::Length) => None,
        Err(_) => panic!(rt; "another fault"),
    }
}

/// Puts the frame that is taken now, and a bar behind it, behind the frames; nothing if no frame is whole.
fn put_frame(rt: &impl Abort, framer: &mut Framer, frame: &mut Vec<u8>, frames: &mut Vec<u8>) {
    if taken(rt, framer, frame) == Some(true) {
        frames.extend_from_slice(frame).expect(rt, "memory");
        frames.push(b'|').expect(rt, "memory");
    }
}

/// Feeds the piece whole, and takes each frame as soon as it is whole.
fn feed(
    rt: &impl Abort,
    framer: &mut Framer,
    piece: &[u8],
    frame: &mut Vec<u8>,
    frames: &mut Vec<u8>,
) {
    let mut rest = piece;
    // Each turn takes at least an octet.
    for _ in 0..piece.len() {
        let count = fed(rt, framer, rest).expect(rt, "octets");
        rest = rest.get(count..).expect(rt, "octets");
        put_frame(rt, framer, frame, frames);
    }
}

/// That these frames come of the stream, each with a bar behind it, and no others, and so many octets are wanted then, if the stream is
/// cut at this place and behind it into pieces of this size.
fn assert_cut(
    rt: &impl Abort,
    alloc: Global,
    stream: &[u8],
    (place, size): (usize, usize),
    wanted: (&[u8], usize),
) {
    let (first, rest) = stream.split_at(place.min(stream.len()));
    let (mut frame, mut frames) = (Vec::new(alloc), Vec::new(alloc));
    let mut framer = framer(rt, alloc);
    feed(rt, &mut framer, first, &mut frame, &mut frames);
    for piece in rest.chunks(size.max(1)) {
        feed(rt, &mut framer, piece, &mut frame, &mut frames);
    }
    let found = (place, size, (frames.as_slice(), framer.wanted()));
    assert_same(rt, &found, &(place, size, wanted));
}

/// A bind_transceiver and a submit_sm, cut anywhere.
#[test]
fn two_frames_are_cut(rt: HostRuntime) {
    let alloc = rt.alloc();
    let stream = joined(&rt, alloc, &[BIND_TRANSCEIVER, SUBMIT_WITH_RECEIPT]);
    let frames = joined(
        &rt,
        alloc,
        &[BIND_TRANSCEIVER, b"|", SUBMIT_WITH_RECEIPT, b"|"],
    );
    let wanted = (frames.as_slice(), 4);
    for place in 0..72 {
        assert_cut(&rt, alloc, &stream, (place, 71), wanted);
    }
    for size in [1, 2, 3, 7] {
        assert_cut(&rt, alloc, &stream, (0, size), wanted);
    }
    assert_same(&rt, &stream.len(), &71);
}

/// These, a query_sm, and twenty octets of a cancel_sm.
#[test]
fn three_frames_and_a_part_are_cut(rt: HostRuntime) {
    let alloc = rt.alloc();
    let (two, part) = ([BIND_TRANSCEIVER, SUBMIT_WITH_RECEIPT], &CANCEL[..20]);
    let stream = joined(&rt, alloc, &[two[0], two[1], QUERY, part]);
    let frames = joined(&rt, alloc, &[two[0], b"|", two[1], b"|", QUERY, b"|"]);
    let wanted = (frames.as_slice(), 17);
    assert_cut(&rt, alloc, &stream, (stream.len(), 1), wanted);
}

/// What a framer is asked on the octets of a stream from one place to another, and what it answers: none if it tells a wrong length.
#[derive(Clone, Copy)]
enum Step {
    /// It is fed them: how many it takes, and how many octets it wants then.
    Feed(usize, usize, Option<usize>, usize),
    /// Whether a frame is taken into the vector. The vector holds them then.
    Take(usize, usize, Option<bool>),
}

use Step::{Feed, Take};

/// That the step of this number is answered as it says.
fn assert_step(
    rt: &impl Abort,
    framer: &mut Framer,
    frame: &mut Vec<u8>,
    stream: &[u8],
    (number, step): (usize, Step),
) {
    match step {
        Feed(from, to, count, wanted) => {
            let octets = stream.get(from..to).expect(rt, "octets");
            let found = (number, fed(rt, framer, octets), framer.wanted());
            assert_same(rt, &found, &(number, count, wanted));
        }
        Take(from, to, is_taken) => {
            let octets = stream.get(from..to).expect(rt, "octets");
            let found = (number, taken(rt, framer, frame), frame.as_slice());
            assert_same(rt, &found, &(number, is_taken, octets));
        }
    }
}

/// That the steps of a new framer, and a vector that holds so many octets of the stream, are answered as they say.
fn assert_steps(rt: &impl Abort, alloc: Global, stream: &[u8], held: usize, steps: &[Step]) {
    let front = stream.get(..held).expect(rt, "octets");
    let mut frame = Vec::from_slice(alloc, front).expect(rt, "memory");
    let mut framer = framer(rt, alloc);
    for (number, step) in steps.iter().enumerate() {
        assert_step(rt, &mut framer, &mut frame, stream, (number, *step));
    }
}

/// A query_sm of 33 octets, a cancel_sm of 37, and the query_sm again.
const FED_AND_TAKEN: &[Step] = &[
    Feed(0, 0, Some(0), 4),
    Feed(0, 3, Some(3), 1),
    Feed(3, 3, Some(0), 1),
    Feed(3, 4, Some(1), 29),
    Take(0, 20, Some(false)),
    Feed(4, 70, Some(29), 0),
    Feed(33, 70, Some(0), 0),
    Take(0, 33, Some(true)),
    Take(0, 33, Some(false)),
];

/// Each frame of them takes the place of the last.
const EACH_IN_ITS_PLACE: &[Step] = &[
    Feed(0, 33, Some(33), 0),
    Take(0, 33, Some(true)),
    Feed(33, 70, Some(37), 0),
    Take(33, 70, Some(true)),
    Feed(70, 103, Some(33), 0),
    Take(70, 103, Some(true)),
];

/// `feed` and `take` tell a wrong length behind the query_sm, and what was taken before stays in the vector.
const WRONG_LENGTH: &[Step] = &[
    Feed(0, 70, Some(33), 0),
    Take(0, 33, Some(true)),
    Feed(33, 70, Some(4), 0),
    Take(0, 33, None),
    Feed(0, 33, None, 0),
    Feed(0, 0, None, 0),
    Take(0, 33, None),
    Feed(0, 33, None, 0),
    Feed(0, 0, None, 0),
];

#[test]
fn frames_are_fed_and_taken(rt: HostRuntime) {
    let alloc = rt.alloc();
    let stream = joined(&rt, alloc, &[QUERY, CANCEL, QUERY]);
    assert_steps(&rt, alloc, &stream, 20, FED_AND_TAKEN);
    assert_steps(&rt, alloc, &stream, 0, EACH_IN_ITS_PLACE);
    drop(stream);
    let wrong = joined(&rt, alloc, &[QUERY, b"\x00\x00\x20\x01", QUERY]);
    assert_steps(&rt, alloc, &wrong, 0, WRONG_LENGTH);
}

/// That a header alone (SMPP 3.4, section 4.11.1) may be cut at this place: its first four octets say that it has 16.
fn assert_cut_at(rt: &impl Abort, alloc: Global, place: usize) {
    let rest = 16usize.saturating_sub(place);
    let wanted = if place < 4 { 4 - place } else { rest };
    let steps = [
        Feed(0, place, Some(place), wanted),
        Take(0, 0, Some(false)),
        Feed(place, 16, Some(rest), 0),
        Take(0, 16, Some(true)),
        Feed(0, 0, Some(0), 4),
    ];
    assert_steps(rt, alloc, ENQUIRE_LINK, 0, &steps);
}

#[test]
fn an_enquire_link_is_cut_at_every_place(rt: HostRuntime) {
    for place in 0..16 {
        assert_cut_at(&rt, rt.alloc(), place);
    }
}

/// As many octets as a command_length says, and whether they are a frame.
const LENGTHS: &[(u32, &[Step])] = &[
    (16, &[Feed(0, 16, Some(16), 0), Take(0, 16, Some(true))]),
    (
        8192,
        &[Feed(0, 8192, Some(8192), 0), Take(0, 8192, Some(true))],
    ),
    (4, &[Feed(0, 4, Some(4), 0), Take(0, 0, None)]),
    (15, &[Feed(0, 15, Some(4), 0), Take(0, 0, None)]),
    (8193, &[Feed(0, 8193, Some(4), 0), Take(0, 0, None)]),
    (65_552, &[Feed(0, 65_552, Some(4), 0), Take(0, 0, None)]),
];

/// What is fed of octets whose command_length is 0.
const ZERO: &[Step] = &[Feed(0, 8, Some(4), 0)];

fn assert_length(rt: &impl Abort, alloc: Global, length: u32, steps: &[Step]) {
    let mut octets = Vec::from_slice(alloc, &length.to_be_bytes()).expect(rt, "memory");
    octets.resize(length as usize, 0xff).expect(rt, "memory");
    assert_steps(rt, alloc, &octets, 0, steps);
}

#[test]
fn lengths_have_limits(rt: HostRuntime) {
    for (length, steps) in LENGTHS {
        assert_length(&rt, rt.alloc(), *length, steps);
    }
    let zero = b"\0\0\0\0\0\0\0\x10";
    assert_steps(&rt, rt.alloc(), zero, 0, ZERO);
}

/// A piece is taken whole and shown, and nothing is shown once it is let go.
#[test]
fn a_frame_is_shown_where_it_lies(rt: HostRuntime) {
    let mut framer = framer(&rt, rt.alloc());
    let count = fed(&rt, &mut framer, BIND_TRANSCEIVER);
    let Ok(Some(frame)) = framer.frame() else {
        panic!(rt; "a frame");
    };
    let is_shown = frame == BIND_TRANSCEIVER;
    framer.let_go();
    let is_gone = framer.frame() == Ok(None);
    assert_same(&rt, &(count, is_shown, is_gone), &(Some(30), true, true));
}
