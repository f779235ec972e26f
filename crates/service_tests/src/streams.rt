//! A session over a reader and a writer of one octet a time, that binds, submits, queries, gets its message and answers it: one read fails, or one write.

use crate::octets::{
    BIND, BIND_ANSWER, DELIVERY, DELIVERY_ANSWER, QUERY, QUERY_ENROUTE, SUBMIT, SUBMIT_ANSWER,
};
use crate::same::assert_same;
use crate::steps::{Scene, Step, take};
use crate::values::{config, id, slot};
use esme_service::Service;
use frame_io::next_frame;
use octet_io::{CountedReader, CountedWriter};
use pdu_frames::Framer;
use sessions::{Abandoned, Delivery};
use std::alloc::Global;
use std::io;
use std::io::{ErrorKind, Read, Write};
use std::process::Abort;
use waiting_requests::Reply;

/// What the ESME sends, and what it gets.
const SENT: &[&[u8]] = &[BIND, SUBMIT, QUERY, DELIVERY_ANSWER];

const GOT: &[&[u8]] = &[BIND_ANSWER, SUBMIT_ANSWER, QUERY_ENROUTE, DELIVERY];

/// The tickets under which the submit_sm and the query_sm wait: their sequence_numbers.
const SUBMITTED: u64 = 2;

const QUERIED: u64 = 3;

/// The octets of the pieces, one after another.
fn joined(rt: &impl Abort, alloc: Global, pieces: &[&[u8]]) -> Vec<u8> {
    let mut octets = Vec::new(alloc);
    for piece in pieces {
        octets.extend_from_slice(piece).expect(rt, "memory");
    }
    octets
}

/// A reader that gives one octet a time, and fails behind the last.
#[derive(Drop)]
struct Breaking<'a> {
    octets: &'a [u8],
}

impl Read for Breaking<'_> {
    fn read(&mut self, buffer: &mut [u8]) -> io::Result<usize> {
        let count = self.octets.len().min(buffer.len()).min(1);
        if count == 0 {
            return Err(ErrorKind::ConnectionReset.into());
        }
        let (front, rest) = self.octets.split_at(count);
        buffer[..count].copy_from_slice(front);
        self.octets = rest;
        Ok(count)
    }
}

/// A writer that takes one octet a time, and fails once it took so many.
#[derive(Drop)]
struct Choking<'a> {
    taken: &'a mut Vec<u8>,
    most: usize,
}

impl Write for Choking<'_> {
    fn write(&mut self, octets: &[u8]) -> io::Result<usize> {
        if self.taken.len() >= self.most {
            return Err(ErrorKind::BrokenPipe.into());
        }
        let end = octets.len().min(1);
        self.taken.extend_from_slice(&octets[..end])?;
        Ok(end)
    }

    fn flush(&mut self) -> io::Result<()> {
        Ok(())
    }
}

/// What the service does: it answers the bind; the submit_sm and the query_sm wait, and are replied to; its message goes out, and is answered.
const STEPS: &[Step] = &[
    Step::Hears,
    Step::Waits(SUBMITTED),
    Step::Waits(QUERIED),
    Step::Accepts(SUBMITTED),
    Step::Shows(QUERIED),
    Step::Attempts,
    Step::Hears,
];

/// Whether a frame comes at a step.
fn hears(step: Step) -> bool {
    matches!(step, Step::Hears | Step::Waits(_))
}

/// A session goes on until a read or a write fails.
fn play(
    rt: &impl Abort,
    scene: Scene<'_>,
    service: &mut Service,
    octets: &[u8],
    writer: &mut CountedWriter<Choking<'_>>,
) {
    let mut framer = Framer::make(scene.alloc).expect(rt, "memory");
    let mut reader = CountedReader::make(Breaking { octets });
    let (mut frame, mut out) = (Vec::new(scene.alloc), Vec::new(scene.alloc));
    for step in STEPS {
        if hears(*step) && next_frame(&mut reader, &mut framer, &mut frame).is_err() {
            break;
        }
        out.clear();
        take(rt, scene, service, (*step, &frame), &mut out);
        if writer.write_all(&out).is_err() {
            break;
        }
    }
}

/// Whether a reply to the request of a ticket goes out.
fn is_replied(rt: &impl Abort, service: &mut Service, ticket: u64) -> bool {
    service.reply(Reply::too_late(ticket, id(rt))).is_some()
}

/// How many attempts are given up.
fn attempts_in(rt: &impl Abort, abandoned: &Abandoned) -> usize {
    let attempt = Delivery::Attempt(slot(rt));
    let pushed = abandoned.as_slice().iter();
    pushed.filter(|pushed| pushed.delivery == attempt).count()
}

/// How many attempts a session gives up that failed, whether it is connected still, and whether a reply to one of its requests goes out.
fn failed(rt: &impl Abort, service: &mut Service) -> (usize, bool, [bool; 2]) {
    let abandoned = service.fail(1).expect(rt, "a session");
    let count = attempts_in(rt, &abandoned);
    drop(abandoned);
    let first = is_replied(rt, service, SUBMITTED);
    let second = is_replied(rt, service, QUERIED);
    (count, service.has(1), [first, second])
}

/// That so many octets of what is sent, of which the last read fails, and room for so many, lead to these octets and to so many attempts that are given up.
fn assert_ends(
    rt: &impl Abort,
    scene: Scene<'_>,
    (sent, most): (&[u8], usize),
    (got, given_up): (&[u8], usize),
) {
    let mut service = Service::none(scene.alloc);
    service.begin(1).expect(rt, "memory");
    let mut taken = Vec::new(scene.alloc);
    let mut writer = CountedWriter::make(Choking {
        taken: &mut taken,
        most,
    });
    play(rt, scene, &mut service, sent, &mut writer);
    drop(writer);
    let failed = failed(rt, &mut service);
    drop(service);
    let found = (sent.len(), most, taken.as_slice(), failed);
    let ended = (given_up, false, [false, false]);
    assert_same(rt, &found, &(sent.len(), most, got, ended));
}

/// How many of the pieces are whole in the first octets of them all.
fn whole(pieces: &[&[u8]], octets: usize) -> usize {
    let mut end = 0usize;
    for (number, piece) in pieces.iter().enumerate() {
        end = end.saturating_add(piece.len());
        if end > octets {
            return number;
        }
    }
    pieces.len()
}

/// What goes out is what the frames ask for that came whole: the responses wait for the query_sm, and the attempt is open until it is answered.
fn reads_fail(rt: &impl Abort, scene: Scene<'_>, sent: &[u8], got: &[u8]) {
    for place in 0..sent.len() {
        let ends = match whole(SENT, place) {
            0 => (0, 0),
            1 | 2 => (BIND_ANSWER.len(), 0),
            _ => (got.len(), 1),
        };
        let front = sent.get(..place).expect(rt, "octets");
        let wanted = got.get(..ends.0).expect(rt, "octets");
        assert_ends(rt, scene, (front, got.len()), (wanted, ends.1));
    }
    assert_ends(rt, scene, (sent, got.len()), (got, 0));
}

/// All that went out is a front of what is to; an attempt is given up also if only a part of its deliver_sm went out.
fn writes_fail(rt: &impl Abort, scene: Scene<'_>, sent: &[u8], got: &[u8]) {
    for place in 0..got.len() {
        let given_up = usize::from(whole(GOT, place) == 3);
        let wanted = got.get(..place).expect(rt, "octets");
        assert_ends(rt, scene, (sent, place), (wanted, given_up));
    }
}

#[test]
fn one_read_or_write_fails_at_each_place(rt: HostRuntime) {
    let alloc = rt.alloc();
    let config = config(&rt, alloc);
    let scene = Scene {
        alloc,
        config: &config,
    };
    let sent = joined(&rt, alloc, SENT);
    let got = joined(&rt, alloc, GOT);
    reads_fail(&rt, scene, &sent, &got);
    writes_fail(&rt, scene, &sent, &got);
    drop(got);
    drop(sent);
    drop(config);
}
