//! Lines out of readers.

use crate::lines::{longest_of_octets, repeated};
use crate::same::assert_same;
use script_lines::{CountedReader, Found, LineBuffer, MOST_OCTETS, ReadFault};
use std::alloc::Global;
use std::io;
use std::io::{ErrorKind, Read};
use std::process::Abort;

fn buffer(rt: &impl Abort, alloc: Global) -> LineBuffer {
    LineBuffer::make(alloc).expect(rt, "memory")
}

/// What is found in octets.
fn found(rt: &impl Abort, alloc: Global, octets: &[u8]) -> Result<Found, ReadFault> {
    let mut buffer = buffer(rt, alloc);
    let mut reader = CountedReader::make(octets);
    let found = buffer.find_line(&mut reader);
    drop(buffer);
    found
}

#[test]
fn a_line_of_20000_octets_is_found_and_a_longer_one_is_not(rt: HostRuntime) {
    let alloc = rt.alloc();
    let mut line = longest_of_octets(&rt, alloc);
    line.push(b'\n').expect(&rt, "memory");
    let longer = repeated(&rt, alloc, b'#', MOST_OCTETS + 1);
    let told = (
        found(&rt, alloc, line.as_slice()),
        found(&rt, alloc, longer.as_slice()),
    );
    let wanted = (Ok(Found::Line(20000)), Ok(Found::TooLong));
    assert_same(&rt, &told, &wanted);
}

/// A line with a bar after it.
fn put_line(rt: &impl Abort, lines: &mut Vec<u8>, line: &[u8]) {
    lines.extend_from_slice(line).expect(rt, "memory");
    lines.push(b'|').expect(rt, "memory");
}

/// Whether there is a line. It is taken off, and put behind these.
fn is_taken<R: Read>(
    rt: &impl Abort,
    buffer: &mut LineBuffer,
    reader: &mut CountedReader<R>,
    lines: &mut Vec<u8>,
) -> bool {
    match buffer.find_line(reader).expect(rt, "a line") {
        Found::Line(count) => {
            put_line(rt, lines, &buffer.octets()[..count]);
            buffer.take_off(count + 1);
            true
        }
        Found::Last(count) => {
            put_line(rt, lines, &buffer.octets()[..count]);
            buffer.take_off(count);
            true
        }
        Found::TooLong | Found::End => false,
    }
}

/// That a reader gives these lines, each with a bar after it.
fn assert_barred<R: Read>(
    rt: &impl Abort,
    alloc: Global,
    reader: &mut CountedReader<R>,
    wanted: &[u8],
) {
    let mut buffer = buffer(rt, alloc);
    let mut lines = Vec::new(alloc);
    for _ in 0..9 {
        if !is_taken(rt, &mut buffer, reader, &mut lines) {
            break;
        }
    }
    assert_same(rt, &lines.as_slice(), &wanted);
}

/// Gives one octet at a time, and is interrupted before each.
#[derive(Drop)]
struct Slow<'a> {
    text: &'a [u8],
    interrupted: bool,
}

impl Read for Slow<'_> {
    fn read(&mut self, buf: &mut [u8]) -> io::Result<usize> {
        self.interrupted = !self.interrupted;
        if self.interrupted {
            return Err(ErrorKind::Interrupted.into());
        }
        match self.text {
            [first, rest @ ..] if !buf.is_empty() => {
                buf[0] = *first;
                self.text = rest;
                Ok(1)
            }
            _ => Ok(0),
        }
    }
}

#[test]
fn lines_come_at_any_pace(rt: HostRuntime) {
    let text = b"nodes 1\n\n#\nsettle";
    let mut whole = CountedReader::make(text.as_slice());
    let mut slow = CountedReader::make(Slow {
        text,
        interrupted: false,
    });
    let wanted = b"nodes 1||#|settle|";
    assert_barred(&rt, rt.alloc(), &mut whole, wanted);
    assert_barred(&rt, rt.alloc(), &mut slow, wanted);
}

#[test]
fn a_line_of_1000_octets_comes_one_by_one(rt: HostRuntime) {
    let alloc = rt.alloc();
    let text = repeated(&rt, alloc, b'#', 1000);
    let mut slow = CountedReader::make(Slow {
        text: text.as_slice(),
        interrupted: false,
    });
    let mut buffer = buffer(&rt, alloc);
    let found = buffer.find_line(&mut slow);
    let wanted = (Ok(Found::Last(1000)), text.as_slice());
    assert_same(&rt, &(found, buffer.octets()), &wanted);
}

/// Gives some octets, and fails then.
#[derive(Drop)]
struct Failing<'a>(&'a [u8]);

impl Read for Failing<'_> {
    fn read(&mut self, buf: &mut [u8]) -> io::Result<usize> {
        if self.0.is_empty() {
            return Err(ErrorKind::Other.into());
        }
        self.0.read(buf)
    }
}

/// That this is found, and that these octets are kept then.
fn assert_found(
    rt: &impl Abort,
    buffer: &mut LineBuffer,
    reader: &mut CountedReader<Failing<'_>>,
    wanted: (Result<Found, ReadFault>, &[u8]),
) {
    let found = buffer.find_line(reader);
    assert_same(rt, &(found, buffer.octets()), &wanted);
}

#[test]
fn a_failure_loses_nothing(rt: HostRuntime) {
    let mut reader = CountedReader::make(Failing(b"nodes 1\nset"));
    let mut buffer = buffer(&rt, rt.alloc());
    let whole = (Ok(Found::Line(7)), b"nodes 1\nset".as_slice());
    assert_found(&rt, &mut buffer, &mut reader, whole);
    assert!(rt; buffer.octets().len() >= 8);
    buffer.take_off(8);
    let rest = (Err(ReadFault), b"set".as_slice());
    assert_found(&rt, &mut buffer, &mut reader, rest);
}
