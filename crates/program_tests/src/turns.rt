//! Readers at another pace: who types a line gets its answer before the next one is read.

use crate::ends::Slow;
use crate::ran::{assert_ends, assert_written, joined, times};
use crate::same::assert_same;
use script_runner::{CountedReader, CountedWriter, run_script};
use std::cell::Cell;
use std::io;
use std::io::{Read, Write};

pub const NODES: &[u8] = b"nodes 1\n";

pub const BIND: &[u8] = b"pdu 1 1 0000001e000000090000000000000001736d653100707731000034000000\n";

pub const BOUND: &[u8] = b"pdu 1 1 0000001c80000009000000000000000143454e545245000210000134\n";

pub const LINK: &[u8] = b"pdu 1 1 00000010000000150000000000000002\n";

pub const LINKED: &[u8] = b"pdu 1 1 00000010800000150000000000000002\n";

/// A reader that gives a line each time, and looks how many octets were written before it gives the next.
#[derive(Drop)]
struct Typist<'a> {
    /// The lines, each with how many octets are to be written before it.
    lines: &'a [(&'a [u8], usize)],
    /// How many of them were given.
    given: usize,
    written: &'a Cell<usize>,
    is_early: &'a Cell<bool>,
}

impl Read for Typist<'_> {
    fn read(&mut self, buffer: &mut [u8]) -> io::Result<usize> {
        let Some((line, before)) = self.lines.get(self.given).copied() else {
            return Ok(0);
        };
        if self.written.get() != before {
            self.is_early.set(true);
        }
        self.given = self.given.saturating_add(1);
        let mut line = line;
        line.read(buffer)
    }
}

/// A writer that counts what is written.
#[derive(Drop)]
struct Screen<'a>(&'a Cell<usize>);

impl Write for Screen<'_> {
    fn write(&mut self, octets: &[u8]) -> io::Result<usize> {
        self.0.set(self.0.get().saturating_add(octets.len()));
        Ok(octets.len())
    }

    fn flush(&mut self) -> io::Result<()> {
        Ok(())
    }
}

#[test]
fn each_answer_comes_before_the_next_line(rt: HostRuntime) {
    let (written, is_early) = (Cell::new(0), Cell::new(false));
    let lines = [
        (NODES, 0),
        (BIND, 0),
        (LINK, BOUND.len()),
        (LINK, BOUND.len() + LINKED.len()),
    ];
    let mut typist = CountedReader::make(Typist {
        lines: &lines,
        given: 0,
        written: &written,
        is_early: &is_early,
    });
    let mut screen = CountedWriter::make(Screen(&written));
    let outcome = run_script(rt.alloc(), &mut typist, &mut screen);
    let wanted = (Ok(()), false, BOUND.len() + 2 * LINKED.len());
    assert_same(&rt, &(outcome, is_early.get(), written.get()), &wanted);
}

#[test]
fn a_hundred_thousand_octets_come_one_by_one(rt: HostRuntime) {
    let alloc = rt.alloc();
    let comments = times(
        &rt,
        alloc,
        b"# a line that says nothing at all here.\n",
        2500,
    );
    let script = joined(&rt, alloc, &[&comments, NODES, BIND, LINK]);
    let wanted = joined(&rt, alloc, &[BOUND, LINKED]);
    assert_ends(&rt, alloc, Slow(&script), (Ok(()), wanted.as_slice()));
}

#[test]
fn a_last_line_needs_no_line_feed(rt: HostRuntime) {
    let alloc = rt.alloc();
    let script = joined(&rt, alloc, &[NODES, BIND, &LINK[..LINK.len() - 1]]);
    let wanted = joined(&rt, alloc, &[BOUND, LINKED]);
    assert_written(&rt, alloc, ("at once", &script), &wanted);
    assert_ends(&rt, alloc, Slow(&script), (Ok(()), wanted.as_slice()));
}
