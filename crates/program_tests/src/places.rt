//! A read or a write that fails once, at each place of a short script.

use crate::ran::{assert_ends, joined};
use crate::same::assert_same;
use crate::turns::{BIND, BOUND, LINK, LINKED, NODES};
use script_runner::{CountedReader, CountedWriter, ScriptFault, run_script};
use std::io;
use std::io::{ErrorKind, Read, Write};

/// A reader that gives an octet each time, but for the one read at which it stumbles; after that it goes on.
#[derive(Drop)]
struct Stumbling<'a> {
    octets: &'a [u8],
    /// How many reads come before the one that stumbles; none if it has.
    before: Option<usize>,
    kind: ErrorKind,
}

impl Read for Stumbling<'_> {
    fn read(&mut self, buffer: &mut [u8]) -> io::Result<usize> {
        if self.before == Some(0) {
            self.before = None;
            return Err(io::Error::from(self.kind));
        }
        self.before = self.before.map(|left| left.saturating_sub(1));
        let end = buffer.len().min(1);
        self.octets.read(&mut buffer[..end])
    }
}

/// A writer that takes an octet each time, but for the one write at which it stumbles; after that it goes on.
#[derive(Drop)]
struct Choking<'a> {
    taken: &'a mut Vec<u8>,
    before: Option<usize>,
    kind: ErrorKind,
}

impl Write for Choking<'_> {
    fn write(&mut self, octets: &[u8]) -> io::Result<usize> {
        if self.before == Some(0) {
            self.before = None;
            return Err(io::Error::from(self.kind));
        }
        self.before = self.before.map(|left| left.saturating_sub(1));
        let end = octets.len().min(1);
        self.taken.write(&octets[..end])
    }

    fn flush(&mut self) -> io::Result<()> {
        Ok(())
    }
}

/// A read that fails ends the script: what came before it of whole lines was done. One that is interrupted changes nothing.
#[test]
fn a_read_fails_at_each_place(rt: HostRuntime) {
    let alloc = rt.alloc();
    let script = joined(&rt, alloc, &[NODES, BIND, LINK]);
    let all = joined(&rt, alloc, &[BOUND, LINKED]);
    for before in 0..script.len() + 1 {
        // The answers to the lines that came whole.
        let done = if before < NODES.len() + BIND.len() {
            b"".as_slice()
        } else if before < script.len() {
            BOUND
        } else {
            all.as_slice()
        };
        for (kind, wanted) in [
            (ErrorKind::BrokenPipe, (Err(ScriptFault::Read), done)),
            (ErrorKind::Interrupted, (Ok(()), all.as_slice())),
        ] {
            let reader = Stumbling {
                octets: &script,
                before: Some(before),
                kind,
            };
            assert_ends(&rt, alloc, reader, wanted);
        }
    }
}

/// A write that fails ends the script: what came before it went out, and nothing else. One that is interrupted changes nothing.
#[test]
fn a_write_fails_at_each_place(rt: HostRuntime) {
    let alloc = rt.alloc();
    let script = joined(&rt, alloc, &[NODES, BIND, LINK]);
    let all = joined(&rt, alloc, &[BOUND, LINKED]);
    for before in 0..all.len() {
        for (kind, wanted) in [
            (ErrorKind::BrokenPipe, (Err(ScriptFault::Write), before)),
            (ErrorKind::Interrupted, (Ok(()), all.len())),
        ] {
            let mut taken = Vec::new(alloc);
            let mut writer = CountedWriter::make(Choking {
                taken: &mut taken,
                before: Some(before),
                kind,
            });
            let outcome = run_script(
                alloc,
                &mut CountedReader::make(script.as_slice()),
                &mut writer,
            );
            drop(writer);
            assert_same(
                &rt,
                &(outcome, taken.as_slice()),
                &(wanted.0, &all[..wanted.1]),
            );
        }
    }
}
