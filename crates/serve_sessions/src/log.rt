//! The lines that an operator reads.

use crate::clock::milliseconds;
use crate::lines::{Lines, Told};
use connection_parts::stamp_at;
use std::alloc::Global;
use std::fmt;
use std::rt::Clock;
use std::sync::{Condvar, Mutex, Wait};

/// How many lines wait to be written, before what comes is counted in place of being told.
const MANY_LINES: usize = 1_000;

/// When a line is told: the moment by ISO 8601, in UTC.
#[derive(Clone, Copy)]
pub struct Stamp([u8; 24]);

/// What the clock of the system says now.
pub fn stamp_now<R: Clock>(rt: &R) -> Stamp {
    Stamp(stamp_at(milliseconds(rt)))
}

impl fmt::Display for Stamp {
    fn fmt<W: fmt::Write>(&self, f: &mut fmt::Formatter<W>) -> fmt::Result {
        for octet in &self.0 {
            f.write_char(char::from(*octet))?;
        }
        Ok(())
    }
}

/// The lines that an operator reads, on standard error. Who has a line puts it to those that wait, and goes on; a thread writes them. So a standard error
/// that nobody reads holds up nobody who serves. A quiet one has no lines but those that must be told.
#[derive(Drop)]
pub struct Log {
    alloc: Global,
    is_quiet: bool,
    lines: Mutex<Lines>,
    changed: Condvar,
}

impl Log {
    /// Nothing waits.
    pub fn make(alloc: Global, is_quiet: bool) -> Log {
        Log {
            alloc,
            is_quiet,
            lines: Mutex::new(Lines::none(alloc)),
            changed: Condvar::new(),
        }
    }

    /// A line of this moment, unless it is quiet. It is counted, and not told, if many wait.
    pub fn line<R: Wait + Clock, D: fmt::Display + Drop>(&self, rt: &R, line: D) {
        if self.is_quiet {
            drop(line);
        } else {
            self.put(rt, line, MANY_LINES);
        }
    }

    /// A line of this moment that is told even if it is quiet, and if many wait. That it could not be written stops nothing.
    pub fn must_tell<R: Wait + Clock, D: fmt::Display + Drop>(&self, rt: &R, line: D) {
        self.put(rt, line, usize::MAX);
    }

    /// A line waits to be written, unless so many do.
    fn put<R: Wait + Clock, D: fmt::Display + Drop>(&self, rt: &R, line: D, most: usize) {
        let stamp = stamp_now(rt);
        let text = format!(in self.alloc; "{stamp} {line}");
        let mut lines = self.lines.lock(rt);
        match text {
            Ok(text) => lines.put(text, most),
            Err(_) => lines.lose(),
        }
        drop(lines);
        self.changed.notify_all();
    }

    /// Writes the lines that wait, and waits for more, until none comes any more.
    pub fn write_all<R: Wait + Eprint + Clock>(&self, rt: &R) {
        for _ in rt.forever() {
            let _ = match self.next(rt) {
                Told::Line(line) => rt.eprintln(line),
                Told::Lost(count) => {
                    let stamp = stamp_now(rt);
                    rt.eprintln(format_args!("{stamp} log: {count} lines were not told"))
                }
                Told::End => return,
            };
        }
    }

    /// What comes next, for which it waits.
    fn next<R: Wait>(&self, rt: &R) -> Told {
        let lines = self.lines.lock(rt);
        let mut lines = self.changed.wait_while(rt, lines, |lines| lines.is_idle());
        lines.next()
    }

    /// No line comes any more.
    pub fn shut<R: Wait>(&self, rt: &R) {
        self.lines.lock(rt).shut();
        self.changed.notify_all();
    }
}
