//! The worked scripts, read from their text.

use std::alloc::Global;
use std::process::Abort;

/// A script, its output, its exit status, and its line on standard error. A semicolon ends a line.
#[derive(Clone, Copy)]
pub struct Row {
    pub name: &'static str,
    pub script: &'static str,
    pub output: &'static str,
    pub status: u8,
    pub told: &'static str,
}

/// The row that a line is.
pub fn row_of(rt: &impl Abort, line: &'static str) -> Row {
    let (name, rest) = line.split_once('|').expect(rt, "a name");
    let (script, rest) = rest.split_once('|').expect(rt, "a script");
    let (output, rest) = rest.split_once('|').expect(rt, "an output");
    let (status, told) = rest.split_once('|').expect(rt, "a status");
    Row {
        name,
        script,
        output,
        status: status.parse::<u8>().expect(rt, "a number"),
        told,
    }
}

/// The octets of lines, each ended by a semicolon.
pub fn octets_of(rt: &impl Abort, alloc: Global, text: &str) -> Vec<u8> {
    let mut octets = Vec::new(alloc);
    for octet in text.as_bytes() {
        let octet = if *octet == b';' { b'\n' } else { *octet };
        octets.push(octet).expect(rt, "memory");
    }
    octets
}
