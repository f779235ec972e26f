//! What comes of a script.

use crate::same::assert_same;
use script_runner::ScriptFault;
use scripts_of_tests::ran;
use std::alloc::Global;
use std::io::Read;
use std::process::Abort;

/// That the script of this name ends well, and writes this.
pub fn assert_written(
    rt: &impl Abort,
    alloc: Global,
    (name, script): (&str, &[u8]),
    wanted: &[u8],
) {
    let (outcome, output) = ran(alloc, script);
    assert_same(
        rt,
        &(name, outcome, output.as_slice()),
        &(name, Ok(()), wanted),
    );
}

/// That a script that a reader gives ends so, and writes this.
pub fn assert_ends<R: Read + Drop>(
    rt: &impl Abort,
    alloc: Global,
    reader: R,
    wanted: (Result<(), ScriptFault>, &[u8]),
) {
    let (outcome, output) = ran(alloc, reader);
    assert_same(rt, &(outcome, output.as_slice()), &wanted);
}

/// Octets so many times over.
pub fn times(rt: &impl Abort, alloc: Global, octets: &[u8], count: usize) -> Vec<u8> {
    let mut all = Vec::new(alloc);
    for _ in 0..count {
        all.extend_from_slice(octets).expect(rt, "memory");
    }
    all
}

/// These parts, one after another.
pub fn joined(rt: &impl Abort, alloc: Global, parts: &[&[u8]]) -> Vec<u8> {
    let mut all = Vec::new(alloc);
    for part in parts {
        all.extend_from_slice(part).expect(rt, "memory");
    }
    all
}
