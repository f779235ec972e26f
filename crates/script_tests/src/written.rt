//! The worked scripts and the examples, with all that is written of them.

use crate::rows::ROWS;
use crate::same::assert_same;
use crate::worked::{Row, octets_of, row_of};
use scripts_of_tests::{program_run, ran, told};
use std::alloc::Global;
use std::process::Abort;

const SCRIPT: &[&[u8]] = &[b"centre", b"script"];

/// That the script of this name ends well, and writes this.
pub fn assert_written(
    rt: &impl Abort,
    alloc: Global,
    (name, script): (&str, &[u8]),
    wanted: &[u8],
) {
    let (outcome, output) = ran(alloc, script);
    assert_same(
        rt,
        &(name, outcome, output.as_slice()),
        &(name, Ok(()), wanted),
    );
}

/// That a program writes a row, ends with its status, and tells its line on standard error.
fn assert_row(rt: &impl Abort, alloc: Global, row: &Row) {
    let script = octets_of(rt, alloc, row.script);
    let wanted = octets_of(rt, alloc, row.output);
    let mut output = Vec::new(alloc);
    let run = program_run(alloc, SCRIPT, script.as_slice(), &mut output);
    assert_same(
        rt,
        &(row.name, output.as_slice()),
        &(row.name, wanted.as_slice()),
    );
    let (status, errors) = told(alloc, run).expect(rt, "memory");
    let line = octets_of(rt, alloc, row.told);
    let found = (row.name, status, errors.as_slice());
    assert_same(rt, &found, &(row.name, row.status, line.as_slice()));
}

#[test]
fn rows_are_written(rt: HostRuntime) {
    let alloc = rt.alloc();
    for line in ROWS.lines() {
        assert_row(&rt, alloc, &row_of(&rt, line));
    }
}

/// The parts of the script of a row over one node, up to its first settle and behind it; `None` if it is another row, or has no settle.
fn over_one_node(row: &Row) -> Option<(&'static str, &'static str)> {
    if row.status != 0 {
        return None;
    }
    row.script.strip_prefix("nodes 1")?.split_once(";settle;")
}

/// What the rows over one node write is the same over nine, of which node 2 goes down after the first settle: the others only take part in the rounds.
#[test]
fn rows_are_written_over_nine_nodes(rt: HostRuntime) {
    let alloc = rt.alloc();
    for line in ROWS.lines() {
        let row = row_of(&rt, line);
        if let Some((before, behind)) = over_one_node(&row) {
            let text = format!(in alloc; "nodes 9{before};settle;crash 2 1 before;{behind}").expect(
                &rt, "memory",
            );
            let script = octets_of(&rt, alloc, text.as_str());
            let output = octets_of(&rt, alloc, row.output);
            assert_written(&rt, alloc, (row.name, &script), &output);
        }
    }
}
