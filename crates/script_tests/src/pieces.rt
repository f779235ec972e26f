//! Worked scripts whose octets come in pieces.

use crate::rows::ROWS;
use crate::worked::{Row, octets_of, row_of};
use crate::written::assert_written;
use std::alloc::Global;
use std::process::Abort;

/// The script with each `pdu` line cut into lines of one octet, and so many more, at most.
fn in_pieces(rt: &impl Abort, alloc: Global, script: &str, more: u8) -> Vec<u8> {
    let mut cut = Vec::new(alloc);
    for line in script.split_terminator(';') {
        match line.rsplit_once(' ') {
            Some((before, digits)) if before.starts_with("pdu") => {
                for piece in digits.as_bytes().chunks(2 + 2 * usize::from(more)) {
                    push_parts(rt, &mut cut, &[before.as_bytes(), b" ", piece, b"\n"]);
                }
            }
            _ => push_parts(rt, &mut cut, &[line.as_bytes(), b"\n"]),
        }
    }
    cut
}

/// Whether a row is of good lines in which no session goes: what the line of a session that goes still holds is dropped, and other
/// lines are a new session's.
fn may_be_cut(row: &Row) -> bool {
    row.status == 0 && !row.output.contains("gone")
}

/// Adds these parts.
fn push_parts(rt: &impl Abort, script: &mut Vec<u8>, parts: &[&[u8]]) {
    for part in parts {
        script.extend_from_slice(part).expect(rt, "memory");
    }
}

#[test]
fn pdus_come_in_pieces(rt: HostRuntime) {
    let alloc = rt.alloc();
    for line in ROWS.lines() {
        let row = row_of(&rt, line);
        if may_be_cut(&row) {
            let output = octets_of(&rt, alloc, row.output);
            for more in [0, 1, 2, 6] {
                let script = in_pieces(&rt, alloc, row.script, more);
                assert_written(&rt, alloc, (row.name, &script), &output);
            }
        }
    }
}
