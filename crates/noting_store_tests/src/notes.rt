//! Notes.

use crate::same::assert_same;
use crate::values::{note, set, vote};
use noting_store::Note;
use std::alloc::Global;
use std::process::Abort;

// Whether there is a note of a vote of which these of so many nodes told.
fn is_made(rt: &impl Abort, alloc: Global, nodes: u8, told: &[u8]) -> bool {
    let made = Note::make(nodes, vote(rt, alloc, true, 262161), set(rt, told));
    let is_made = made.is_some();
    drop(made);
    is_made
}

#[test]
fn more_than_half_told(rt: HostRuntime) {
    let alloc = rt.alloc();
    assert_same(&rt, &is_made(&rt, alloc, 1, &[1]), &true);
    assert_same(&rt, &is_made(&rt, alloc, 3, &[1, 3]), &true);
    assert_same(&rt, &is_made(&rt, alloc, 9, &[1, 2, 3, 8, 9]), &true);
    assert_same(&rt, &is_made(&rt, alloc, 3, &[]), &false);
    assert_same(&rt, &is_made(&rt, alloc, 3, &[2]), &false);
    assert_same(&rt, &is_made(&rt, alloc, 4, &[1, 2]), &false);
}

#[test]
fn no_strange_node_told(rt: HostRuntime) {
    let alloc = rt.alloc();
    assert_same(&rt, &is_made(&rt, alloc, 3, &[1, 2, 4]), &false);
    assert_same(&rt, &is_made(&rt, alloc, 1, &[1, 9]), &false);
    assert_same(&rt, &is_made(&rt, alloc, 8, &[1, 2, 3, 4, 5, 9]), &false);
}

#[test]
fn a_note_has_what_it_was_made_of(rt: HostRuntime) {
    let alloc = rt.alloc();
    let noted = note(&rt, alloc, false, 262162, &[1, 2]);
    let copy = noted.copy().expect(&rt, "memory");
    let numbers = (copy.nodes(), copy.id().number(), copy.slot().place);
    let vote = (copy.slot().id.number(), copy.vote().ballot.number());
    let voters = copy.voters();
    drop((noted, copy));
    assert_same(&rt, &numbers, &(3, 1000100002, 0));
    assert_same(&rt, &vote, &(1000100002, 262162));
    assert_same(&rt, &voters, &set(&rt, &[2, 1]));
}
