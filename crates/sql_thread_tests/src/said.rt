//! What the lines of a row say.

use lines_of_tests::{answer_said, numbers};
use std::process::Abort;

/// What a node tells, or how it answers.
pub type Told<'r> = (u64, (&'r str, [u64; 4]));

/// What a line says behind its arrow, if it has one.
pub fn said_in<'r>(rt: &impl Abort, line: &'r str) -> Option<Told<'r>> {
    let (_, said) = line.split_once(" => ")?;
    let (number, said) = said.split_once(' ').expect(rt, "a node, and what it tells");
    let [node, ..] = numbers(number).expect(rt, "a number");
    Some((node, answer_said(said).expect(rt, "an answer")))
}
