//! What a test says of its cases, and octets that several of them make.

use std::alloc::Global;
use std::fmt::Debug;
use std::process::Abort;

/// The value is the one that is wanted. This call is cheaper to prove than an `assert_eq!`.
pub fn assert_same<T: Debug + PartialEq>(rt: &impl Abort, found: &T, wanted: &T) {
    assert_eq!(rt; *found, *wanted);
}

/// The octets of the pieces, one after the other.
pub fn joined(rt: &impl Abort, alloc: Global, pieces: &[&[u8]]) -> Vec<u8> {
    let mut octets = Vec::new(alloc);
    for piece in pieces {
        octets.extend_from_slice(piece).expect(rt, "memory");
    }
    octets
}

/// The octets but their first four, and those after them, behind their number, as a command_length tells it.
pub fn framed(rt: &impl Abort, alloc: Global, octets: &[u8], after: &[u8]) -> Vec<u8> {
    let length = octets.len().saturating_add(after.len());
    let number = u32::try_from(length).unwrap_or(0).to_be_bytes();
    let rest = octets.get(4..).unwrap_or(b"");
    joined(rt, alloc, &[&number, rest, after])
}
