//! Values that the tests are given.

use pdu_codec::{Address, Text};
use std::alloc::Global;
use std::process::Abort;

pub fn text<const LIMIT: usize>(rt: &impl Abort, alloc: Global, octets: &[u8]) -> Text<LIMIT> {
    let text = Text::make(alloc, octets).expect(rt, "memory");
    text.expect(rt, "a text")
}

pub fn address(rt: &impl Abort, alloc: Global, digits: &[u8]) -> Address {
    Address {
        ton: 1,
        npi: 1,
        digits: text(rt, alloc, digits),
    }
}
