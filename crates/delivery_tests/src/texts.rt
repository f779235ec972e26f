//! The texts of receipts.

use crate::chains::*;
use crate::same::assert_same;
use receipts::receipt_text;
use std::alloc::Global;
use std::process::Abort;

/// The text of the receipt after these decrees, after the word before.
fn text(rt: &impl Abort, alloc: Global, registered_delivery: u8, steps: &[Step]) -> Vec<u8> {
    let chain = chain(rt, alloc, registered_delivery, steps);
    let mut text = Vec::from_slice(alloc, b"before ").expect(rt, "memory");
    receipt_text(&chain, &mut text).expect(rt, "a text");
    drop(chain);
    text
}

fn assert_told(
    rt: &impl Abort,
    alloc: Global,
    registered_delivery: u8,
    steps: &[Step],
    wanted: &[u8],
) {
    let told = text(rt, alloc, registered_delivery, steps);
    assert_same(rt, &told.as_slice(), &wanted);
}

#[test]
fn a_message_expires(rt: HostRuntime) {
    assert_told(
        &rt,
        rt.alloc(),
        2,
        TOLD_EXPIRED,
        b"before id:1000100001 sub:001 dlvrd:000 submit date:2401310000 done date:2402030000 stat:EXPIRED err:000 text:Hi",
    );
}

#[test]
fn eight_attempts_fail(rt: HostRuntime) {
    assert_told(
        &rt,
        rt.alloc(),
        1,
        &told_undelivered(),
        b"before id:1000100001 sub:001 dlvrd:000 submit date:2401310000 done date:2401310028 stat:UNDELIV err:100 text:Hi",
    );
}

#[test]
fn a_message_is_rejected(rt: HostRuntime) {
    assert_told(
        &rt,
        rt.alloc(),
        1,
        TOLD_REJECTED,
        b"before id:1000100001 sub:001 dlvrd:000 submit date:2401310000 done date:2401310000 stat:REJECTD err:102 text:Hi",
    );
}

#[test]
fn a_message_is_deleted(rt: HostRuntime) {
    assert_told(
        &rt,
        rt.alloc(),
        1,
        TOLD_DELETED,
        b"before id:1000100001 sub:001 dlvrd:000 submit date:2401310000 done date:2401310000 stat:DELETED err:000 text:Hi",
    );
}

/// The receipt of appendix B of SMPP 3.4, label by label: a `#` is a digit, a `@` a capital letter. The last label is in lower case
/// here, and up to 20 octets of the message follow it, as here `Hi`.
const PATTERN: &[u8] =
    b"before id:########## sub:### dlvrd:### submit date:########## done date:########## stat:@@@@@@@ err:### text:@i";

/// How the pattern writes an octet. A `#` or `@` of the text has no place in it.
fn place_of(octet: u8) -> u8 {
    match octet {
        b'0'..=b'9' => b'#',
        b'A'..=b'Z' => b'@',
        b'#' | b'@' => b'?',
        _ => octet,
    }
}

fn put_pattern(text: &mut [u8]) {
    for octet in text {
        *octet = place_of(*octet);
    }
}

/// That the text of the receipt after these decrees, in the row of this number, has the pattern.
fn assert_pattern(rt: &impl Abort, alloc: Global, row: u8, steps: &[Step]) {
    let mut told = text(rt, alloc, 1, steps);
    put_pattern(&mut told);
    assert_same(rt, &(row, told.as_slice()), &(row, PATTERN));
}

#[test]
fn each_text_has_the_pattern_of_appendix_b(rt: HostRuntime) {
    let alloc = rt.alloc();
    assert_pattern(&rt, alloc, 0, TOLD_DELIVERED);
    assert_pattern(&rt, alloc, 1, TOLD_EXPIRED);
    assert_pattern(&rt, alloc, 2, TOLD_DELETED);
    assert_pattern(&rt, alloc, 3, &told_undelivered());
    assert_pattern(&rt, alloc, 4, TOLD_REJECTED);
}
