//! Texts, short messages and optional parameters.

use crate::same::assert_same;
use pdu_fields::{Address, PduFault, ShortMessage, Text, Tlvs, check_optional};
use std::alloc::Global;
use std::process::Abort;

fn text<const LIMIT: usize>(rt: &impl Abort, alloc: Global, octets: &[u8]) -> Text<LIMIT> {
    let text = Text::make(alloc, octets).expect(rt, "memory");
    text.expect(rt, "a text")
}

/// Whether a text holds these octets. It is let go.
fn holds(text: Text<5>, octets: &[u8]) -> bool {
    let holds = text.octets() == octets;
    drop(text);
    holds
}

/// A text has octets, is its copy, which outlives it, and is not another.
fn texts(rt: &impl Abort, alloc: Global) -> [bool; 4] {
    let first = text(rt, alloc, b"sme1");
    let copied = first.copy().expect(rt, "memory");
    let other = text(rt, alloc, b"sme2");
    let cases = [!first.is_empty(), first == copied, first != other];
    drop(other);
    drop(first);
    let [has_octets, is_copied, is_another] = cases;
    [has_octets, is_copied, is_another, holds(copied, b"sme1")]
}

/// Whether the octets are a text, and, if so, whether it is empty.
fn emptiness<const LIMIT: usize>(rt: &impl Abort, alloc: Global, octets: &[u8]) -> Option<bool> {
    let text = Text::<LIMIT>::make(alloc, octets).expect(rt, "memory");
    let emptiness = match &text {
        Some(text) => Some(text.is_empty()),
        None => None,
    };
    drop(text);
    emptiness
}

/// Octets that are too many, have a zero, and are none.
fn limits(rt: &impl Abort, alloc: Global) -> [Option<bool>; 3] {
    [
        emptiness::<4>(rt, alloc, b"sme1"),
        emptiness::<5>(rt, alloc, b"s\0e"),
        emptiness::<1>(rt, alloc, b""),
    ]
}

/// The copy of an address, which outlives it: its type of number, its plan, and whether its digits are 4477.
fn addresses(rt: &impl Abort, alloc: Global) -> (u8, u8, bool) {
    let address = Address {
        ton: 1,
        npi: 8,
        digits: text(rt, alloc, b"4477"),
    };
    let copied = address.copy();
    drop(address);
    let copied = copied.expect(rt, "memory");
    let are_digits = copied.digits.octets() == b"4477".as_slice();
    let found = (copied.ton, copied.npi, are_digits);
    drop(copied);
    found
}

#[test]
fn texts_and_addresses(rt: HostRuntime) {
    let alloc = rt.alloc();
    assert_same(&rt, &texts(&rt, alloc), &[true; 4]);
    assert_same(&rt, &limits(&rt, alloc), &[None, None, Some(true)]);
    assert_same(&rt, &addresses(&rt, alloc), &(1, 8, true));
}

fn message(rt: &impl Abort, alloc: Global, octets: &[u8]) -> ShortMessage {
    let message = ShortMessage::make(alloc, octets).expect(rt, "memory");
    message.expect(rt, "a message")
}

/// A message is its copy, which outlives it, and is not another.
fn messages(rt: &impl Abort, alloc: Global) -> [bool; 3] {
    let first = message(rt, alloc, b"Hi");
    let copied = first.copy().expect(rt, "memory");
    let other = message(rt, alloc, b"Hi!");
    let (is_copied, is_another) = (first == copied, first != other);
    drop(other);
    drop(first);
    let is_kept = copied.octets() == b"Hi".as_slice();
    drop(copied);
    [is_copied, is_another, is_kept]
}

/// How many octets the message has that is made of so many; none if they are too many.
fn length(rt: &impl Abort, alloc: Global, octets: &[u8]) -> Option<usize> {
    let message = ShortMessage::make(alloc, octets).expect(rt, "memory");
    let length = match &message {
        Some(message) => Some(message.octets().len()),
        None => None,
    };
    drop(message);
    length
}

/// The longest message, the empty one, and one that is too long.
fn lengths(rt: &impl Abort, alloc: Global) -> [Option<usize>; 3] {
    [
        length(rt, alloc, &[0; 254]),
        length(rt, alloc, b""),
        length(rt, alloc, &[0; 255]),
    ]
}

#[test]
fn the_octets_of_a_short_message_are_kept(rt: HostRuntime) {
    let octets = message(&rt, rt.alloc(), b"Hi").into_octets();
    assert_same(&rt, &octets.as_slice(), &b"Hi".as_slice());
}

#[test]
fn short_messages(rt: HostRuntime) {
    let alloc = rt.alloc();
    assert_same(&rt, &messages(&rt, alloc), &[true; 3]);
    assert_same(&rt, &lengths(&rt, alloc), &[Some(254), Some(0), None]);
}

/// Three parameters, two of which have one tag.
fn three(rt: &impl Abort, alloc: Global) -> Tlvs {
    let mut tlvs = Tlvs::empty(alloc);
    tlvs.push(0x0204, &[0, 7]).expect(rt, "memory");
    tlvs.push(0x0204, &[0, 8]).expect(rt, "memory");
    tlvs.push(0x0427, &[2]).expect(rt, "memory");
    tlvs
}

const THREE: &[u8] = b"\x02\x04\x00\x02\x00\x07\x02\x04\x00\x02\x00\x08\x04\x27\x00\x01\x02";

/// Tags, and the octets of the parameters that have one of them.
const TAGGED: &[(&[u16], &[u8])] = &[
    (
        &[0x0204],
        b"\x02\x04\x00\x02\x00\x07\x02\x04\x00\x02\x00\x08",
    ),
    (&[0x0427, 0x020c], b"\x04\x27\x00\x01\x02"),
    (&[0x020c], b""),
];

/// That those of these tags stand in these octets.
fn assert_tagged(rt: &impl Abort, tlvs: &Tlvs, tags: &[u16], octets: &[u8]) {
    let tagged = tlvs.with_tags(tags).expect(rt, "memory");
    assert_same(rt, &tagged.octets(), &octets);
}

/// The first values of these tags.
fn values(tlvs: &Tlvs) -> [Option<&[u8]>; 3] {
    [tlvs.get(0x0204), tlvs.get(0x0427), tlvs.get(0x020c)]
}

const VALUES: [Option<&[u8]>; 3] = [Some(&[0, 7]), Some(&[2]), None];

/// A copy of the three, which outlives them.
fn copied(rt: &impl Abort, alloc: Global) -> Tlvs {
    let tlvs = three(rt, alloc);
    let copied = tlvs.copy();
    drop(tlvs);
    copied.expect(rt, "memory")
}

#[test]
fn parameters(rt: HostRuntime) {
    let copied = copied(&rt, rt.alloc());
    assert_same(&rt, &copied.octets(), &THREE);
    assert_same(&rt, &values(&copied), &VALUES);
    for (tags, octets) in TAGGED {
        assert_tagged(&rt, &copied, tags, octets);
    }
}

/// One parameter with the three after it.
fn four(rt: &impl Abort, alloc: Global) -> Tlvs {
    let others = three(rt, alloc);
    let mut tlvs = of_one(rt, alloc, 0x020c, 9);
    assert!(rt; tlvs.octets().len() <= 3000 && others.octets().len() <= 4000);
    tlvs.extend(&others).expect(rt, "memory");
    drop(others);
    tlvs
}

#[test]
fn parameters_go_behind_others(rt: HostRuntime) {
    let four = four(&rt, rt.alloc());
    let octets = four.octets();
    let (first, others) = (octets.get(..6), octets.get(6..));
    assert_same(&rt, &first, &Some(b"\x02\x0c\x00\x02\x00\x09".as_slice()));
    assert_same(&rt, &others, &Some(THREE));
}

/// A copy of the first value of a tag, as it outlives the parameters.
fn value_copied(rt: &impl Abort, alloc: Global, tag: u16) -> Option<Vec<u8>> {
    let tlvs = three(rt, alloc);
    let copied = tlvs.copy_of(tag).expect(rt, "memory");
    drop(tlvs);
    copied
}

#[test]
fn the_first_value_of_a_tag_is_copied(rt: HostRuntime) {
    let found = value_copied(&rt, rt.alloc(), 0x0204);
    assert_same(&rt, &found.as_deref(), &Some([0, 7].as_slice()));
    drop(found);
    assert!(rt; value_copied(&rt, rt.alloc(), 0x020c).is_none());
}

/// A parameter whose value is 0 and this octet.
fn of_one(rt: &impl Abort, alloc: Global, tag: u16, octet: u8) -> Tlvs {
    let mut tlvs = Tlvs::empty(alloc);
    tlvs.push(tag, &[0, octet]).expect(rt, "memory");
    tlvs
}

/// A parameter is its copy, and another than that of this tag with this octet.
fn compared(rt: &impl Abort, alloc: Global, tag: u16, octet: u8) -> [bool; 2] {
    let one = of_one(rt, alloc, 0x0204, 7);
    let copied = one.copy().expect(rt, "memory");
    let other = of_one(rt, alloc, tag, octet);
    let compared = [one == copied, one != other];
    drop(other);
    drop(copied);
    drop(one);
    compared
}

const CHECKED: [Result<(), PduFault>; 2] = [Ok(()), Err(PduFault::Tlvs)];

fn checked() -> [Result<(), PduFault>; 2] {
    [
        check_optional(b"\x02\x04\x00\x02\x00\x07"),
        check_optional(b"\x02\x04\x00\x02\x00"),
    ]
}

#[test]
fn parameters_are_compared_and_checked(rt: HostRuntime) {
    let alloc = rt.alloc();
    let compared = [
        compared(&rt, alloc, 0x020c, 7),
        compared(&rt, alloc, 0x0204, 8),
    ];
    assert_same(&rt, &compared, &[[true; 2]; 2]);
    assert_same(&rt, &checked(), &CHECKED);
}
