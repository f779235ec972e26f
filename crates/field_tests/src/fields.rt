//! Fields at the front of octets and after octets.

use crate::same::assert_same;
use octet_fields::{
    Defect, check_parameters, counted_at, length_of, long_counted_at, nothing_at, octet_at,
    put_counted, put_long_counted, put_octets, put_pieces, text_at, tlv_at, u16_at, u32_at, u64_at,
};
use std::process::Abort;

/// What is read of a field, and the octets behind it.
type Read<T> = Result<(T, &'static [u8]), Defect>;

/// The numbers of one, two, four and eight octets at the front of the same octets.
type Numbers = (Read<u8>, Read<u16>, Read<u32>, Read<u64>);

const NUMBERS: &[(&[u8], Numbers)] = &[
    (
        b"\x01\x02\x03\x04\x05\x06\x07\x08rest",
        (
            Ok((1, b"\x02\x03\x04\x05\x06\x07\x08rest")),
            Ok((258, b"\x03\x04\x05\x06\x07\x08rest")),
            Ok((16_909_060, b"\x05\x06\x07\x08rest")),
            Ok((72_623_859_790_382_856, b"rest")),
        ),
    ),
    (
        b"\x02\x04\x00\x02\x00\x07\x04",
        (
            Ok((2, b"\x04\x00\x02\x00\x07\x04")),
            Ok((516, b"\x00\x02\x00\x07\x04")),
            Ok((33_816_578, b"\x00\x07\x04")),
            Err(Defect::Cut),
        ),
    ),
    (
        b"\x02\x04\x00",
        (
            Ok((2, b"\x04\x00")),
            Ok((516, b"\x00")),
            Err(Defect::Cut),
            Err(Defect::Cut),
        ),
    ),
    (
        b"\x02",
        (
            Ok((2, b"")),
            Err(Defect::Cut),
            Err(Defect::Cut),
            Err(Defect::Cut),
        ),
    ),
    (
        b"",
        (
            Err(Defect::Cut),
            Err(Defect::Cut),
            Err(Defect::Cut),
            Err(Defect::Cut),
        ),
    ),
];

fn numbers_at(octets: &'static [u8]) -> Numbers {
    (
        octet_at(octets),
        u16_at(octets),
        u32_at(octets),
        u64_at(octets),
    )
}

#[test]
fn numbers_are_read(rt: HostRuntime) {
    for (octets, numbers) in NUMBERS {
        assert_same(&rt, &numbers_at(octets), numbers);
    }
}

const TEXTS: [Read<&[u8]>; 10] = [
    Ok((b"sme1", b"rest")),
    Ok((b"", b"")),
    Err(Defect::Long),
    Err(Defect::Cut),
    Ok((b"Hi", b"!")),
    Err(Defect::Long),
    Err(Defect::Few),
    Err(Defect::Cut),
    Ok((b"Hi", b"!")),
    Err(Defect::Long),
];

fn texts() -> [Read<&'static [u8]>; 10] {
    [
        text_at(5, b"sme1\0rest"),
        text_at(1, b"\0"),
        text_at(4, b"sme1\0rest"),
        text_at(5, b"sme1"),
        counted_at(2, b"\x02Hi!"),
        counted_at(1, b"\x02"),
        counted_at(2, b"\x02H"),
        counted_at(2, b""),
        long_counted_at(2, b"\x00\x02Hi!"),
        long_counted_at(2, b"\x01\x00Hi!"),
    ]
}

/// Two parameters, and the front of them.
const PARAMETERS: &[u8] = b"\x02\x04\x00\x02\x00\x07\x04\x27\x00\x01\x02";

const CUT_PARAMETERS: &[u8] = b"\x02\x04\x00\x02\x00\x07\x04\x27\x00\x01";

const CHECKED: [Result<(), Defect>; 5] = [
    Ok(()),
    Err(Defect::Long),
    Err(Defect::Cut),
    Ok(()),
    Err(Defect::Extra),
];

fn checked() -> [Result<(), Defect>; 5] {
    [
        check_parameters(11, PARAMETERS),
        check_parameters(10, PARAMETERS),
        check_parameters(11, CUT_PARAMETERS),
        nothing_at(b""),
        nothing_at(b"r"),
    ]
}

/// A tag, its value, and the octets behind it.
type Parameter = Option<(u16, &'static [u8], &'static [u8])>;

const FIRST: [Parameter; 2] = [Some((0x0204, b"\x00\x07", b"\x04\x27\x00\x01\x02")), None];

fn first() -> [Parameter; 2] {
    [tlv_at(PARAMETERS), tlv_at(b"\x02\x04\x00\x02\x00")]
}

#[test]
fn texts_and_parameters_are_read(rt: HostRuntime) {
    assert_same(&rt, &texts(), &TEXTS);
    assert_same(&rt, &checked(), &CHECKED);
    assert_same(&rt, &first(), &FIRST);
}

/// Pieces of seven octets.
const PIECES: &[&[u8]] = &[b"sme1", b"", b"\0", b"Hi"];

const PUT_PIECES: &[u8] = b"sme1\0Hi";

/// An octet, and twice two octets behind their number.
const PUT_FIELDS: &[u8] = b"\x07\x02Hi\x00\x02Ho";

fn put_fields(rt: &impl Abort, octets: &mut Vec<u8>) {
    put_octets(octets, &[7]).expect(rt, "memory");
    put_counted(octets, b"Hi").expect(rt, "memory");
    put_long_counted(octets, b"Ho").expect(rt, "memory");
}

#[test]
fn fields_are_written(rt: HostRuntime) {
    let mut octets = Vec::with_capacity(rt.alloc(), 7).expect(&rt, "memory");
    put_pieces(&mut octets, PIECES);
    let are_pieces = octets.as_slice() == PUT_PIECES;
    octets.clear();
    put_fields(&rt, &mut octets);
    let found = (length_of(PIECES), are_pieces, octets.as_slice());
    assert_same(&rt, &found, &(7, true, PUT_FIELDS));
}
