//! Moments and counts.

use crate::same::assert_same;
use connection_parts::{Tally, moment_at, stamp_at};

#[test]
fn a_moment_is_within_its_range(rt: HostRuntime) {
    let seconds = [
        moment_at(0).seconds(),
        moment_at(946684799).seconds(),
        moment_at(946684801).seconds(),
        moment_at(1706700000).seconds(),
        moment_at(4102444800).seconds(),
        moment_at(u64::MAX).seconds(),
    ];
    assert_same(
        &rt,
        &seconds,
        &[
            946684800, 946684800, 946684801, 1706700000, 4102444799, 4102444799,
        ],
    );
}

/// As Python's `datetime` has them.
const STAMPS: &[(u64, &[u8; 24])] = &[
    (0, b"2000-01-01T00:00:00.000Z"),
    (951782400045, b"2000-02-29T00:00:00.045Z"),
    (1795966208123, b"2026-11-29T15:30:08.123Z"),
    (4102444800000, b"2099-12-31T23:59:59.000Z"),
];

#[test]
fn a_stamp_is_its_moment(rt: HostRuntime) {
    for (milliseconds, stamp) in STAMPS {
        assert_same(
            &rt,
            &(*milliseconds, &stamp_at(*milliseconds)),
            &(*milliseconds, *stamp),
        );
    }
}

#[test]
fn counts_stay_at_their_greatest_value(rt: HostRuntime) {
    let some = Tally {
        submits: 1,
        deliveries: 2,
        receipts: 3,
        refused: u64::MAX,
        fates: 4,
    };
    let both = Tally {
        submits: 2,
        deliveries: 4,
        receipts: 6,
        refused: u64::MAX,
        fates: 8,
    };
    assert_same(&rt, &some.plus(some), &both);
    assert_same(&rt, &Tally::zero().plus(some), &some);
}
