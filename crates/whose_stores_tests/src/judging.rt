//! What is found at three nodes, and why they may not go on together.

use crate::same::assert_same;
use std::process::Abort;
use whose_stores::{Difference, Found, MOST_NODES, Stored, Whose, judge};

// The highest incarnations that records name of three nodes, and of none other.
fn names(first: u16, second: u16, third: u16) -> [u16; MOST_NODES] {
    [first, second, third, 0, 0, 0, 0, 0, 0]
}

// A store that does not say whose it is.
fn of_before(begun: u16, named: [u16; MOST_NODES]) -> Found {
    Found::Stored(Stored {
        whose: None,
        begun,
        named,
    })
}

// The store of a node of three, of one cluster, which says so since this incarnation.
fn of(node: u8, at: u16, begun: u16, named: [u16; MOST_NODES]) -> Found {
    Found::Stored(Stored {
        whose: Some(Whose {
            cluster: 7,
            node,
            nodes: 3,
            at,
        }),
        begun,
        named,
    })
}

// The same of another cluster.
fn stranger(node: u8) -> Found {
    Found::Stored(Stored {
        whose: Some(Whose {
            cluster: 8,
            node,
            nodes: 3,
            at: 0,
        }),
        begun: 1,
        named: names(0, 0, 0),
    })
}

fn assert_judged(rt: &impl Abort, name: &str, found: &[Found], wanted: Option<Difference>) {
    assert_same(rt, &(name, judge(found)), &(name, wanted));
}

const NONE: [u16; MOST_NODES] = [0; MOST_NODES];

#[test]
fn stores_of_one_cluster_go_on(rt: HostRuntime) {
    let met = names(2, 3, 2);
    let going = [of(1, 0, 2, met), of(2, 1, 3, met), of(3, 0, 2, NONE)];
    assert_judged(&rt, "of one cluster", &going, None);
    assert_judged(&rt, "new", &[Found::New; 3], None);
    assert_judged(&rt, "in memory", &[Found::Memory; 3], None);
    assert_judged(
        &rt,
        "mixed once",
        &[Found::New, Found::Memory, Found::New],
        None,
    );
    let before = [of_before(2, met), of_before(3, met), of_before(2, NONE)];
    assert_judged(&rt, "of an earlier program", &before, None);
}

// A start that was killed while stores were made, written, or begun one after another.
#[test]
fn a_start_that_was_killed_may_start_again(rt: HostRuntime) {
    let made = [of(1, 0, 0, NONE), of_before(0, NONE), Found::New];
    assert_judged(&rt, "stores half made", &made, None);
    let met = names(2, 3, 2);
    let marked = [of(1, 2, 2, met), of_before(3, met), of_before(2, NONE)];
    assert_judged(&rt, "stores half marked", &marked, None);
    let begun = [of(1, 0, 1, NONE), of(2, 0, 0, NONE), of(3, 0, 0, NONE)];
    assert_judged(&rt, "half begun", &begun, None);
}

#[test]
fn stores_of_others_are_refused(rt: HostRuntime) {
    let exchanged = [of(1, 0, 1, NONE), of(3, 0, 1, NONE), of(2, 0, 1, NONE)];
    let other = Some(Difference::Node { node: 2, is_of: 3 });
    assert_judged(&rt, "exchanged", &exchanged, other);
    let fewer = Some(Difference::Count { node: 1, nodes: 3 });
    assert_judged(&rt, "one of three", &[of(1, 0, 1, NONE)], fewer);
    let three = [
        of(1, 0, 1, NONE),
        of(2, 0, 1, NONE),
        of(3, 0, 1, NONE),
        Found::New,
    ];
    assert_judged(&rt, "a fourth node", &three, fewer);
    let strange = [Found::New, of(2, 0, 1, NONE), stranger(3)];
    let cluster = Some(Difference::Cluster { node: 3, first: 2 });
    assert_judged(&rt, "of another cluster", &strange, cluster);
}

#[test]
fn a_store_that_is_lost_is_missed(rt: HostRuntime) {
    let lost = Some(Difference::Missing { node: 2, begun: 3 });
    // That of a node which only ever voted: no record names it.
    for found in [
        Found::New,
        Found::Memory,
        of_before(0, NONE),
        of_before(5, NONE),
    ] {
        let others = [of(1, 2, 2, NONE), found, of(3, 0, 2, NONE)];
        assert_judged(&rt, "lost", &others, lost);
    }
    let unbegun = Some(Difference::Unbegun { node: 2, begun: 1 });
    for found in [Found::New, of_before(0, NONE)] {
        let others = [of_before(2, NONE), found, of_before(2, NONE)];
        assert_judged(&rt, "lost under an earlier program", &others, unbegun);
    }
    let mixed = [of_before(2, NONE), Found::Memory, of_before(2, NONE)];
    assert_judged(&rt, "mixed under an earlier program", &mixed, None);
}

#[test]
fn a_store_that_is_older_is_found(rt: HostRuntime) {
    let knows = names(2, 3, 2);
    let older = [of(1, 0, 2, NONE), of(2, 0, 2, NONE), of(3, 0, 2, knows)];
    let wanted = Some(Difference::Older {
        node: 2,
        by: 3,
        incarnation: 3,
        begun: 2,
    });
    assert_judged(&rt, "older", &older, wanted);
    let two = [of_before(2, NONE), of_before(3, knows)];
    let unknown = Some(Difference::Unknown { node: 2, named: 3 });
    assert_judged(&rt, "a node too few", &two, unknown);
}
