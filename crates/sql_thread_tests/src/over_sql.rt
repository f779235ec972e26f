//! Worked rows over nodes in threads, played from one seat.

ghost use Rattle.std.specs.Prelude.{◌≡◌, length};
ghost use Rattle.node_threads.specs.Actions.{AllBegin};
ghost use Rattle.node_threads.specs.Numbers.{none_sent};

use crate::closing::closed;
use crate::hands::Hands;
use crate::playing::{Played, Row, play_row};
use crate::said::said_in;
use crate::same::assert_same;
use crate::stores::{InMemory, PARTS, over_new_stores};
use lines_of_tests::{NOTHING, OF_THREE_NODES};
use node_core::{Life, Node};
use node_threads::{Begins, Cluster};
use stable_store::StableStore;
use std::alloc::Global;
use std::marker::Brand;
use std::process::Abort;
use std::sync::Wait;
use std::sync::ledger::Blank;

/// What is behind the arrow of a line was told, or nothing if there is none.
fn assert_said(rt: &impl Abort, played: &Played<'_>) {
    let line = played.line;
    match said_in(rt, line) {
        Some(said) => assert_same(
            rt,
            &(line, (played.node, played.given.answer)),
            &(line, said),
        ),
        None => assert_same(rt, &(line, played.given.told), &(line, NOTHING)),
    }
}

/// Each line of a row tells what it says; then the cluster closes, with an entry for each slip.
fn assert_row<S: StableStore + Drop, L: Begins, R: Wait + Abort>(
    rt: &R,
    alloc: Global,
    blank: Blank,
    opened: (Vec<Node<S>>, Vec<Life>),
    row: Row<'_>,
)
    requires name { blank.name ≡ L.name }
    requires parts { blank.parts ≡ L.parts }
    requires all { blank.parts ≡ 1000000 }
    requires numbers { L.numbers ≡ none_sent }
    requires begin { AllBegin L.cluster L.kept opened.0.items }
    requires count { length opened.0.items ≡ L.cluster.nodes }
{
    let (nodes, lives) = opened;
    let cluster = Cluster::<S, L>::start(alloc, blank, nodes).expect(rt, "a cluster");
    let mut hands = Hands::at(rt, alloc, &cluster);
    for played in &play_row(rt, &cluster, &mut hands, lives, row) {
        assert_said(rt, played);
    }
    let slips = hands.seat.slips().len();
    let mut seats = Vec::new(alloc);
    seats.push(hands.seat).expect(rt, "memory");
    let journal = closed(rt, cluster, seats);
    assert_same(rt, &journal.len(), &slips);
}

#[test]
fn rows_over_sql(rt: HostRuntime) {
    let alloc = rt.alloc();
    for text in OF_THREE_NODES.split("\n\n") {
        let opened = over_new_stores(&rt, alloc);
        assert_row::<InMemory, Brand, HostRuntime>(
            &rt,
            alloc,
            Blank::new(PARTS),
            opened,
            Row { text },
        );
    }
}
