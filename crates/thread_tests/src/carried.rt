//! Packets that are handed in to a node at once.

ghost use Rattle.std.specs.Prelude.{◌≡◌, length};
ghost use Rattle.journal_parts.specs.Numbers.{none_sent};
ghost use Rattle.node_threads.specs.Actions.{AllBegin};

use crate::clusters::{asked, closed, numbered, settled_at};
use crate::openings::over_new_stores;
use crate::same::assert_same;
use crate::tables::PARTS;
use node_core::Node;
use node_threads::{Begins, Cluster, Refusal, Seat, Slip, Step};
use stable_store::ListStore;
use std::alloc::Global;
use std::marker::Brand;
use std::process::Abort;
use std::sync::Wait;
use std::sync::ledger::Blank;

/// What is handed in at once: to which node, from which number on and up to which; and the numbers of the packets that come, in the order of their steps.
type Row = (u64, u64, u64, &'static [u64]);

/// How many messages node 1 is handed, at which nodes each packet comes alone then, what is handed in at once behind that, and how many entries the journal has.
#[derive(Clone, Copy)]
struct Story {
    messages: u64,
    alone: &'static [u64],
    rows: &'static [Row],
    entries: usize,
}

/// The numbers of the packets that came by these steps.
fn numbers_in(rt: &impl Abort, alloc: Global, slips: &[Slip]) -> Vec<u64> {
    let mut numbers = Vec::new(alloc);
    for slip in slips {
        if let Step::Deliver { number, .. } = slip.step() {
            numbers.push(*number).expect(rt, "memory");
        }
    }
    numbers
}

/// The slips behind so many others.
fn behind<'a>(rt: &impl Abort, slips: &'a [Slip], before: usize) -> &'a [Slip] {
    slips.get(before..).expect(rt, "slips")
}

/// Hands in what a row says, and looks at what comes.
fn assert_row<L: Begins, R: Wait + Abort>(
    rt: &R,
    alloc: Global,
    cluster: &Cluster<ListStore, L>,
    seat: &mut Seat<L>,
    (node, first, last, wanted): Row,
) {
    let before = seat.slips().len();
    let count = cluster
        .carry(rt, seat, numbered(rt, node), first, last)
        .expect(rt, "no refusal");
    let numbers = numbers_in(rt, alloc, behind(rt, seat.slips(), before));
    let found = (count, numbers.as_slice());
    assert_same(rt, &found, &(wanted.len() as u64, wanted));
}

/// How many entries there are once the messages and packets of a story were handed in. A node that is not there is handed none.
fn entries<L: Begins, R: Wait + Abort>(
    rt: &R,
    alloc: Global,
    blank: Blank,
    nodes: Vec<Node<ListStore>>,
    story: Story,
) -> usize
    requires name { blank.name ≡ L.name }
    requires parts { blank.parts ≡ L.parts }
    requires all { blank.parts ≡ 1000000 }
    requires numbers { L.numbers ≡ none_sent }
    requires begin { AllBegin L.cluster L.kept nodes.items }
    requires count { length nodes.items ≡ L.cluster.nodes }
{
    let cluster = Cluster::<ListStore, L>::start(alloc, blank, nodes).expect(rt, "a cluster");
    let mut seat = cluster.seat(rt).expect(rt, "a seat");
    for _ in 0..story.messages {
        drop(asked(rt, alloc, &cluster, &mut seat, (1, "submit_with_receipt")));
    }
    let _ = settled_at(rt, &cluster, &mut seat, story.alone, 1);
    for row in story.rows {
        assert_row(rt, alloc, &cluster, &mut seat, *row);
    }
    let absent = cluster.carry(rt, &mut seat, numbered(rt, 9), 1, 1);
    assert_same(rt, &absent.err(), &Some(Refusal::NoSuchNode));
    let mut seats = Vec::new(alloc);
    seats.push(seat).expect(rt, "memory");
    closed(rt, cluster, seats).len()
}

fn assert_story(rt: &(impl Wait + Abort), alloc: Global, count: u8, story: Story) {
    let (nodes, lives) = over_new_stores(rt, alloc, count);
    drop(lives);
    let entries = entries::<Brand, _>(rt, alloc, Blank::new(PARTS), nodes, story);
    assert_same(rt, &entries, &story.entries);
}

/// Packets 1 and 2 are the Prepares of two messages, 7 and 8 the Proposes, and nodes 1 and 3 answer them first. Node 2 is handed no Propose beside the Prepare of
/// its message; what it answers are packets 13 to 16.
const TWO_MESSAGES: Story = Story {
    messages: 2,
    alone: &[1, 3],
    rows: &[
        (2, 1, 100, &[3, 4, 5, 6, 1, 2]),
        (2, 7, 100, &[9, 10, 11, 12, 13, 14, 7, 8]),
        (2, 15, 100, &[15, 16]),
        (2, 17, 100, &[]),
    ],
    entries: 42,
};

/// Those by which a node saves nothing come first, and no two of one message by which it may.
#[test]
fn packets_come_first_that_save_nothing(rt: HostRuntime) {
    assert_story(&rt, rt.alloc(), 3, TWO_MESSAGES);
}

/// The Prepares of 70 messages.
const MANY_MESSAGES: Story = Story {
    messages: 70,
    alone: &[],
    rows: &[
        (1, 0, 70, &[]),
        (
            1,
            1,
            u64::MAX,
            &[
                1, 2, 3, 4, 5, 6, 7, 8, 9, 10, 11, 12, 13, 14, 15, 16, 17, 18, 19, 20, 21, 22, 23,
                24, 25, 26, 27, 28, 29, 30, 31, 32, 33, 34, 35, 36, 37, 38, 39, 40, 41, 42, 43, 44,
                45, 46, 47, 48, 49, 50, 51, 52, 53, 54, 55, 56, 57, 58, 59, 60, 61, 62, 63, 64,
            ],
        ),
        (1, 65, 67, &[65, 66, 67]),
        (1, 68, 70, &[68, 69, 70]),
        (1, u64::MAX, u64::MAX, &[]),
    ],
    entries: 140,
};

#[test]
fn at_most_64_packets_come_at_once(rt: HostRuntime) {
    assert_story(&rt, rt.alloc(), 1, MANY_MESSAGES);
}

/// Packet 1 is the Prepare of the first of three messages, and comes a second time: 4 and 7 are what is answered.
const TWICE: Story = Story {
    messages: 3,
    alone: &[],
    rows: &[
        (1, 1, 1, &[1]),
        (1, 1, 3, &[2, 3, 1]),
        (1, 4, 100, &[4, 5, 6, 7]),
        (1, 8, 100, &[8, 9, 10]),
        (1, 11, 100, &[11, 12, 13]),
    ],
    entries: 17,
};

#[test]
fn a_prepare_that_comes_again_comes_behind_the_others(rt: HostRuntime) {
    assert_story(&rt, rt.alloc(), 1, TWICE);
}
