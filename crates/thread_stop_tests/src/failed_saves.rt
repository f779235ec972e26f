//! A node of a cluster whose save fails.

ghost use Rattle.std.specs.Prelude.{◌≡◌};
ghost use Rattle.journal_parts.specs.Members.{IsBeginning};
ghost use Rattle.journal_parts.specs.Numbers.{none_sent};

use crate::hands::{asked, settled, ticked};
use crate::opened::{PARTS, opened};
use crate::same::assert_same;
use node_core::{Found, Life, Node};
use node_threads::{Begins, Cluster, Unfinished};
use stable_store::{FailingStore, Found as Leaves, ListStore};
use std::alloc::Global;
use std::marker::Brand;
use std::process::Abort;
use std::sync::Wait;
use std::sync::ledger::Blank;

/// What is seen of a save that fails: the number of the packet in whose step it does, and that of the refusal; the number of the refusal of the next step; the
/// save that the start anew names; and whether a step is taken after that.
type Seen = ((u64, u8), u8, Option<Unfinished>, bool);

/// A node is handed a message, until one of its saves fails; then a step more, a start anew, and another step.
fn seen<L: Begins, R: Wait + Abort>(
    rt: &R,
    alloc: Global,
    blank: Blank,
    node: Node<FailingStore>,
    life: Life,
) -> Seen
    requires name { blank.name ≡ L.name }
    requires parts { blank.parts ≡ L.parts }
    requires all { blank.parts ≡ 1000000 }
    requires numbers { L.numbers ≡ none_sent }
    requires begins { IsBeginning L.cluster L.kept node }
    requires alone { L.cluster.nodes ≡ 1 }
{
    let mut nodes = Vec::new(alloc);
    nodes.push(node).expect(rt, "memory");
    let cluster = Cluster::<FailingStore, L>::start(alloc, blank, nodes).expect(rt, "a cluster");
    let mut seat = cluster.seat(rt).expect(rt, "a seat");
    drop(asked(rt, alloc, &cluster, &mut seat, (1, "submit_with_receipt")));
    let (number, stopped) = settled(rt, &cluster, &mut seat, &[1], 1);
    let broken = ticked(rt, alloc, &cluster, &mut seat, false).err();
    let Ok((slip, _life)) = cluster.restart(rt, &mut seat, life) else {
        panic!(rt; "it starts anew");
    };
    let unfinished = slip.unfinished();
    let goes_on = ticked(rt, alloc, &cluster, &mut seat, false).is_ok();
    let broken = broken.expect(rt, "a refusal");
    (
        (number, stopped.number()),
        broken.number(),
        unfinished,
        goes_on,
    )
}

fn assert_seen(
    rt: &(impl Wait + Abort),
    alloc: Global,
    save: u64,
    leaves: Leaves,
    wanted: Unfinished,
) {
    let store = FailingStore::make(ListStore::make(alloc), save, leaves);
    let (node, life) = opened(rt, alloc, store);
    let found = seen::<Brand, _>(rt, alloc, Blank::new(PARTS), node, life);
    let number = wanted.number;
    assert_same(rt, &found, &((number, 9), 2, Some(wanted), true));
}

/// The first save is that of the Prepare, which is packet 1, and the second that of the Propose, packet 3. Device has the number 9, and Broken 2.
#[test]
fn a_start_anew_names_the_save_that_failed(rt: HostRuntime) {
    let alloc = rt.alloc();
    for (save, number) in [(1, 1), (2, 3)] {
        let found = Found::Before;
        assert_seen(
            &rt,
            alloc,
            save,
            Leaves::Before,
            Unfinished { number, found },
        );
        let found = Found::After;
        assert_seen(
            &rt,
            alloc,
            save,
            Leaves::After,
            Unfinished { number, found },
        );
    }
}
