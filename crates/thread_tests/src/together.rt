//! Two threads over one cluster.

ghost use Rattle.std.specs.Prelude.{◌≡◌};
ghost use Rattle.journal_parts.specs.Members.{IsBeginning};
ghost use Rattle.journal_parts.specs.Numbers.{none_sent};

use crate::same::assert_same;
use crate::tables::{PARTS, first, opened, settled};
use mc_types::Moment;
use node_core::Node;
use node_threads::{Action, Begins, Cluster, Reach, Seat};
use stable_store::ListStore;
use std::alloc::Global;
use std::marker::Brand;
use std::process::Abort;
use std::sync::Wait;
use std::sync::ledger::Blank;
use std::thread;
use std::thread::Threads;

/// Hands in 20 ticks.
fn ticked<L: Begins, R: Wait + Abort>(
    rt: &R,
    alloc: Global,
    cluster: &Cluster<ListStore, L>,
    seat: &mut Seat<L>,
) {
    for _ in 0..20u32 {
        let tick = Action::Tick {
            node: first(rt),
            moment: Moment::least(),
            reach: Reach::of_all(Vec::new(alloc)),
        };
        drop(cluster.act(rt, seat, tick).expect(rt, "a slip"));
    }
}

/// The numbers of the slips of two seats, whose steps two threads hand in at once.
fn ticked_by_two<L: Begins + Send + Sync, R: Threads + Wait + Abort + Sync>(
    rt: &R,
    alloc: Global,
    blank: Blank,
    node: Node<ListStore>,
) -> (usize, usize)
    requires name { blank.name ≡ L.name }
    requires parts { blank.parts ≡ L.parts }
    requires all { blank.parts ≡ 1000000 }
    requires numbers { L.numbers ≡ none_sent }
    requires begins { IsBeginning L.cluster L.kept node }
    requires alone { L.cluster.nodes ≡ 1 }
{
    let mut nodes = Vec::new(alloc);
    nodes.push(node).expect(rt, "memory");
    let cluster = Cluster::<ListStore, L>::start(alloc, blank, nodes).expect(rt, "a cluster");
    let mut one = cluster.seat(rt).expect(rt, "a seat");
    let mut other = cluster.seat(rt).expect(rt, "a seat");
    thread::join(
        rt,
        || ticked(rt, alloc, &cluster, &mut one),
        || ticked(rt, alloc, &cluster, &mut other),
    );
    (one.slips().len(), other.slips().len())
}

#[test]
fn two_threads_hand_in_steps_of_one_node(rt: HostRuntime) {
    let alloc = rt.alloc();
    let (node, life) = opened(&rt, alloc);
    drop(life);
    let slips = ticked_by_two::<Brand, HostRuntime>(&rt, alloc, Blank::new(PARTS), node);
    assert_same(&rt, &slips, &(20, 20));
}
