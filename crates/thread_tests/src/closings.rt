//! The end of a cluster, by its seats.

ghost use Rattle.std.specs.Prelude.{◌≡◌};
ghost use Rattle.journal_parts.specs.Members.{IsBeginning};
ghost use Rattle.journal_parts.specs.Numbers.{none_sent};

use crate::lives::submitted;
use crate::same::assert_same;
use crate::tables::{PARTS, opened, settled};
use node_core::Node;
use node_threads::{Begins, Cluster, Journal, Seat, SeatsFault, SeatsOut};
use stable_store::ListStore;
use std::alloc::Global;
use std::marker::Brand;
use std::process::Abort;
use std::sync::Wait;
use std::sync::ledger::Blank;

/// A list of one seat.
fn alone<L: Begins>(rt: &impl Abort, alloc: Global, seat: Seat<L>) -> Vec<Seat<L>> {
    let mut seats = Vec::new(alloc);
    seats.push(seat).expect(rt, "memory");
    seats
}

/// What comes back of a cluster that does not close.
fn refused<L: Begins>(
    rt: &impl Abort,
    cluster: Cluster<ListStore, L>,
    seats: Vec<Seat<L>>,
) -> SeatsOut<ListStore, L> {
    match cluster.close(seats) {
        Ok(_) => panic!(rt; "a seat is missing"),
        Err(out) => out,
    }
}

/// Its journal, as it closes.
fn closed<L: Begins>(
    rt: &impl Abort,
    cluster: Cluster<ListStore, L>,
    seats: Vec<Seat<L>>,
) -> Journal<ListStore> {
    match cluster.close(seats) {
        Ok(journal) => journal,
        Err(_) => panic!(rt; "no seat is missing"),
    }
}

/// Why a cluster does not close without the seat whose slips are the later ones, and how many entries and packets its journal has with that seat, once a
/// message was taken.
fn closed_with_the_other<L: Begins, R: Wait + Abort>(
    rt: &R,
    alloc: Global,
    blank: Blank,
    node: Node<ListStore>,
) -> (SeatsFault, [u64; 2])
    requires name { blank.name ≡ L.name }
    requires parts { blank.parts ≡ L.parts }
    requires all { blank.parts ≡ 1000000 }
    requires numbers { L.numbers ≡ none_sent }
    requires begins { IsBeginning L.cluster L.kept node }
    requires alone { L.cluster.nodes ≡ 1 }
{
    let mut nodes = Vec::new(alloc);
    nodes.push(node).expect(rt, "memory");
    let cluster = Cluster::<ListStore, L>::start(alloc, blank, nodes).expect(rt, "a cluster");
    let mut one = cluster.seat(rt).expect(rt, "a seat");
    let mut other = cluster.seat(rt).expect(rt, "a seat");
    submitted(rt, alloc, &cluster, &mut one);
    let _taken = settled(rt, &cluster, &mut other, 1);
    let SeatsOut {
        fault,
        cluster,
        mut seats,
    } = refused(rt, cluster, alone(rt, alloc, one));
    seats.push(other).expect(rt, "memory");
    let journal = closed(rt, cluster, seats);
    (fault, [journal.len() as u64, journal.packets()])
}

/// The submit_sm is an entry, and each of the four packets of its round.
#[test]
fn a_cluster_closes_with_all_seats_that_have_slips(rt: HostRuntime) {
    let alloc = rt.alloc();
    let (node, life) = opened(&rt, alloc);
    drop(life);
    let (fault, counts) = closed_with_the_other::<Brand, HostRuntime>(
        &rt,
        alloc,
        Blank::new(PARTS),
        node,
    );
    assert_same(&rt, &fault, &SeatsFault::Missing);
    assert_same(&rt, &counts, &[5, 4]);
}
