//! Nodes that open over their stores, and a message that three of them take.

ghost use Rattle.std.specs.Prelude.{◌≡◌, [], length};
ghost use Rattle.mc_model.specs.cluster.Steps.{setup_of};
ghost use Rattle.node_model.specs.Stepped.{opened_new};
ghost use Rattle.stable_store.specs.Stored.{stored_in};
ghost use Rattle.journal_laws.specs.Parts.{LeadTo};
ghost use Rattle.node_threads.specs.Actions.{AllBegin};
ghost use Rattle.node_threads.specs.Defaults.{from_one};
ghost use Rattle.node_threads.specs.Openings.{AreNew, cluster_of};
ghost use Rattle.journal_parts.specs.Numbers.{none_sent};

use crate::lives::submitted;
use crate::same::assert_same;
use crate::tables::{PARTS, defaults};
use journal_laws::nodes_that_open_begin_a_journal;
use mc_types::NodeNo;
use node_core::{Life, Node};
use node_threads::{
    Action, Begins, Cluster, Refusal, Seat, StartFault, begin_nodes, load_nodes, open_nodes,
    opened_nodes_begin,
};
use stable_store::{ListStore, StableStore, StoreFault};
use std::alloc::Global;
use std::marker::Brand;
use std::process::Abort;
use std::sync::Wait;
use std::sync::ledger::Blank;

/// So many new stores.
fn new_stores(rt: &impl Abort, alloc: Global, count: u8) -> Vec<ListStore>
    ensures { AreNew (λ list. stored_in list 0) result.items }
{
    let mut stores = Vec::new(alloc);
    for _ in 0..count {
        let put = stores.push(ListStore::make(alloc));
        put.expect(rt, "memory");
    }
    stores
}

/// So many nodes over new stores: their journal begins with what those of the model open with.
pub fn over_new_stores(
    rt: &impl Abort,
    alloc: Global,
    count: u8,
) -> (Vec<Node<ListStore>>, Vec<Life>)
    ensures { AllBegin (cluster_of result.0.items (from_one 172800)) (λ node. opened_new (setup_of (cluster_of result.0.items (from_one 172800)) node)) result.0.items }
{
    let stores = new_stores(rt, alloc, count);
    opened_nodes_begin::<ListStore>();
    match open_nodes(alloc, stores, defaults(rt)) {
        Ok(opened) => opened,
        Err(_) => panic!(rt; "they open"),
    }
}

fn numbered(rt: &impl Abort, number: u64) -> NodeNo {
    lines_of_tests::node(number).expect(rt, "a node")
}

/// Whether there is a packet with this number, which comes to each of the three then.
fn came<L: Begins, R: Wait + Abort>(
    rt: &R,
    cluster: &Cluster<ListStore, L>,
    seat: &mut Seat<L>,
    number: u64,
) -> bool {
    for node in 1..4 {
        let node = numbered(rt, node);
        match cluster.act(rt, seat, Action::Deliver { number, node }) {
            Ok(slip) => drop(slip),
            Err(refusal) => {
                if refusal != Refusal::NoSuchPacket {
                    panic!(rt; "no other refusal");
                }
                return false;
            }
        }
    }
    true
}

/// The number of the first packet that is missing, once node 1 was handed a message, and each packet came to each of the three.
fn taken<L: Begins, R: Wait + Abort>(
    rt: &R,
    alloc: Global,
    blank: Blank,
    nodes: Vec<Node<ListStore>>,
) -> u64
    requires name { blank.name ≡ L.name }
    requires parts { blank.parts ≡ L.parts }
    requires all { blank.parts ≡ 1000000 }
    requires numbers { L.numbers ≡ none_sent }
    requires begin { AllBegin L.cluster L.kept nodes.items }
    requires count { length nodes.items ≡ L.cluster.nodes }
    requires leads { LeadTo L.cluster [] [] L.kept [] }
{
    let cluster = Cluster::<ListStore, L>::start(alloc, blank, nodes).expect(rt, "a cluster");
    let mut seat = cluster.seat(rt).expect(rt, "a seat");
    submitted(rt, alloc, &cluster, &mut seat);
    let mut number = 1u64;
    for _ in 0..100u32 {
        if !came(rt, &cluster, &mut seat, number) {
            break;
        }
        number = number.checked_add(1).expect(rt, "a number");
    }
    number
}

/// The Prepare of a round of three nodes comes to each, which promises; at the second Promise node 1 proposes, and each node votes: eight packets.
#[test]
fn a_message_is_taken_at_three_nodes(rt: HostRuntime) {
    let alloc = rt.alloc();
    let (nodes, lives) = over_new_stores(&rt, alloc, 3);
    drop(lives);
    nodes_that_open_begin_a_journal();
    let missing = taken::<Brand, HostRuntime>(&rt, alloc, Blank::new(PARTS), nodes);
    assert_same(&rt, &missing, &9);
}

/// The lives stand in the order of their nodes.
#[test]
fn lives_stand_in_order(rt: HostRuntime) {
    let (nodes, lives) = over_new_stores(&rt, rt.alloc(), 3);
    drop(nodes);
    for place in 0..3u8 {
        let life = lives.get(place as usize).expect(&rt, "a life");
        assert_same(&rt, &life.node(), &numbered(&rt, place as u64 + 1));
    }
    assert_same(&rt, &lives.len(), &3);
}

fn refused(rt: &impl Abort, alloc: Global, count: u8) -> Option<StartFault> {
    match open_nodes(alloc, new_stores(rt, alloc, count), defaults(rt)) {
        Ok(opened) => {
            drop(opened);
            None
        }
        Err(fault) => Some(fault),
    }
}

/// One to nine nodes open.
#[test]
fn as_many_nodes_open_as_may(rt: HostRuntime) {
    let alloc = rt.alloc();
    assert_same(&rt, &refused(&rt, alloc, 0), &Some(StartFault::Nodes));
    assert_same(&rt, &refused(&rt, alloc, 1), &None);
    assert_same(&rt, &refused(&rt, alloc, 9), &None);
    assert_same(&rt, &refused(&rt, alloc, 10), &Some(StartFault::Nodes));
}

/// What is loaded begins in its order. A store that is spent is loaded, and told of once its node is to begin.
#[test]
fn loaded_nodes_begin_in_order(rt: HostRuntime) {
    let alloc = rt.alloc();
    let two = new_stores(&rt, alloc, 2);
    let loaded = load_nodes(alloc, two, defaults(&rt)).expect(&rt, "they are loaded");
    let (nodes, lives) = begin_nodes(alloc, loaded).expect(&rt, "they begin");
    drop(nodes);
    let begun = (lives.len(), lives.get(1).expect(&rt, "a life").node());
    assert_same(&rt, &begun, &(2, numbered(&rt, 2)));
    let mut stores = new_stores(&rt, alloc, 1);
    stores.push(spent(&rt, alloc)).expect(&rt, "memory");
    let loaded = load_nodes(alloc, stores, defaults(&rt)).expect(&rt, "they are loaded");
    let told = begin_nodes(alloc, loaded).err();
    let wanted = StartFault::Open(numbered(&rt, 2), StoreFault::Incarnations);
    assert_same(&rt, &told, &Some(wanted));
    let none = load_nodes(alloc, new_stores(&rt, alloc, 0), defaults(&rt)).err();
    assert_same(&rt, &none, &Some(StartFault::Nodes));
}

/// A store of which all incarnations were used.
fn spent(rt: &impl Abort, alloc: Global) -> ListStore {
    let mut store = ListStore::make(alloc);
    for _ in 0..9999u32 {
        let next = store.next_incarnation();
        assert!(rt; next.is_ok());
    }
    store
}

/// Of two stores that are spent the first is told, and one before it that is not spent opens.
#[test]
fn the_first_store_that_fails_is_told(rt: HostRuntime) {
    let alloc = rt.alloc();
    let mut stores = new_stores(&rt, alloc, 1);
    stores.push(spent(&rt, alloc)).expect(&rt, "memory");
    stores.push(spent(&rt, alloc)).expect(&rt, "memory");
    let told = match open_nodes(alloc, stores, defaults(&rt)) {
        Ok(opened) => {
            drop(opened);
            None
        }
        Err(fault) => Some(fault),
    };
    let wanted = StartFault::Open(numbered(&rt, 2), StoreFault::Incarnations);
    assert_same(&rt, &told, &Some(wanted));
}
