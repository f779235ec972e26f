//! The server over its nodes.

ghost use Rattle.std.specs.Prelude.{◌≡◌, ℕ, length, IfOk, IfSome};
ghost use Rattle.node_workers.specs.Numbers.{none_sent};
ghost use Rattle.node_workers.specs.Actions.{AllBegin};
ghost use Rattle.node_workers.specs.Histories.{ClosesKept, ClosesParts};

use crate::parts::serve_parts;
use crate::starting::{start_listeners, start_log, start_status};
use node_workers::{Begins, Cluster, Journal, Node, all_parts_are_one};
use serve_nodes::{Doors, Ending, House, Settings, house_of};
use stable_store::GroupStore;
use std::alloc::{AllocError, Global};
use std::rt::Clock;
use std::sync::ledger::Blank;
use std::sync::{Arc, Wait};
use std::thread;
use std::thread::Threads;

/// What its nodes begin with: a ledger of slips, and the nodes, node 1 first.
#[derive(Drop)]
pub struct Beginning<S: GroupStore> {
    pub blank: Blank,
    pub nodes: Vec<Node<S>>,
}

/// How a server ended: why, how many parts its journal had and how many entries they had together, and the journal of its last part, if that could be closed.
#[derive(Drop)]
pub struct Served<S: GroupStore> {
    pub ending: Ending,
    pub parts: u64,
    pub entries: u64,
    pub journal: Option<Journal<S>>,
}

/// Serves ESMEs over nodes in threads, until it is asked to end, as many sessions have ended as were to, or a node can't be started anew. Each node listens,
/// reads and writes its sessions, ticks each second, hands in packets, and delivers by as many workers a session as its window has places.
///
/// Before the journal is full it is closed, and goes on with another part over the nodes as they are; sessions stay, and requests go on waiting. With
/// `ends_full` of the configuration the server ends in its place. A node that has few message_ids left, or whose store failed, starts anew, and its sessions
/// stay. An `Err` is want of memory before it begins.
pub fn serve<
    S: GroupStore + Send + Sync + Drop,
    L: Begins + Send + Sync,
    R: Threads + Wait + Eprint + Clock + Sync,
>(
    rt: &R,
    alloc: Global,
    beginning: Beginning<S>,
    doors: Doors,
    settings: Settings,
) -> Result<Served<S>, AllocError>
    requires name { beginning.blank.name ≡ L.name }
    requires parts { (beginning.blank.parts ≡ L.parts) × (beginning.blank.parts ≡ 1000000) }
    requires numbers { L.numbers ≡ none_sent }
    requires begin { AllBegin L.cluster L.kept beginning.nodes.items }
    requires count { length beginning.nodes.items ≡ L.cluster.nodes }
    ensures closed { IfOk result (λ served. IfSome served.journal (λ journal. ClosesKept S.stored L.cluster L.kept L.numbers journal)) }
{
    all_parts_are_one::<S>();
    let Beginning { blank, nodes } = beginning;
    let cluster = Cluster::<S, L>::start(alloc, blank, nodes)?;
    let house = Arc::new(alloc, house_of(rt, alloc, doors, settings)?)?;
    Ok(serve_over(rt, &house, cluster))
}

/// Serves over a cluster, with threads that listen, read and write until the server ends.
fn serve_over<
    S: GroupStore + Send + Sync + Drop,
    L: Begins + Send + Sync,
    R: Threads + Wait + Eprint + Clock + Sync,
>(rt: &R, house: &Arc<House>, cluster: Cluster<S, L>) -> Served<S>
    ensures { IfSome result.journal (λ journal. (parts : ℕ) × ClosesParts S.stored L.cluster L.kept L.numbers parts journal) }
{
    thread::scope(
        thread::scope_env(),
        rt,
        move |outer| -> Served<S>
            ensures { IfSome result.journal (λ journal. (parts : ℕ) × ClosesParts S.stored L.cluster L.kept L.numbers parts journal) }
        {
            start_log(rt, outer, house);
            start_listeners(rt, outer, house);
            start_status(rt, outer, house);
            let served = serve_parts(rt, house, cluster);
            house.end_all(rt);
            house.log.shut(rt);
            served
        },
    )
}
