//! The entries of a journal that threads leave, in one part or in several, each of which goes on where the one before was closed.

ghost use Rattle.std.specs.Prelude.{◌≡◌, length};
ghost use Rattle.stable_store.specs.Stored.{stored_in};
ghost use Rattle.journal_parts.specs.Closing.{IsClosed};
ghost use Rattle.journal_parts.specs.GoingOn.{GoesOn};
ghost use Rattle.node_threads.specs.Actions.{AllBegin};
ghost use Rattle.journal_parts.specs.Numbers.{none_sent};

use crate::hands::{Hands, Held};
use crate::opened::opened;
use crate::seated::Seated;
use crate::unsteady_store::UnsteadyStore;
use node_core::{Life, Node};
use node_threads::{Begins, Cluster, Entry, Journal, Seat, closed_journals_go_on};
use std::alloc::Global;
use std::collections::VecDeque;
use std::marker::Brand;
use std::process::Abort;
use std::sync::Wait;
use std::sync::ledger::Blank;
use std::thread;
use std::thread::Threads;

/// How many threads hand in steps.
const THREADS: usize = 8;

/// In how many rounds they do so: each waits at the end of a round for the others, so that none is far ahead.
const ROUNDS: u32 = 100;

/// How often each of them tries to hand one in at most, since what is handed in may be refused.
const MOST_TRIES: u32 = 1_000_000;

/// How many parts a ledger of slips has.
const PARTS: u64 = 1_000_000;

/// The hands of all threads, how many steps each hands in in each part that are taken, how many parts there are, and the entries of those that were closed.
#[derive(Drop)]
struct Work {
    hands: Vec<Hands>,
    steps: u32,
    parts: u32,
    entries: Vec<Entry>,
}

/// What another part goes on with.
#[derive(Drop)]
struct Next {
    blank: Blank,
    journal: Journal<UnsteadyStore>,
}

impl Work {
    /// The hands of all threads, for so many parts of so many steps; each holds every eighth node.
    fn begin(rt: &impl Abort, alloc: Global, lives: Vec<Life>, parts: u32, steps: u32) -> Work {
        let mut hands = Vec::new(alloc);
        for stream in 0..THREADS {
            hands
                .push(Hands::empty(alloc, stream as u64))
                .expect(rt, "memory");
        }
        let mut work = Work {
            hands,
            steps,
            parts,
            entries: Vec::new(alloc),
        };
        work.hold(rt, lives);
        work
    }

    fn hold(&mut self, rt: &impl Abort, lives: Vec<Life>) {
        let mut lives = VecDeque::from_vec(lives);
        let mut place = 0usize;
        while let Some(life) = lives.pop_front() {
            let hands = self.hands.get_mut(place % THREADS).expect(rt, "hands");
            hands
                .held
                .push(Held { life, handed: 0 })
                .expect(rt, "memory");
            place = place.saturating_add(1);
        }
    }

    /// The number of the first packet that some node was not handed.
    fn first_left(&self) -> u64 {
        let mut first = u64::MAX;
        for hands in self.hands.as_slice() {
            first = first.min(hands.first_left());
        }
        first
    }

    /// Keeps the entries of a journal behind those of the parts before.
    fn keep(&mut self, rt: &impl Abort, journal: &Journal<UnsteadyStore>) {
        for place in 0..journal.len() {
            if let Some(entry) = journal.entry(place + 1) {
                let entry = entry.again().expect(rt, "memory");
                self.entries.push(entry).expect(rt, "memory");
            }
        }
    }
}

/// Gives hands a seat each.
fn seated<L: Begins, R: Wait + Abort>(
    rt: &R,
    alloc: Global,
    cluster: &Cluster<UnsteadyStore, L>,
    hands: Vec<Hands>,
) -> Vec<Seated<L>> {
    let mut hands = VecDeque::from_vec(hands);
    let mut all = Vec::new(alloc);
    while let Some(hands) = hands.pop_front() {
        let seat = cluster.seat(rt).expect(rt, "a seat");
        all.push(Seated { hands, seat }).expect(rt, "memory");
    }
    all
}

/// The seats that hands leave, and the hands.
fn risen<L: Begins>(
    rt: &impl Abort,
    alloc: Global,
    all: Vec<Seated<L>>,
) -> (Vec<Seat<L>>, Vec<Hands>) {
    let mut all = VecDeque::from_vec(all);
    let mut seats = Vec::new(alloc);
    let mut hands = Vec::new(alloc);
    while let Some(one) = all.pop_front() {
        seats.push(one.seat).expect(rt, "memory");
        hands.push(one.hands).expect(rt, "memory");
    }
    (seats, hands)
}

/// Hands in steps by lot, as one of the threads, until so many were taken in all.
fn handed_in<L: Begins, R: Wait + Abort>(
    rt: &R,
    alloc: Global,
    cluster: &Cluster<UnsteadyStore, L>,
    seated: &mut Seated<L>,
    steps: u32,
) {
    for _ in 0..MOST_TRIES {
        if seated.seat.slips().len() >= steps as usize {
            break;
        }
        seated.hand_in(rt, alloc, cluster);
    }
}

/// A part of the journal, in which all threads hand in steps at once.
fn part<L: Begins + Send + Sync, R: Threads + Wait + Abort + Sync>(
    rt: &R,
    alloc: Global,
    cluster: Cluster<UnsteadyStore, L>,
    work: Work,
) -> (Journal<UnsteadyStore>, Work)
    ensures { IsClosed (λ store. stored_in store.store store.failed) L.cluster L.kept L.numbers result.0 }
{
    let Work {
        hands,
        steps,
        parts,
        entries,
    } = work;
    let mut all = seated(rt, alloc, &cluster, hands);
    for round in 0..ROUNDS {
        let taken = (round + 1).saturating_mul(steps / ROUNDS);
        thread::for_each_mut(
            rt,
            all.as_mut_slice(),
            THREADS,
            &|_, seated| { handed_in(rt, alloc, &cluster, seated, taken) },
        );
    }
    let (seats, hands) = risen(rt, alloc, all);
    let journal = match cluster.close(seats) {
        Ok(journal) => journal,
        Err(_) => panic!(rt; "it closes"),
    };
    let mut work = Work {
        hands,
        steps,
        parts,
        entries,
    };
    work.keep(rt, &journal);
    (journal, work)
}

/// The entries of all parts, from new stores on.
fn all_parts<L: Begins + Send + Sync, R: Threads + Wait + Abort + Sync>(
    rt: &R,
    alloc: Global,
    blank: Blank,
    nodes: Vec<Node<UnsteadyStore>>,
    work: Work,
) -> Vec<Entry>
    requires name { blank.name ≡ L.name }
    requires parts { blank.parts ≡ L.parts }
    requires all { blank.parts ≡ 1000000 }
    requires numbers { L.numbers ≡ none_sent }
    requires begin { AllBegin L.cluster L.kept nodes.items }
    requires count { length nodes.items ≡ L.cluster.nodes }
{
    let parts = work.parts;
    let cluster = Cluster::<UnsteadyStore, L>::start(alloc, blank, nodes).expect(rt, "a cluster");
    let (mut journal, mut work) = part(rt, alloc, cluster, work);
    for _ in 1..parts {
        if !journal.is_sound() {
            panic!(rt; "no node is astray");
        }
        closed_journals_go_on::<UnsteadyStore>();
        let next = Next {
            blank: Blank::new(PARTS),
            journal,
        };
        (journal, work) = next_part::<Brand, R>(rt, alloc, next, work);
    }
    work.entries
}

/// A part that goes on where another was closed.
fn next_part<L: Begins + Send + Sync, R: Threads + Wait + Abort + Sync>(
    rt: &R,
    alloc: Global,
    next: Next,
    work: Work,
) -> (Journal<UnsteadyStore>, Work)
    requires name { next.blank.name ≡ L.name }
    requires parts { next.blank.parts ≡ L.parts }
    requires all { next.blank.parts ≡ 1000000 }
    requires goes { GoesOn (λ store. stored_in store.store store.failed) L.cluster L.kept L.numbers next.journal }
    ensures { IsClosed (λ store. stored_in store.store store.failed) L.cluster L.kept L.numbers result.0 }
{
    let Next { blank, journal } = next;
    let from = work.first_left();
    let Ok(cluster) = Cluster::<UnsteadyStore, L>::go_on(alloc, blank, journal, from) else {
        panic!(rt; "it goes on");
    };
    part(rt, alloc, cluster, work)
}

/// The entries of a journal of nine nodes in so many parts, in each of which each thread hands in so many steps that are taken.
pub fn history<R: Threads + Wait + Abort + Sync>(
    rt: &R,
    alloc: Global,
    parts: u32,
    steps: u32,
) -> Vec<Entry> {
    let (nodes, lives) = opened(rt, alloc);
    let work = Work::begin(rt, alloc, lives, parts, steps);
    all_parts::<Brand, R>(rt, alloc, Blank::new(PARTS), nodes, work)
}
