//! A journal of one node that goes on in a loop, a message in each part.

ghost use Rattle.std.specs.Prelude.{◌≡◌};
ghost use Rattle.stable_store.specs.Stored.{stored_in};
ghost use Rattle.journal_parts.specs.Closing.{IsClosed};
ghost use Rattle.journal_parts.specs.GoingOn.{GoesOn};
ghost use Rattle.journal_parts.specs.Members.{IsBeginning};
ghost use Rattle.journal_parts.specs.Numbers.{none_sent};

use crate::lives::submitted;
use crate::next_parts::{First, closed, first_part};
use crate::same::assert_same;
use crate::tables::{PARTS, opened, settled};
use node_threads::{Begins, Cluster, Journal, closed_journals_go_on};
use stable_store::ListStore;
use std::alloc::Global;
use std::marker::Brand;
use std::process::Abort;
use std::sync::Wait;
use std::sync::ledger::Blank;

/// What the next part goes on with.
#[derive(Drop)]
struct Next {
    blank: Blank,
    journal: Journal<ListStore>,
}

/// The journal of another part, in which another message is taken.
fn next_part<L: Begins, R: Wait + Abort>(rt: &R, alloc: Global, next: Next) -> Journal<ListStore>
    requires name { next.blank.name ≡ L.name }
    requires parts { next.blank.parts ≡ L.parts }
    requires all { next.blank.parts ≡ 1000000 }
    requires goes { GoesOn (λ list. stored_in list 0) L.cluster L.kept L.numbers next.journal }
    ensures { IsClosed (λ list. stored_in list 0) L.cluster L.kept L.numbers result }
{
    let Next { blank, journal } = next;
    let sent = journal.packets().checked_add(1).expect(rt, "a number");
    let Ok(cluster) = Cluster::<ListStore, L>::go_on(alloc, blank, journal, sent) else {
        panic!(rt; "it goes on");
    };
    let mut seat = cluster.seat(rt).expect(rt, "a seat");
    submitted(rt, alloc, &cluster, &mut seat);
    let _taken = settled(rt, &cluster, &mut seat, sent);
    closed(rt, alloc, cluster, seat)
}

/// How many entries the last of so many parts has, and how many packets have numbers behind it.
fn parts<L: Begins, R: Wait + Abort>(rt: &R, alloc: Global, first: First, count: u32) -> [u64; 2]
    requires name { first.blank.name ≡ L.name }
    requires parts { first.blank.parts ≡ L.parts }
    requires all { first.blank.parts ≡ 1000000 }
    requires numbers { L.numbers ≡ none_sent }
    requires begins { IsBeginning L.cluster L.kept first.node }
    requires alone { L.cluster.nodes ≡ 1 }
{
    let mut journal = first_part::<L, R>(rt, alloc, first.blank, first.node);
    for _ in 1..count {
        if !journal.is_sound() {
            panic!(rt; "no node is astray");
        }
        closed_journals_go_on::<ListStore>();
        let next = Next {
            blank: Blank::new(PARTS),
            journal,
        };
        journal = next_part::<Brand, R>(rt, alloc, next);
    }
    [journal.len() as u64, journal.packets()]
}

fn parts_of_new<R: Wait + Abort>(rt: &R, alloc: Global, count: u32) -> [u64; 2] {
    let (node, life) = opened(rt, alloc);
    drop(life);
    let first = First {
        blank: Blank::new(PARTS),
        node,
    };
    parts::<Brand, R>(rt, alloc, first, count)
}

/// A submit_sm and the four packets of its round are the five entries of each part, and packets are numbered on.
#[test]
fn a_journal_goes_on_in_a_loop(rt: HostRuntime) {
    let counts = parts_of_new(&rt, rt.alloc(), 40);
    assert_same(&rt, &counts, &[5, 160]);
}
