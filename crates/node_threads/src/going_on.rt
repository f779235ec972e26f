//! A cluster that goes on where it was closed.

ghost use Rattle.std.specs.Prelude.{◌≡◌, ◌≤◌, [], IfErr, IfOk, length, map};
ghost use Rattle.std.specs.Vec.{vec_capacity, vec_len};
ghost use Rattle.journal_parts.specs.GoingOn.{GoesOn, numbers_behind};
ghost use Rattle.journal_parts.specs.Members.{posted};
ghost use Rattle.journal_parts.specs.Numbers.{all_from};
ghost use Rattle.node_threads.specs.Actions.{AllGoOn};

use crate::cluster::{Cluster, Rooms};
use journal_parts::{Begins, Journal, Member, Past, Post, Register};
use stable_store::StableStore;
use std::alloc::{AllocError, Global};
use std::collections::VecDeque;
use std::sync::Mutex;
use std::sync::ledger::Blank;

impl<S: StableStore + Drop, L: Begins> Cluster<S, L> {
    /// The nodes of a journal that was closed, as they are there, and another part of it, with a ledger of slips with 1,000,000 parts, one for each seat. No
    /// node is opened anew: requests go on waiting, and lives and permits stay what they were. The packets keep their numbers: those from this number on may
    /// still come, and all others are NoSuchPacket now. An `Err` is want of memory, and the journal comes back.
    pub fn go_on(
        alloc: Global,
        blank: Blank,
        journal: Journal<S>,
        from: u64,
    ) -> Result<Cluster<S, L>, Journal<S>>
        requires name { blank.name ≡ L.name }
        requires parts { (blank.parts ≡ L.parts) × (blank.parts ≡ 1000000) }
        requires goes { GoesOn S.stored L.cluster L.kept L.numbers journal }
        ensures { IfErr result (λ back. back ≡ journal) }
    {
        match Cluster::go_on_apart(alloc, blank, journal, from) {
            Ok((cluster, past)) => {
                drop(past);
                Ok(cluster)
            }
            Err(journal) => Err(journal),
        }
    }

    /// The same, and what is left of the part that was closed, which another thread may let go: that takes a while for each of its entries.
    pub fn go_on_apart(
        alloc: Global,
        blank: Blank,
        journal: Journal<S>,
        from: u64,
    ) -> Result<(Cluster<S, L>, Past), Journal<S>>
        requires name { blank.name ≡ L.name }
        requires parts { (blank.parts ≡ L.parts) × (blank.parts ≡ 1000000) }
        requires goes { GoesOn S.stored L.cluster L.kept L.numbers journal }
        ensures { IfErr result (λ back. back ≡ journal) }
    {
        match Empty::make(alloc, blank, &journal, from) {
            Ok(empty) => {
                let (posts, past) = journal.split();
                Ok((empty.filled(posts), past))
            }
            Err(AllocError) => Err(journal),
        }
    }
}

/// A cluster without its nodes, and room for all of them.
#[derive(Drop)]
struct Empty<S: StableStore, L: Begins> {
    alloc: Global,
    register: Register<L>,
    locks: Vec<Mutex<Member<S, L>>>,
    rooms: Rooms<S, L>,
    ghost no_lock: { vec_len locks ≡ 0 },
    ghost locks_room: { L.cluster.nodes ≤ vec_capacity locks },
    ghost members_room: { L.cluster.nodes ≤ vec_capacity rooms.members },
    ghost posts_room: { L.cluster.nodes ≤ vec_capacity rooms.posts },
}

impl<S: StableStore + Drop, L: Begins> Empty<S, L> {
    /// Room for the nodes of a journal, and its next part, in which its packets from this number on may still come. An `Err` is want of memory.
    fn make(
        alloc: Global,
        blank: Blank,
        journal: &Journal<S>,
        from: u64,
    ) -> Result<Empty<S, L>, AllocError>
        requires name { blank.name ≡ L.name }
        requires parts { (blank.parts ≡ L.parts) × (blank.parts ≡ 1000000) }
        requires goes { GoesOn S.stored L.cluster L.kept L.numbers journal.now }
        ensures carried { IfOk result (λ empty. empty.register.carried ≡ all_from from (numbers_behind journal.now).may_come) }
    {
        let nodes = journal.nodes();
        Ok(Empty {
            alloc,
            register: Register::go_on(alloc, blank, journal, from)?,
            locks: Vec::with_capacity(alloc, nodes)?,
            rooms: Rooms {
                members: Vec::with_capacity(alloc, nodes)?,
                posts: Vec::with_capacity(alloc, nodes)?,
            },
        })
    }

    /// The cluster with its nodes, node 1 first. It takes no memory.
    fn filled(self, posts: Vec<Post<S>>) -> Cluster<S, L>
        requires count { length posts.items ≡ L.cluster.nodes }
        requires members { AllGoOn S.stored L.cluster L.kept (map posted posts.items) }
    {
        let Empty {
            alloc,
            register,
            mut locks,
            rooms,
        } = self;
        let mut posts = VecDeque::from_vec(posts);
        while let Some(post) = posts.pop_front() {
            locks.push_reserved(Mutex::new(Member::go_on(alloc, post)));
        }
        Cluster {
            alloc,
            locks,
            register: Mutex::new(register),
            rooms,
        }
    }
}
