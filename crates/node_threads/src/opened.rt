//! A cluster out of its locks.

ghost use Rattle.std.specs.Prelude.{◌≡◌, ◌≤◌, ◌↔◌, [], IsErrOf, IsTrue, OnOk, length, map};
ghost use Rattle.std.specs.Vec.{vec_capacity, vec_len};
ghost use Rattle.journal_parts.specs.Closing.{AllFound, AllStand, IsClosed, entries_in};
ghost use Rattle.journal_parts.specs.Marks.{EachOnce};
ghost use Rattle.journal_parts.specs.Members.{posted};
ghost use Rattle.node_threads.specs.declared.closing.SeatsFault.TheVariants.{Missing};

use crate::closing::SeatsFault;
use crate::cluster::{Cluster, Rooms};
use journal_parts::{Begins, Journal, Member, Post, Register, Seat};
use stable_store::StableStore;
use std::alloc::Global;
use std::collections::VecDeque;
use std::sync::Mutex;

/// A cluster out of its locks: the nodes, node 1 first, and the journal. `Cluster::close` answers what `judge` does, and is made of these calls.
#[derive(Drop)]
pub struct Opened<S: StableStore, L: Begins> {
    alloc: Global,
    members: Vec<Member<S, L>>,
    register: Register<L>,
    // Room for the locks of the members, and for what is left of them.
    locks: Vec<Mutex<Member<S, L>>>,
    posts: Vec<Post<S>>,
    ghost count: { vec_len members ≡ L.cluster.nodes },
    ghost locks_room: { vec_len members ≤ vec_capacity locks },
    ghost no_lock: { vec_len locks ≡ 0 },
    ghost posts_room: { vec_len members ≤ vec_capacity posts },
    ghost no_post: { posts.items ≡ [] },
}

impl<S: StableStore + Drop, L: Begins> Opened<S, L> {
    /// Takes each value out of its lock. Nobody else has the cluster, so nobody waits; it takes no memory.
    pub fn of(cluster: Cluster<S, L>) -> Opened<S, L> {
        let Cluster {
            alloc,
            mut locks,
            register,
            rooms,
        } = cluster;
        let Rooms { mut members, posts } = rooms;
        while let Some(lock) = locks.pop() {
            members.push_reserved(lock.into_inner());
        }
        members.as_mut_slice().reverse();
        Opened {
            alloc,
            members,
            register: register.into_inner(),
            locks,
            posts,
        }
    }

    /// Puts each value under its lock again. It takes no memory.
    pub fn into_cluster(self) -> Cluster<S, L> {
        let Opened {
            alloc,
            mut members,
            register,
            mut locks,
            posts,
        } = self;
        while let Some(member) = members.pop() {
            locks.push_reserved(Mutex::new(member));
        }
        locks.as_mut_slice().reverse();
        Cluster {
            alloc,
            locks,
            register: Mutex::new(register),
            rooms: Rooms { members, posts },
        }
    }

    /// Whether the seats have the slips of all entries, and each slip, and each node's own entries, stand in the journal. Missing comes exactly if the numbers
    /// of the slips are not those of the entries, each once. It takes no memory.
    pub fn judge(&mut self, seats: &[Seat<L>]) -> Result<(), SeatsFault>
        ensures each { OnOk result (EachOnce (length self.old.register.entries) seats.now) }
        ensures stand { OnOk result (AllStand L.numbers.count self.old.register.entries seats.now) }
        ensures found { OnOk result (AllFound S.stored L.cluster L.kept self.old.register.entries 0 (map (λ member. member.post) self.old.members.items)) }
        ensures missing { IsErrOf result Missing ↔ (EachOnce (length self.old.register.entries) seats.now → ⊥) }
        ensures entries { self.new.register.entries ≡ self.old.register.entries }
        ensures members { self.new.members.items ≡ self.old.members.items }
    {
        if !self.register.has_each_once(seats) {
            return Err(SeatsFault::Missing);
        }
        if !self.register.has_seats(seats) || !finds_all(&self.register, self.members.as_slice()) {
            return Err(SeatsFault::Differs);
        }
        Ok(())
    }

    /// What is left of the journal and of the nodes. It takes no memory.
    pub fn into_journal(self) -> Journal<S>
        requires { AllFound S.stored L.cluster L.kept self.register.entries 0 (map (λ member. member.post) self.members.items) }
        ensures closed { IsClosed S.stored L.cluster L.kept L.numbers result }
        ensures entries { entries_in result ≡ self.register.entries }
    {
        let Opened {
            members,
            register,
            posts,
            ..
        } = self;
        register.close(posts_of(members, posts))
    }
}

/// Whether each of these is the node at its place, and has just the entries that the journal has of it.
fn finds_all<S: StableStore, L: Begins>(register: &Register<L>, members: &[Member<S, L>]) -> bool
    ensures { IsTrue result → AllFound S.stored L.cluster L.kept register.now.entries 0 (map (λ member. member.post) members.now) }
{
    for (place, member) in members.iter().enumerate() {
        if !register.finds(member, place + 1) {
            return false;
        }
    }
    true
}

/// What is left of each node, in room that is there.
fn posts_of<S: StableStore + Drop, L: Begins>(
    members: Vec<Member<S, L>>,
    mut posts: Vec<Post<S>>,
) -> Vec<Post<S>>
    requires none { posts.items ≡ [] }
    requires room { vec_len members ≤ vec_capacity posts }
    ensures { map posted result.items ≡ map (λ member. member.post) members.items }
{
    let mut members = VecDeque::from_vec(members);
    while let Some(member) = members.pop_front() {
        posts.push_reserved(member.into_post());
    }
    posts
}
