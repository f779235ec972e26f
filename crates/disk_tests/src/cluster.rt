//! Nodes, each over a store, and the packets between them.

use crate::member::Member;
use lines_of_tests::{Answer, Given, NOTHING, OTHER};
use node_core::{Input, Setup, sender};
use stable_store::StableStore;
use std::alloc::Global;
use std::collections::VecDeque;
use std::process::Abort;
use synod_acceptor::Packet;

// More packets than are ever sent.
const MOST: usize = 500;

// Nodes, all packets that they sent, of which the first has number 1, and which packet came to which node. All that is told while a line is
// played is one thing at most, with its node.
#[derive(Drop)]
pub struct Cluster<S: StableStore> {
    alloc: Global,
    // Node n stands at the place n - 1, as does packet n.
    members: Vec<Member<S>>,
    packets: VecDeque<Packet>,
    came: Vec<(usize, u64)>,
    told: (u64, Answer),
}

// The place of a number that is counted from 1.
fn place(rt: &impl Abort, number: u64) -> usize {
    let before = number.checked_sub(1).expect(rt, "a number from 1 on");
    usize::try_from(before).expect(rt, "a place")
}

impl<S: StableStore + Drop> Cluster<S> {
    // No node.
    pub fn none(alloc: Global) -> Cluster<S> {
        Cluster {
            alloc,
            members: Vec::new(alloc),
            packets: VecDeque::new(alloc),
            came: Vec::new(alloc),
            told: (0, NOTHING),
        }
    }

    // The next node, which is set up so, opens over a store.
    pub fn add(&mut self, rt: &impl Abort, setup: Setup, store: S) {
        let member = Member::open(rt, self.alloc, setup, store);
        self.members.push(member).expect(rt, "memory");
    }

    // What was told since this was asked last, and by which node.
    pub fn told(&mut self) -> (u64, Given) {
        let (node, told) = self.told;
        self.told = (0, NOTHING);
        let answer = told;
        (node, Given { answer, told })
    }

    fn tell(&mut self, node: u64, told: Answer) {
        if told != NOTHING {
            let first = self.told.1 == NOTHING;
            self.told = (node, if first { told } else { OTHER });
        }
    }

    fn is_up(&self, rt: &impl Abort, node: u64) -> bool {
        let member = self.members.get(place(rt, node));
        member.expect(rt, "a node").is_up()
    }

    // What a node gives out at an input.
    pub fn take(&mut self, rt: &impl Abort, node: u64, input: Input) -> Given {
        let member = self.members.get_mut(place(rt, node));
        let member = member.expect(rt, "a node");
        member.take(input, &mut self.packets)
    }

    fn copy_of(&self, rt: &impl Abort, number: u64) -> Packet {
        let packet = self.packets.get(place(rt, number));
        packet.expect(rt, "a packet").copy().expect(rt, "memory")
    }

    // The packet of this number comes to a node.
    pub fn deliver(&mut self, rt: &impl Abort, number: u64, to: u64) {
        let packet = self.copy_of(rt, number);
        if self.is_up(rt, to) {
            let put = self.came.push((place(rt, number), to));
            put.expect(rt, "memory");
        }
        let given = self.take(rt, to, Input::Packet(packet));
        self.tell(to, given.told);
    }

    // Whether a packet is of one of these nodes.
    fn is_of(&self, rt: &impl Abort, number: u64, nodes: &[u64]) -> bool {
        let packet = self.packets.get(place(rt, number));
        let packet = packet.expect(rt, "a packet");
        nodes.contains(&u64::from(sender(packet).number()))
    }

    // A packet comes to each of these nodes that is up and has not got it.
    fn come(&mut self, rt: &impl Abort, number: u64, nodes: &[u64]) {
        for to in nodes {
            let came = self.came.contains(&(place(rt, number), *to));
            if !came && self.is_up(rt, *to) {
                self.deliver(rt, number, *to);
            }
        }
    }

    // Each packet that one of these nodes sent comes to each of them that is up and has not got it, those that are sent meanwhile, too.
    pub fn settle_between(&mut self, rt: &impl Abort, nodes: &[u64]) {
        for number in 1..MOST {
            if number > self.packets.len() {
                return;
            }
            if self.is_of(rt, number as u64, nodes) {
                self.come(rt, number as u64, nodes);
            }
        }
        panic!(rt; "too many packets");
    }

    // The same between all nodes.
    pub fn settle(&mut self, rt: &impl Abort) {
        let all = [1, 2, 3, 4, 5, 6, 7, 8, 9];
        let nodes = all.get(..self.members.len());
        self.settle_between(rt, nodes.expect(rt, "nine nodes at most"));
    }

    // All packets come once more to each node that is up, from the highest number down.
    fn replay_once(&mut self, rt: &impl Abort, count: usize) {
        for number in (1..=count).rev() {
            for to in 1..=self.members.len() {
                if self.is_up(rt, to as u64) {
                    self.deliver(rt, number as u64, to as u64);
                }
            }
        }
    }

    // The packets that were sent come again, so many times.
    pub fn replay(&mut self, rt: &impl Abort, times: u64) {
        let count = self.packets.len();
        for _ in 0..times {
            self.replay_once(rt, count);
        }
    }

    // A node stops in the save of a packet's step, before it or after it.
    pub fn crash(&mut self, rt: &impl Abort, node: u64, number: u64, after: bool) {
        let packet = self.copy_of(rt, number);
        let member = self.members.get_mut(place(rt, node));
        member.expect(rt, "a node").crash(rt, packet, after);
    }

    // The store of a node that is down, or stops now.
    pub fn take_store(&mut self, rt: &impl Abort, node: u64) -> S {
        let member = self.members.get_mut(place(rt, node));
        member.expect(rt, "a node").take_store(rt)
    }

    // A node starts anew over a store.
    pub fn start(&mut self, rt: &impl Abort, node: u64, store: S) {
        let member = self.members.get_mut(place(rt, node));
        member.expect(rt, "a node").start(rt, self.alloc, store);
    }
}
