//! Nodes, each over a store, and the packets between them.

use crate::telling::{tell, tell_fault};
use lines_of_tests::put_back;
use node_core::{Input, Node, Outputs, Setup, StepFault, open_node};
use stable_store::StableStore;
use std::alloc::Global;
use std::collections::VecDeque;
use std::rt::HostRuntime;
use synod_acceptor::Packet;

// More packets than are ever sent.
const MOST: usize = 1000;

/// Nodes, and the packets that came to none of them yet, the oldest first. Node n stands at the place n - 1.
#[derive(Drop)]
pub struct Cluster<S: StableStore> {
    alloc: Global,
    nodes: Vec<Node<S>>,
    left: VecDeque<Packet>,
}

/// What a node gives out at an input, once it is committed.
fn step<S: StableStore>(node: &mut Node<S>, input: Input) -> Result<Outputs, StepFault> {
    match node.prepare_step(input) {
        Ok(pending) => node.commit(pending),
        Err(fault) => Err(fault),
    }
}

impl<S: StableStore + Drop> Cluster<S> {
    /// No node.
    pub fn none(alloc: Global) -> Cluster<S> {
        Cluster {
            alloc,
            nodes: Vec::new(alloc),
            left: VecDeque::new(alloc),
        }
    }

    /// The next node opens over a store.
    pub fn add(&mut self, rt: &HostRuntime, setup: Setup, store: S) {
        let number = setup.node().number();
        match open_node(self.alloc, store, setup) {
            Ok((node, life)) => {
                let _ = println!(rt;
                    "node {number}: incarnation {}",
                    life.incarnation().number()
                );
                let _ = self.nodes.push(node);
            }
            Err((fault, _store)) => tell_fault(rt, usize::from(number), &fault),
        }
    }

    /// An input comes to a node, which tells what it gives out. Its packets are left.
    pub fn take(&mut self, rt: &HostRuntime, number: usize, input: Input) {
        let Some(node) = self.nodes.get_mut(number.saturating_sub(1)) else {
            return;
        };
        match step(node, input) {
            Ok(outputs) => {
                tell(rt, number, &outputs);
                let _ = put_back(outputs, &mut self.left);
            }
            Err(fault) => tell_fault(rt, number, &fault),
        }
    }

    /// A packet comes to each node.
    fn come(&mut self, rt: &HostRuntime, packet: &Packet) {
        for number in 1..=self.nodes.len() {
            if let Ok(copy) = packet.copy() {
                self.take(rt, number, Input::Packet(copy));
            }
        }
    }

    /// Each packet comes, those that are sent meanwhile, too.
    pub fn settle(&mut self, rt: &HostRuntime) {
        for _ in 0..MOST {
            let Some(packet) = self.left.pop_front() else {
                return;
            };
            self.come(rt, &packet);
        }
        let _ = println!(rt; "too many packets");
    }
}
