//! One node of a cluster.

use lines_of_tests::{Given, NOTHING, step};
use node_core::{Input, Node, Setup, open_node};
use stable_store::StableStore;
use std::alloc::Global;
use std::collections::VecDeque;
use std::process::Abort;
use synod_acceptor::Packet;

// A node of a cluster, and its store while it is down.
#[derive(Drop)]
pub struct Member<S: StableStore> {
    setup: Setup,
    node: Option<Node<S>>,
    store: Option<S>,
}

// A node that opens over a store.
pub fn opened_over<S: StableStore>(
    rt: &impl Abort,
    alloc: Global,
    store: S,
    setup: Setup,
) -> Node<S> {
    match open_node(alloc, store, setup) {
        Ok((node, _life)) => node,
        Err(_) => panic!(rt; "it opens"),
    }
}

// Takes the step of a packet of which nothing is sent, or leaves it before its save.
fn stop_at<S: StableStore>(rt: &impl Abort, node: &mut Node<S>, packet: Packet, after: bool) {
    let pending = node
        .prepare_step(Input::Packet(packet))
        .expect(rt, "a step");
    if after {
        drop(node.commit(pending).expect(rt, "outputs"));
    } else {
        drop(pending);
    }
}

impl<S: StableStore + Drop> Member<S> {
    // One that is set up so, and opens over a store.
    pub fn open(rt: &impl Abort, alloc: Global, setup: Setup, store: S) -> Member<S> {
        Member {
            setup,
            node: Some(opened_over(rt, alloc, store, setup)),
            store: None,
        }
    }

    pub fn is_up(&self) -> bool {
        self.node.is_some()
    }

    // What it gives out at an input. Its packets are left.
    pub fn take(&mut self, input: Input, left: &mut VecDeque<Packet>) -> Given {
        match &mut self.node {
            Some(node) => step(node, input, left),
            None => {
                drop(input);
                let down = ("Down", NOTHING.1);
                Given {
                    answer: down,
                    told: down,
                }
            }
        }
    }

    // It stops in the save of a packet's step, before it or after it.
    pub fn crash(&mut self, rt: &impl Abort, packet: Packet, after: bool) {
        let node = self.node.as_mut().expect(rt, "a node that is up");
        stop_at(rt, node, packet, after);
        self.stop(rt);
    }

    // It stops: its store is left.
    fn stop(&mut self, rt: &impl Abort) {
        let node = self.node.take().expect(rt, "a node that is up");
        drop(self.store.replace(node.into_store()));
    }

    // The store of a node that is down, or stops now.
    pub fn take_store(&mut self, rt: &impl Abort) -> S {
        if self.is_up() {
            self.stop(rt);
        }
        self.store.take().expect(rt, "a store")
    }

    // It starts anew over a store.
    pub fn start(&mut self, rt: &impl Abort, alloc: Global, store: S) {
        let node = opened_over(rt, alloc, store, self.setup);
        drop(self.node.replace(node));
    }
}
