//! Who hands in steps at a cluster.

use crate::stores::NODES;
use lines_of_tests::{Answer, Given, NOTHING, OTHER, answer_in, node, told_in};
use node_core::Outputs;
use node_threads::{Action, Begins, Cluster, Refusal, Seat};
use stable_store::StableStore;
use std::alloc::Global;
use std::process::Abort;
use std::sync::Wait;

/// More packets than are ever sent.
const MOST: u64 = 2_000;

/// Who hands in steps: a seat, and the first packet that did not come to all nodes from it.
#[derive(Drop)]
pub struct Hands<L: Begins> {
    pub alloc: Global,
    pub seat: Seat<L>,
    next: u64,
}

/// What a step gave out.
pub fn given(outputs: &Outputs) -> Given {
    Given {
        answer: answer_in(outputs),
        told: told_in(outputs),
    }
}

impl<L: Begins> Hands<L> {
    /// Those with a seat of their own, from which no step was handed in.
    pub fn at<S: StableStore, R: Wait + Abort>(
        rt: &R,
        alloc: Global,
        cluster: &Cluster<S, L>,
    ) -> Hands<L> {
        Hands {
            alloc,
            seat: cluster.seat(rt).expect(rt, "a seat"),
            next: 1,
        }
    }

    /// Hands in an action that is not refused.
    pub fn act<S: StableStore, R: Wait + Abort>(
        &mut self,
        rt: &R,
        cluster: &Cluster<S, L>,
        action: Action,
    ) -> Given {
        let slip = cluster.act(rt, &mut self.seat, action).expect(rt, "a slip");
        given(slip.outputs())
    }

    /// What a packet tells that comes to a node, if there is one with this number.
    fn deliver<S: StableStore, R: Wait + Abort>(
        &mut self,
        rt: &R,
        cluster: &Cluster<S, L>,
        number: u64,
        to: u8,
    ) -> Option<Answer> {
        let node = node(u64::from(to)).expect(rt, "a node");
        match cluster.act(rt, &mut self.seat, Action::Deliver { number, node }) {
            Ok(slip) => Some(told_in(slip.outputs())),
            Err(refusal) => {
                if refusal != Refusal::NoSuchPacket {
                    panic!(rt; "no other refusal");
                }
                None
            }
        }
    }

    /// The next packet comes to all nodes. What it tells there is put together with what was told before it. None if there is no such packet.
    fn come<S: StableStore, R: Wait + Abort>(
        &mut self,
        rt: &R,
        cluster: &Cluster<S, L>,
        told: (u64, Answer),
    ) -> Option<(u64, Answer)> {
        let number = self.next;
        let mut all = told;
        for to in 1..=NODES {
            let answer = self.deliver(rt, cluster, number, to)?;
            all = together(all, (u64::from(to), answer));
        }
        self.next = number.checked_add(1)?;
        Some(all)
    }

    /// Each packet that did not come to all nodes from here comes to them, those that are sent meanwhile, too. What is told then is one thing at most, with its
    /// node.
    pub fn settle<S: StableStore, R: Wait + Abort>(
        &mut self,
        rt: &R,
        cluster: &Cluster<S, L>,
    ) -> (u64, Answer) {
        let mut told = (0, NOTHING);
        for _ in 0..MOST {
            match self.come(rt, cluster, told) {
                Some(more) => told = more,
                None => return told,
            }
        }
        panic!(rt; "too many packets");
    }

    /// From now on all packets come again.
    pub fn begin_again(&mut self) {
        self.next = 1;
    }
}

/// What was told, if it is one thing at most.
fn together(told: (u64, Answer), more: (u64, Answer)) -> (u64, Answer) {
    if more.1 == NOTHING {
        told
    } else if told.1 == NOTHING {
        more
    } else {
        (more.0, OTHER)
    }
}
