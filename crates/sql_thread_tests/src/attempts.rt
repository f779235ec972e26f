//! The attempts of a row.

use crate::hands::{Hands, given};
use delivery::Outcome;
use lines_of_tests::{Given, NOTHING};
use mc_types::{MsgId, NodeNo};
use node_core::{Life, Permit};
use node_threads::{Begins, Cluster, Refusal};
use stable_store::StableStore;
use std::process::Abort;
use std::sync::Wait;

/// The lives of the nodes, and the permit of an attempt in one of them that was granted last and not answered.
pub struct Attempts<'l> {
    lives: &'l [Life],
    permit: Option<Permit<'l>>,
}

impl<'l> Attempts<'l> {
    /// Before the first.
    pub fn within(lives: &'l [Life]) -> Attempts<'l> {
        Attempts {
            lives,
            permit: None,
        }
    }

    /// Gives up the one that was not answered.
    pub fn end(self) {
        let Attempts { lives: _, permit } = self;
        if let Some(permit) = permit {
            permit.abandon();
        }
    }

    /// The life of a node.
    fn life(&self, rt: &impl Abort, node: NodeNo) -> &'l Life {
        for life in self.lives {
            if life.node() == node {
                return life;
            }
        }
        panic!(rt; "a life");
    }

    /// Has the attempt of a message granted at a node.
    pub fn grant<S: StableStore, L: Begins, R: Wait + Abort>(
        &mut self,
        rt: &R,
        cluster: &Cluster<S, L>,
        hands: &mut Hands<L>,
        (node, id): (NodeNo, MsgId),
    ) -> Given {
        match cluster.grant(rt, &mut hands.seat, self.life(rt, node), id) {
            Ok((slip, permit)) => {
                if let Some(last) = self.permit.replace(permit) {
                    last.abandon();
                }
                given(slip.outputs())
            }
            Err(refusal) => refused(rt, refusal),
        }
    }

    /// Hands in what came of it.
    pub fn answer<S: StableStore, L: Begins, R: Wait + Abort>(
        &mut self,
        rt: &R,
        cluster: &Cluster<S, L>,
        hands: &mut Hands<L>,
        outcome: Outcome,
    ) -> Given {
        let permit = self.permit.take().expect(rt, "a permit");
        match cluster.answered(rt, &mut hands.seat, permit, outcome) {
            Ok(slip) => given(slip.outputs()),
            Err((_, left)) => {
                if let Some(permit) = left {
                    permit.abandon();
                }
                panic!(rt; "it is answered");
            }
        }
    }
}

/// A row says the number of the fault, which is 2, and that of the reason.
fn refused(rt: &impl Abort, refusal: Refusal) -> Given {
    let Refusal::Grant(reason) = refusal else {
        panic!(rt; "no other refusal");
    };
    Given {
        answer: ("Unprepared", [2, u64::from(reason.number()), 0, 0]),
        told: NOTHING,
    }
}
