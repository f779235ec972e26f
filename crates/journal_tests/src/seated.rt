//! Hands that hand in steps from a seat.

use crate::hands::{Hands, Held};
use crate::unsteady_store::UnsteadyStore;
use delivery::Outcome;
use lines_of_tests::account;
use mc_types::MsgId;
use node_core::Permit;
use node_threads::{Action, Begins, Cluster, Reach, Refusal, Seat};
use std::alloc::Global;
use std::process::Abort;
use std::sync::Wait;

/// Hands in a seat of a cluster.
#[derive(Drop)]
pub struct Seated<L: Begins> {
    pub hands: Hands,
    pub seat: Seat<L>,
}

impl<L: Begins> Seated<L> {
    /// Hands in a step by lot, if it is not refused; most are packets, in their order.
    pub fn hand_in<R: Wait + Abort>(
        &mut self,
        rt: &R,
        alloc: Global,
        cluster: &Cluster<UnsteadyStore, L>,
    ) {
        let place = self.hands.place();
        match self.hands.lots.below(2000) {
            0 => self.start_anew(rt, cluster, place),
            1..41 => self.attempt(rt, cluster, place),
            41..51 => self.attempt_unasked(rt, cluster, place),
            51..91 => self.deliver_again(rt, cluster, place),
            _ => {
                if !self.deliver_next(rt, cluster, place) {
                    self.begin(rt, alloc, cluster, place);
                }
            }
        }
    }

    /// Now and then a tick or a request, of a node that was handed all packets.
    fn begin<R: Wait + Abort>(
        &mut self,
        rt: &R,
        alloc: Global,
        cluster: &Cluster<UnsteadyStore, L>,
        place: usize,
    ) {
        if self.hands.lots.below(100) == 0 {
            self.tick(rt, alloc, cluster, place);
        } else {
            self.request_by_lot(rt, alloc, cluster, place);
        }
    }

    /// A request of a node by lot: now and then a submit_sm, a query_sm, or a cancel_sm.
    fn request_by_lot<R: Wait + Abort>(
        &mut self,
        rt: &R,
        alloc: Global,
        cluster: &Cluster<UnsteadyStore, L>,
        place: usize,
    ) {
        let Some(request) = self.hands.request(rt, alloc) else {
            return;
        };
        let action = Action::Request {
            node: self.hands.node(rt, place),
            account: account(alloc).expect(rt, "an account"),
            request,
        };
        self.act(rt, cluster, place, action);
    }

    /// Hands in a tick of a node, a second later. Every other time sme1 may receive there.
    fn tick<R: Wait + Abort>(
        &mut self,
        rt: &R,
        alloc: Global,
        cluster: &Cluster<UnsteadyStore, L>,
        place: usize,
    ) {
        let action = Action::Tick {
            node: self.hands.node(rt, place),
            moment: self.hands.moment(),
            reach: Reach::of_all(self.hands.up(rt, alloc)),
        };
        self.act(rt, cluster, place, action);
    }

    /// Whether there is a packet of which the node is handed the next one.
    fn deliver_next<R: Wait + Abort>(
        &mut self,
        rt: &R,
        cluster: &Cluster<UnsteadyStore, L>,
        place: usize,
    ) -> bool {
        let node = self.hands.node(rt, place);
        let number = self.hands.first_left_at(rt, place);
        let came = self.act(rt, cluster, place, Action::Deliver { number, node });
        if came {
            self.hands.hand(rt, place, number);
        }
        came
    }

    /// A packet that the node was handed before, by lot.
    fn deliver_again<R: Wait + Abort>(
        &mut self,
        rt: &R,
        cluster: &Cluster<UnsteadyStore, L>,
        place: usize,
    ) {
        let node = self.hands.node(rt, place);
        let next = self.hands.first_left_at(rt, place);
        let number = self.hands.lots.below(next);
        self.act(rt, cluster, place, Action::Deliver { number, node });
    }

    /// Whether what is handed in at a node is a step. A packet may be missing. A save may fail: the next step is refused then, and the node starts anew.
    fn act<R: Wait + Abort>(
        &mut self,
        rt: &R,
        cluster: &Cluster<UnsteadyStore, L>,
        place: usize,
        action: Action,
    ) -> bool {
        match cluster.act(rt, &mut self.seat, action) {
            Ok(slip) => {
                self.hands.hear(rt, &slip);
                true
            }
            Err(Refusal::NoSuchPacket | Refusal::Device) => false,
            Err(Refusal::Broken) => {
                self.start_anew(rt, cluster, place);
                false
            }
            Err(_) => panic!(rt; "no other refusal"),
        }
    }

    /// Starts a node anew.
    fn start_anew<R: Wait + Abort>(
        &mut self,
        rt: &R,
        cluster: &Cluster<UnsteadyStore, L>,
        place: usize,
    ) {
        if place >= self.hands.held.len() {
            return;
        }
        let Held { life, handed } = self.hands.held.swap_remove(place);
        let life = match cluster.restart(rt, &mut self.seat, life) {
            Ok((slip, life)) => {
                drop(slip);
                life
            }
            Err(_) => panic!(rt; "it starts anew"),
        };
        self.hands
            .held
            .push(Held { life, handed })
            .expect(rt, "memory");
    }

    /// An attempt at a node, if one may be granted.
    fn attempt<R: Wait + Abort>(
        &mut self,
        rt: &R,
        cluster: &Cluster<UnsteadyStore, L>,
        place: usize,
    ) {
        let node = self.hands.node(rt, place);
        let found = cluster.grantable_after(rt, node, None);
        if let Some(id) = found.expect(rt, "a node") {
            if self.grant(rt, cluster, place, id).is_some() {
                panic!(rt; "it may be granted");
            }
        }
    }

    /// An attempt of a message that was heard of, which may be refused.
    fn attempt_unasked<R: Wait + Abort>(
        &mut self,
        rt: &R,
        cluster: &Cluster<UnsteadyStore, L>,
        place: usize,
    ) {
        let Some(id) = self.hands.id() else {
            return;
        };
        match self.grant(rt, cluster, place, id) {
            None | Some(Refusal::Grant(_)) => {}
            Some(Refusal::Broken) => self.start_anew(rt, cluster, place),
            Some(_) => panic!(rt; "no other refusal"),
        }
    }

    /// Why an attempt is not granted; none if it is, and what came of it is handed in.
    fn grant<R: Wait + Abort>(
        &mut self,
        rt: &R,
        cluster: &Cluster<UnsteadyStore, L>,
        place: usize,
        id: MsgId,
    ) -> Option<Refusal> {
        let outcome = self.hands.outcome();
        let held = self.hands.held.get(place).expect(rt, "a node");
        match cluster.grant(rt, &mut self.seat, &held.life, id) {
            Ok((slip, permit)) => {
                drop(slip);
                conclude(rt, cluster, &mut self.seat, permit, outcome);
                None
            }
            Err(refusal) => Some(refusal),
        }
    }
}

/// Hands in what came of an attempt.
fn conclude<L: Begins, R: Wait + Abort>(
    rt: &R,
    cluster: &Cluster<UnsteadyStore, L>,
    seat: &mut Seat<L>,
    permit: Permit<'_>,
    outcome: Outcome,
) {
    match cluster.answered(rt, seat, permit, outcome) {
        Ok(slip) => drop(slip),
        Err((_, permit)) => {
            if let Some(permit) = permit {
                permit.abandon();
            }
            panic!(rt; "it is answered");
        }
    }
}
