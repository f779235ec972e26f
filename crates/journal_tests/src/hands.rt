//! Hands that hand in steps by lot.

use crate::asked::{cancel, query};
use crate::lots::Lots;
use delivery::Outcome;
use desk::Request;
use lines_of_tests::{account, request};
use mc_types::{Moment, MsgId, NodeNo};
use node_core::Life;
use node_threads::Slip;
use pdu_codec::SystemId;
use std::alloc::Global;
use std::process::Abort;
use synod_acceptor::Packet;

/// How many messages hands keep in mind.
const MOST_HEARD: usize = 8;

/// A node in someone's hands: its life, and the number of the last packet that it was handed in order.
#[derive(Drop)]
pub struct Held {
    pub life: Life,
    pub handed: u64,
}

impl Held {
    /// The number of the first packet that it was not handed.
    pub fn first_left(&self) -> u64 {
        self.handed.saturating_add(1)
    }
}

/// Who hands in steps by lot: with the nodes that they hold, the time that it is, and some messages that they heard of last.
#[derive(Drop)]
pub struct Hands {
    pub held: Vec<Held>,
    pub lots: Lots,
    moment: Moment,
    heard: Vec<MsgId>,
}

impl Hands {
    /// Hands with the draws of this stream, and no node.
    pub fn empty(alloc: Global, stream: u64) -> Hands {
        Hands {
            held: Vec::new(alloc),
            lots: Lots::new(stream),
            moment: Moment::least(),
            heard: Vec::new(alloc),
        }
    }

    /// The number of the first packet that some of their nodes was not handed.
    pub fn first_left(&self) -> u64 {
        let mut first = u64::MAX;
        for held in self.held.as_slice() {
            first = first.min(held.first_left());
        }
        first
    }

    /// Keeps in mind the messages of which a step told a vote.
    pub fn hear(&mut self, rt: &impl Abort, slip: &Slip) {
        for packet in slip.outputs().packets.as_slice() {
            if let Packet::Voted { vote, .. } = packet {
                self.keep(rt, vote.chain.id());
            }
        }
    }

    fn keep(&mut self, rt: &impl Abort, id: MsgId) {
        if self.heard.contains(&id) {
            return;
        }
        if self.heard.len() >= MOST_HEARD {
            self.heard.remove(0);
        }
        self.heard.push(id).expect(rt, "memory");
    }

    /// A message that was heard of, by lot.
    pub fn id(&mut self) -> Option<MsgId> {
        let place = self.lots.below(self.heard.len() as u64) as usize;
        self.heard.get(place).copied()
    }

    /// A request by lot: now and then a submit_sm, or else a query_sm or a cancel_sm of a message that was heard of.
    pub fn request(&mut self, rt: &impl Abort, alloc: Global) -> Option<Request> {
        let asked = match self.lots.below(400) {
            0..3 => request(alloc, "submit_with_receipt"),
            3..9 => query(alloc, self.id()?),
            9..11 => cancel(alloc, self.id()?),
            _ => return None,
        };
        Some(asked.expect(rt, "a request"))
    }

    /// What comes of an attempt: every third one is not answered.
    pub fn outcome(&mut self) -> Outcome {
        if self.lots.below(3) == 0 {
            Outcome::unanswered()
        } else {
            Outcome::Delivered
        }
    }

    /// The next second.
    pub fn moment(&mut self) -> Moment {
        self.moment = self.moment.later(1);
        self.moment
    }

    /// The accounts of which a session may receive: every other time sme1.
    pub fn up(&mut self, rt: &impl Abort, alloc: Global) -> Vec<SystemId> {
        let mut up = Vec::new(alloc);
        if self.lots.below(2) == 0 {
            up.push(account(alloc).expect(rt, "an account"))
                .expect(rt, "memory");
        }
        up
    }

    /// The place of a node, by lot.
    pub fn place(&mut self) -> usize {
        self.lots.below(self.held.len() as u64) as usize
    }

    /// The node at a place.
    pub fn node(&self, rt: &impl Abort, place: usize) -> NodeNo {
        self.held.get(place).expect(rt, "a node").life.node()
    }

    /// The number of the first packet that the node at a place was not handed.
    pub fn first_left_at(&self, rt: &impl Abort, place: usize) -> u64 {
        self.held.get(place).expect(rt, "a node").first_left()
    }

    /// The node at a place was handed the packet with this number, and all before.
    pub fn hand(&mut self, rt: &impl Abort, place: usize, number: u64) {
        self.held.get_mut(place).expect(rt, "a node").handed = number;
    }
}
