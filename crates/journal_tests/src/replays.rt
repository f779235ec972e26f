//! The steps of a journal, and what a world gives by them.

use crate::opened::{NODES, VALIDITY};
use node_core::Outputs;
use node_threads::Entry;
use sim_net::Packets;
use std::alloc::Global;
use std::collections::VecDeque;
use std::process::Abort;
use synod_acceptor::Packet;
use world::{Given, Step, World, WorldFault};
use world_runs::run;

/// The steps for an entry: one of a start anew that names an unfinished save stands for the stop and the start.
fn add_steps(rt: &impl Abort, steps: &mut Vec<Step>, entry: &Entry) {
    if let Some(save) = entry.unfinished {
        if let Step::Restart { node } = entry.done.step {
            let stop = Step::Crash {
                node,
                number: save.number,
                found: save.found,
            };
            steps.push(stop).expect(rt, "memory");
        }
    }
    let step = entry.done.step.copy().expect(rt, "memory");
    steps.push(step).expect(rt, "memory");
}

/// The steps of all entries.
fn steps_of(rt: &impl Abort, alloc: Global, entries: &[Entry]) -> Vec<Step> {
    let mut steps = Vec::new(alloc);
    for entry in entries {
        add_steps(rt, &mut steps, entry);
    }
    steps
}

/// What a world gave by its steps, and its packets, of which so many were sent by the steps that were looked at.
#[derive(Drop)]
struct Replay<'a> {
    alloc: Global,
    answers: VecDeque<Result<Given, WorldFault>>,
    packets: &'a Packets,
    sent: u64,
}

impl Replay<'_> {
    /// What the next step gave out, if it was taken.
    fn next(&mut self, rt: &impl Abort) -> Option<Outputs> {
        let Some(Ok(given)) = self.answers.pop_front() else {
            return None;
        };
        Some(Outputs {
            ticket: given.ticket,
            refused: given.refused,
            packets: self.next_packets(rt, given.packets),
            replies: given.replies,
            receipts: given.receipts,
            granted: given.granted,
        })
    }

    /// The next so many packets that were sent.
    fn next_packets(&mut self, rt: &impl Abort, count: usize) -> Vec<Packet> {
        let mut packets = Vec::new(self.alloc);
        for _ in 0..count {
            self.sent = self.sent.saturating_add(1);
            let packet = self.packets.get(self.sent).expect(rt, "a packet");
            let packet = packet.copy().expect(rt, "memory");
            packets.push(packet).expect(rt, "memory");
        }
        packets
    }

    /// Whether an entry gave out what the world does by its steps.
    fn is(&mut self, rt: &impl Abort, entry: &Entry) -> bool {
        if entry.unfinished.is_some() && self.next(rt).is_none() {
            return false;
        }
        match self.next(rt) {
            Some(outputs) => entry.done.outputs.is(&outputs),
            None => false,
        }
    }
}

/// How many entries gave out what a world of nine nodes gives by their steps.
pub fn same(rt: &impl Abort, alloc: Global, entries: &[Entry]) -> usize {
    let mut world = World::start(alloc, NODES, 1, VALIDITY).expect(rt, "a world");
    let steps = steps_of(rt, alloc, entries);
    let trace = run(alloc, &mut world, steps).expect(rt, "memory");
    let mut replay = Replay {
        alloc,
        answers: VecDeque::from_vec(trace.answers),
        packets: world.packets(),
        sent: 0,
    };
    let mut same = 0usize;
    for entry in entries {
        if replay.is(rt, entry) {
            same = same.saturating_add(1);
        }
    }
    same
}
