//! What a server tells of itself.

ghost use Rattle.std.specs.Prelude.{◌≡◌, []};
ghost use Rattle.status_page.specs.Counts.{count_value, node_value};
ghost use Rattle.status_page.specs.declared.count.Count.{Count};
ghost use Rattle.status_page.specs.declared.node_count.NodeCount.{NodeCount};

use crate::count::Count;
use crate::node_count::NodeCount;
use std::alloc::Global;

/// What a server tells of itself, at one moment.
#[derive(Debug, Drop)]
pub struct Status {
    /// Whether all nodes may be served: 1, or 0.
    pub serving: bool,
    /// How many seconds ago the server began.
    pub seconds: u64,
    /// How many connections were let in.
    pub connections: u64,
    /// How many sessions ended.
    pub ended: u64,
    /// How many packets nodes sent each other.
    pub packets: u64,
    /// How many parts of the journal were closed.
    pub parts: u64,
    /// How many steps the part of the journal has that is open.
    pub entries: u64,
    /// How many steps the parts of the journal have that were closed.
    pub closed_entries: u64,
    /// How often there was not enough memory for what was asked for.
    pub wants: u64,
    /// Its nodes.
    pub nodes: Vec<NodeStatus>,
}

/// What a server tells of one of its nodes.
#[derive(Clone, Copy, Debug, PartialEq, Eq)]
pub struct NodeStatus {
    /// The node's number.
    pub number: u8,
    /// Whether it may be served: 1, or 0.
    pub serving: bool,
    /// Its incarnation.
    pub incarnation: u64,
    /// How many serials of messages its incarnation has left.
    pub serials_left: u64,
    /// How many sessions are not bound.
    pub unbound: u64,
    /// How many sessions are bound as transmitter.
    pub transmitters: u64,
    /// How many sessions are bound as receiver.
    pub receivers: u64,
    /// How many sessions are bound as transceiver.
    pub transceivers: u64,
    /// How many requests of ESMEs wait for an answer.
    pub requests: u64,
    /// How many deliver_sm wait for an answer.
    pub window: u64,
    /// How many messages wait for a place in a window.
    pub waiting: u64,
    /// How many messages were taken.
    pub submits: u64,
    /// How many requests were refused.
    pub refused: u64,
    /// How many messages were sent to ESMEs.
    pub deliveries: u64,
    /// How many packets came to it.
    pub packets: u64,
    /// How many receipts were sent to ESMEs.
    pub receipts: u64,
    /// How many final states were told.
    pub fates: u64,
    /// How many ticks came.
    pub ticks: u64,
    /// How many milliseconds the last tick and its rounds took.
    pub tick_milliseconds: u64,
}

impl Status {
    /// Nothing was counted, of no node.
    pub fn none(alloc: Global) -> Status
        ensures counts { (count : Count) → count_value result count ≡ 0 }
        ensures nodes { result.nodes.items ≡ [] }
    {
        Status {
            serving: false,
            seconds: 0,
            connections: 0,
            ended: 0,
            packets: 0,
            parts: 0,
            entries: 0,
            closed_entries: 0,
            wants: 0,
            nodes: Vec::new(alloc),
        }
    }

    /// The number that is counted.
    pub fn value(&self, count: Count) -> u64
        ensures { result ≡ count_value self.now count }
    {
        match count {
            Count::Serving => u64::from(self.serving),
            Count::Seconds => self.seconds,
            Count::Connections => self.connections,
            Count::Ended => self.ended,
            Count::Packets => self.packets,
            Count::Parts => self.parts,
            Count::Entries => self.entries,
            Count::ClosedEntries => self.closed_entries,
            Count::Wants => self.wants,
        }
    }
}

impl NodeStatus {
    /// Nothing was counted of the node of this number.
    pub fn none(number: u8) -> NodeStatus
        ensures number { result.number ≡ number }
        ensures counts { (count : NodeCount) → node_value result count ≡ 0 }
    {
        NodeStatus {
            number,
            serving: false,
            incarnation: 0,
            serials_left: 0,
            unbound: 0,
            transmitters: 0,
            receivers: 0,
            transceivers: 0,
            requests: 0,
            window: 0,
            waiting: 0,
            submits: 0,
            refused: 0,
            deliveries: 0,
            packets: 0,
            receipts: 0,
            fates: 0,
            ticks: 0,
            tick_milliseconds: 0,
        }
    }

    /// The number that is counted.
    pub fn value(&self, count: NodeCount) -> u64
        ensures { result ≡ node_value self.now count }
    {
        match count {
            NodeCount::Serving => u64::from(self.serving),
            NodeCount::Incarnation => self.incarnation,
            NodeCount::SerialsLeft => self.serials_left,
            NodeCount::Unbound => self.unbound,
            NodeCount::Transmitters => self.transmitters,
            NodeCount::Receivers => self.receivers,
            NodeCount::Transceivers => self.transceivers,
            NodeCount::Requests => self.requests,
            NodeCount::Window => self.window,
            NodeCount::Waiting => self.waiting,
            NodeCount::Submits => self.submits,
            NodeCount::Refused => self.refused,
            NodeCount::Deliveries => self.deliveries,
            NodeCount::Packets => self.packets,
            NodeCount::Receipts => self.receipts,
            NodeCount::Fates => self.fates,
            NodeCount::Ticks => self.ticks,
            NodeCount::TickMilliseconds => self.tick_milliseconds,
        }
    }
}
