//! What is counted of a node.

ghost use Rattle.std.specs.Prelude.{◌≡◌};
ghost use Rattle.status_page.specs.Counts.{node_help, node_name, node_rises};

/// What is counted of a node.
#[derive(Clone, Copy, Debug, PartialEq, Eq)]
pub enum NodeCount {
    Serving,
    Incarnation,
    SerialsLeft,
    Unbound,
    Transmitters,
    Receivers,
    Transceivers,
    Requests,
    Window,
    Waiting,
    Submits,
    Refused,
    Deliveries,
    Packets,
    Receipts,
    Fates,
    Ticks,
    TickMilliseconds,
}

/// All that is counted of a node, in the order in which it is told.
pub const NODE_COUNTS: [NodeCount; 18] = [
    NodeCount::Serving,
    NodeCount::Incarnation,
    NodeCount::SerialsLeft,
    NodeCount::Unbound,
    NodeCount::Transmitters,
    NodeCount::Receivers,
    NodeCount::Transceivers,
    NodeCount::Requests,
    NodeCount::Window,
    NodeCount::Waiting,
    NodeCount::Submits,
    NodeCount::Refused,
    NodeCount::Deliveries,
    NodeCount::Packets,
    NodeCount::Receipts,
    NodeCount::Fates,
    NodeCount::Ticks,
    NodeCount::TickMilliseconds,
];

impl NodeCount {
    /// Its name, in metrics and in JSON.
    pub fn name(self) -> &'static str
        ensures { result.now ≡ node_name self }
    {
        match self {
            NodeCount::Serving => "serving",
            NodeCount::Incarnation => "incarnation",
            NodeCount::SerialsLeft => "serials_left",
            NodeCount::Unbound => "sessions_unbound",
            NodeCount::Transmitters => "sessions_transmitter",
            NodeCount::Receivers => "sessions_receiver",
            NodeCount::Transceivers => "sessions_transceiver",
            NodeCount::Requests => "requests_waiting",
            NodeCount::Window => "deliveries_unanswered",
            NodeCount::Waiting => "messages_waiting",
            NodeCount::Submits => "submits",
            NodeCount::Refused => "refused",
            NodeCount::Deliveries => "deliveries",
            NodeCount::Packets => "packets",
            NodeCount::Receipts => "receipts",
            NodeCount::Fates => "final_states",
            NodeCount::Ticks => "ticks",
            NodeCount::TickMilliseconds => "tick_milliseconds",
        }
    }

    /// What it is, in words.
    pub fn help(self) -> &'static str
        ensures { result.now ≡ node_help self }
    {
        match self {
            NodeCount::Serving => "Whether it may be served: 1, or 0",
            NodeCount::Incarnation => "Its incarnation",
            NodeCount::SerialsLeft => "Serials of messages that its incarnation has left",
            NodeCount::Unbound => "Sessions that are not bound",
            NodeCount::Transmitters => "Sessions that are bound as transmitter",
            NodeCount::Receivers => "Sessions that are bound as receiver",
            NodeCount::Transceivers => "Sessions that are bound as transceiver",
            NodeCount::Requests => "Requests of ESMEs that wait for an answer",
            NodeCount::Window => "deliver_sm that wait for an answer",
            NodeCount::Waiting => "Messages that wait for a place in a window",
            NodeCount::Submits => "Messages that were taken",
            NodeCount::Refused => "Requests that were refused",
            NodeCount::Deliveries => "Messages that were sent to ESMEs",
            NodeCount::Packets => "Packets that came to it",
            NodeCount::Receipts => "Receipts that were sent to ESMEs",
            NodeCount::Fates => "Final states that were told",
            NodeCount::Ticks => "Ticks",
            NodeCount::TickMilliseconds => "Milliseconds that the last tick and its rounds took",
        }
    }

    /// Whether it only rises, as long as the server goes on.
    pub fn rises(self) -> bool
        ensures { result ≡ node_rises self }
    {
        matches!(
            self,
            NodeCount::Submits
                | NodeCount::Refused
                | NodeCount::Deliveries
                | NodeCount::Packets
                | NodeCount::Receipts
                | NodeCount::Fates
                | NodeCount::Ticks
        )
    }
}
