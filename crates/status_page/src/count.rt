//! What is counted of a server.

ghost use Rattle.std.specs.Prelude.{◌≡◌};
ghost use Rattle.status_page.specs.Counts.{count_help, count_name, count_rises};

/// What is counted of a server.
#[derive(Clone, Copy, Debug, PartialEq, Eq)]
pub enum Count {
    Serving,
    Seconds,
    Connections,
    Ended,
    Packets,
    Parts,
    Entries,
    ClosedEntries,
    Wants,
}

/// All that is counted of a server, in the order in which it is told.
pub const COUNTS: [Count; 9] = [
    Count::Serving,
    Count::Seconds,
    Count::Connections,
    Count::Ended,
    Count::Packets,
    Count::Parts,
    Count::Entries,
    Count::ClosedEntries,
    Count::Wants,
];

impl Count {
    /// Its name, in metrics and in JSON.
    pub fn name(self) -> &'static str
        ensures { result.now ≡ count_name self }
    {
        match self {
            Count::Serving => "serving",
            Count::Seconds => "seconds",
            Count::Connections => "connections",
            Count::Ended => "sessions_ended",
            Count::Packets => "packets",
            Count::Parts => "journal_parts_closed",
            Count::Entries => "journal_entries",
            Count::ClosedEntries => "journal_entries_closed",
            Count::Wants => "memory_wants",
        }
    }

    /// What it is, in words.
    pub fn help(self) -> &'static str
        ensures { result.now ≡ count_help self }
    {
        match self {
            Count::Serving => "Whether all nodes may be served: 1, or 0",
            Count::Seconds => "Seconds since the server began",
            Count::Connections => "Connections that were let in",
            Count::Ended => "Sessions that ended",
            Count::Packets => "Packets that nodes sent each other",
            Count::Parts => "Parts of the journal that were closed",
            Count::Entries => "Steps in the part of the journal that is open",
            Count::ClosedEntries => "Steps in the parts of the journal that were closed",
            Count::Wants => "How often there was not enough memory for what was asked for",
        }
    }

    /// Whether it only rises, as long as the server goes on.
    pub fn rises(self) -> bool
        ensures { result ≡ count_rises self }
    {
        matches!(
            self,
            Count::Connections
                | Count::Ended
                | Count::Packets
                | Count::Parts
                | Count::ClosedEntries
                | Count::Wants
        )
    }
}
