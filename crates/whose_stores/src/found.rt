//! What is found where a node keeps its records.

ghost use Rattle.std.specs.Prelude.{◌≡◌};
ghost use Rattle.whose_stores.specs.Marks.{begun_in, is_begun, is_going, mark_in};

/// How many nodes a cluster has at most.
pub const MOST_NODES: usize = 9;

/// Whose a store is, as it says.
#[derive(Clone, Copy, Debug, PartialEq, Eq)]
pub struct Whose {
    /// The name of the cluster, which was drawn as its first store was made.
    pub cluster: i64,
    /// The number of the node, from 1.
    pub node: u8,
    /// How many nodes the cluster has.
    pub nodes: u8,
    /// The last incarnation of the node when this was written: 0 if none had begun.
    pub at: u16,
}

/// What a store holds.
#[derive(Clone, Copy, Debug, PartialEq, Eq)]
pub struct Stored {
    /// None in a store that an earlier program made, or that was not written to its end.
    pub whose: Option<Whose>,
    /// The last incarnation of the node: 0 if none has begun.
    pub begun: u16,
    /// Of each node, that of node 1 first, the highest incarnation that a record names, by an author or a ballot: 0 if none does.
    pub named: [u16; MOST_NODES],
}

/// What is found where a node keeps its records.
#[derive(Clone, Copy, Debug, PartialEq, Eq)]
pub enum Found {
    /// It is to keep them in memory.
    Memory,
    /// There is no file, or one without an octet.
    New,
    Stored(Stored),
}

impl Found {
    /// Whose the store says that it is.
    pub(crate) fn mark(&self) -> Option<Whose>
        ensures { result ≡ mark_in self.now }
    {
        match self {
            Found::Stored(stored) => stored.whose,
            Found::Memory | Found::New => None,
        }
    }

    /// The last incarnation that has begun over it: 0 if none has.
    pub(crate) fn begun(&self) -> u16
        ensures { result ≡ begun_in self.now }
    {
        match self {
            Found::Stored(stored) => stored.begun,
            Found::Memory | Found::New => 0,
        }
    }

    /// Whether an incarnation has begun over it.
    pub(crate) fn is_begun(&self) -> bool
        ensures { result ≡ is_begun self.now }
    {
        self.begun() > 0
    }

    /// Whether an incarnation has begun over it since it says whose it is.
    pub(crate) fn is_going(&self) -> bool
        ensures { result ≡ is_going self.now }
    {
        match self.mark() {
            Some(whose) => whose.at < self.begun(),
            None => false,
        }
    }
}
