//! Why stores are not those with which their nodes may go on together.

/// Why stores are not those with which their nodes may go on together. Nodes are named by their numbers, from 1.
#[derive(Clone, Copy, Debug, PartialEq, Eq)]
pub enum Difference {
    /// The store of `node` is that of the node `is_of`.
    Node {
        node: usize,
        is_of: usize,
    },
    /// The store of `node` is of a cluster of `nodes` nodes, and there are others.
    Count {
        node: usize,
        nodes: usize,
    },
    /// The store of `node` is of another cluster than that of the node `first`.
    Cluster {
        node: usize,
        first: usize,
    },
    /// The store of the node `begun` has gone on with its cluster, and `node` has none of that.
    Missing {
        node: usize,
        begun: usize,
    },
    /// The store of the node `begun` was begun, and that of `node` was not.
    Unbegun {
        node: usize,
        begun: usize,
    },
    /// The store of `node` names the node `named`, which there is not.
    Unknown {
        node: usize,
        named: usize,
    },
    /// The store of the node `by` names `incarnation` of `node`, whose own store has begun `begun` last.
    Older {
        node: usize,
        by: usize,
        incarnation: u16,
        begun: u16,
    },
}
