//! Why stores are not served.

use config::NodeConfig;
use std::alloc::{AllocError, Global};
use std::fmt;
use whose_stores::{Difference, Found};

/// Why stores are not served, in one line.
#[derive(Drop)]
pub struct Refusal {
    difference: Difference,
    // What is found at the node that is told of.
    found: Found,
    // Where that node keeps its records, and where the other one does.
    path: String,
    other: String,
}

impl Refusal {
    /// The line that tells of this difference between what is found at nodes.
    pub(crate) fn make(
        alloc: Global,
        nodes: &[NodeConfig],
        found: &[Found],
        difference: Difference,
    ) -> Result<Refusal, AllocError> {
        let (node, other) = numbers_in(difference);
        let found = match found.get(node.saturating_sub(1)) {
            Some(found) => *found,
            None => Found::Memory,
        };
        let path = String::from_str(alloc, path_of(nodes, node))?;
        let other = String::from_str(alloc, path_of(nodes, other))?;
        Ok(Refusal {
            difference,
            found,
            path,
            other,
        })
    }
}

/// The node that is told of, and the other one, if there is one.
fn numbers_in(difference: Difference) -> (usize, usize) {
    match difference {
        Difference::Node { node, is_of } => (node, is_of),
        Difference::Count { node, .. } | Difference::Unknown { node, .. } => (node, node),
        Difference::Cluster { node, first } => (node, first),
        Difference::Missing { node, begun } | Difference::Unbegun { node, begun } => (node, begun),
        Difference::Older { node, by, .. } => (node, by),
    }
}

/// Where the node of this number keeps its records.
fn path_of(nodes: &[NodeConfig], number: usize) -> &str {
    let Some(node) = nodes.get(number.saturating_sub(1)) else {
        return "nowhere";
    };
    match &node.store {
        Some(path) => path.as_str(),
        None => "in memory",
    }
}

impl fmt::Display for Refusal {
    fn fmt<W: fmt::Write>(&self, f: &mut fmt::Formatter<W>) -> fmt::Result {
        let path = self.path.as_str();
        let other = self.other.as_str();
        match self.difference {
            Difference::Node { node, is_of } => write!(
                f,
                "the store of node {node}, {path}, is that of node {is_of}: give each node its own"
            ),
            Difference::Count { node, nodes } => write!(
                f,
                "the store of node {node}, {path}, is of a cluster of {nodes} nodes: over its stores there can be no other number"
            ),
            Difference::Cluster { node, first } => write!(
                f,
                "the store of node {node}, {path}, is of another cluster than that of node {first}, {other}"
            ),
            Difference::Missing { node, begun } => {
                let lack = lack_of(self.found);
                write!(
                    f,
                    "the store of node {node}, {path}: {lack}, and that of node {begun}, {other}, has gone on with one: take all back from one backup"
                )
            }
            Difference::Unbegun { node, begun } => write!(
                f,
                "the store of node {node}, {path}, was never begun, and that of node {begun}, {other}, was: take all back from one backup"
            ),
            Difference::Unknown { node, named } => write!(
                f,
                "the store of node {node}, {path}, has records of node {named}, which the configuration lacks"
            ),
            Difference::Older {
                node,
                by,
                incarnation,
                begun,
            } => write!(
                f,
                "the store of node {node}, {path}, is older than that of node {by}, {other}: it has begun incarnation {begun}, and that knows of \
                {incarnation}: take all back from one backup"
            ),
        }
    }
}

/// What a node lacks at which this is found.
fn lack_of(found: Found) -> &'static str {
    match found {
        Found::Memory => "it has none in the configuration (is its key `store` misspelled?)",
        Found::New => "it is missing or empty",
        Found::Stored(_) => "it does not say whose it is",
    }
}
