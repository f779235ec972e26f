//! The rules, and where one is broken.

ghost use Rattle.std.specs.Prelude.{◌≡◌};
ghost use Rattle.whose_stores.specs.Rules.{broken, first_broken, first_named, first_older, missing, older, strange, strange_by, unbegun, unknown};

use crate::difference::Difference;
use crate::found::{Found, MOST_NODES, Whose};
use crate::mark::Mark;

/// What must hold of each store.
#[derive(Clone, Copy)]
pub(crate) enum Rule {
    /// If it says whose it is, it is that of its node, of a cluster of so many nodes as there are, and of this cluster.
    Own(Mark),
    /// It says whose it is, since the store of this node has gone on.
    Marked(usize),
    /// It was begun, since that of this node was; unless it is in memory.
    Begun(usize),
    /// It names no node that there is not.
    Known,
    /// It names of no node an incarnation above those that have begun there.
    Newest,
}

/// How what is found at a node breaks the rule, if it does.
pub(crate) fn broken(rule: Rule, all: &[Found], node: usize, found: &Found) -> Option<Difference>
    ensures { result ≡ broken rule all.now node found.now }
{
    match rule {
        Rule::Own(mark) => strange(all.len(), mark, node, found),
        Rule::Marked(begun) => missing(begun, node, found),
        Rule::Begun(begun) => unbegun(begun, node, found),
        Rule::Known => unknown(all.len(), node, found),
        Rule::Newest => older(all, node, found),
    }
}

/// The first node at which the rule is broken.
#[tactic(auto, using(crate::proofs::Steps::broken_here, crate::proofs::Steps::broken_later, crate::proofs::Steps::none_broken))]
pub(crate) fn first_broken(rule: Rule, all: &[Found]) -> Option<Difference>
    ensures { result ≡ first_broken rule all.now 1 all.now }
{
    for at in 0..all.len() {
        let one = &all[at];
        let found = broken(rule, all, at + 1, one);
        if found.is_some() {
            return found;
        }
    }
    None
}

fn strange(nodes: usize, mark: Mark, node: usize, found: &Found) -> Option<Difference>
    ensures { result ≡ strange nodes mark node found.now }
{
    let whose = found.mark()?;
    strange_by(nodes, mark, node, whose)
}

fn strange_by(nodes: usize, mark: Mark, node: usize, whose: Whose) -> Option<Difference>
    ensures { result ≡ strange_by nodes mark node whose }
{
    if whose.node as usize != node {
        return Some(Difference::Node {
            node,
            is_of: whose.node as usize,
        });
    }
    if whose.nodes as usize != nodes {
        return Some(Difference::Count {
            node,
            nodes: whose.nodes as usize,
        });
    }
    if whose.cluster != mark.cluster {
        return Some(Difference::Cluster {
            node,
            first: mark.first,
        });
    }
    None
}

fn missing(begun: usize, node: usize, found: &Found) -> Option<Difference>
    ensures { result ≡ missing begun node found.now }
{
    match found.mark() {
        Some(_) => None,
        None => Some(Difference::Missing { node, begun }),
    }
}

fn unbegun(begun: usize, node: usize, found: &Found) -> Option<Difference>
    ensures { result ≡ unbegun begun node found.now }
{
    match found {
        Found::Memory => None,
        Found::New => Some(Difference::Unbegun { node, begun }),
        Found::Stored(stored) if stored.begun > 0 => None,
        Found::Stored(_) => Some(Difference::Unbegun { node, begun }),
    }
}

fn unknown(nodes: usize, node: usize, found: &Found) -> Option<Difference>
    ensures { result ≡ unknown nodes node found.now }
{
    let Found::Stored(stored) = found else {
        return None;
    };
    let named = first_named(nodes, &stored.named)?;
    Some(Difference::Unknown { node, named })
}

/// The first node with a number above this one of which an incarnation is named.
#[tactic(auto, using(crate::proofs::Steps::rest_from))]
fn first_named(above: usize, named: &[u16; MOST_NODES]) -> Option<usize>
    ensures { result ≡ first_named above 1 named.now }
{
    for at in 0..MOST_NODES {
        let incarnation = named[at];
        if at >= above && incarnation > 0 {
            return Some(at + 1);
        }
    }
    None
}

fn older(all: &[Found], by: usize, found: &Found) -> Option<Difference>
    ensures { result ≡ older all.now by found.now }
{
    let Found::Stored(stored) = found else {
        return None;
    };
    first_older(all, by, &stored.named)
}

/// The first node whose own store has begun no incarnation as high as the one that is named of it by this node.
#[tactic(auto, using(crate::proofs::Steps::older_here, crate::proofs::Steps::older_later, crate::proofs::Steps::no_more_nodes, crate::proofs::Steps::no_more_named))]
fn first_older(all: &[Found], by: usize, named: &[u16; MOST_NODES]) -> Option<Difference>
    ensures { result ≡ first_older by 1 all.now named.now }
{
    for at in 0..MOST_NODES {
        if at >= all.len() {
            return None;
        }
        let one = &all[at];
        let begun = one.begun();
        let incarnation = named[at];
        if begun < incarnation {
            return Some(Difference::Older {
                node: at + 1,
                by,
                incarnation,
                begun,
            });
        }
    }
    None
}
