//! Which incarnations records name.

ghost use Rattle.std.specs.Prelude.{◌≡◌};
ghost use Rattle.node_stores.specs.Named.{at_ballot, highest_by, highest_in, highest_of, highest_reported};

use fate_chain::Decree;
use mc_types::{Ballot, NodeNo};
use synod_acceptor::{Record, Report};
use whose_stores::MOST_NODES;

/// Of each node, that of node 1 first, the highest incarnation that a record names, by a ballot or by the author of a decree: 0 if none does.
pub(crate) fn named_in(records: &[Record]) -> [u16; MOST_NODES] {
    let mut named = [0; MOST_NODES];
    for at in 0..MOST_NODES {
        named[at] = highest(records, at as u8 + 1);
    }
    named
}

/// The highest incarnation of this node that a record names.
fn highest(records: &[Record], node: u8) -> u16
    ensures { result ≡ highest_of node records.now }
{
    let mut most = 0;
    for kept in records {
        most = most.max(highest_in(kept, node));
    }
    most
}

/// The highest incarnation of this node that the record names.
fn highest_in(kept: &Record, node: u8) -> u16
    ensures { result ≡ highest_in node kept.now }
{
    let promised = at_ballot(kept.promised(), node);
    promised.max(highest_reported(kept.report(), node))
}

/// The highest that a vote names, if there is one.
#[tactic(auto, using(crate::proofs::Reversed::of_reversed))]
fn highest_reported(report: &Report, node: u8) -> u16
    ensures { result ≡ highest_reported node report.now }
{
    match report {
        Report::Nothing(_) => 0,
        Report::Held(vote) => at_ballot(vote.ballot, node).max(highest_by(
            vote.chain.decrees(),
            node,
        )),
    }
}

/// The incarnation that proposed at the ballot, if it is one of this node.
fn at_ballot(ballot: Ballot, node: u8) -> u16
    ensures { result ≡ at_ballot node ballot }
{
    if ballot.node().number() == node {
        ballot.incarnation().number()
    } else {
        0
    }
}

/// The highest incarnation of this node that made one of the decrees.
fn highest_by(decrees: &[Decree], node: u8) -> u16
    ensures { result ≡ highest_by node decrees.now }
{
    let mut most = 0;
    for decree in decrees {
        if decree.author.node.number() == node {
            most = most.max(decree.author.incarnation.number());
        }
    }
    most
}
