//! Tests of the synod's parts: ballots, the acceptor, stores, the learner, the proposer. The crates tested have none of their
//! own, so that each is proved once.
#![tactic(auto)]

#[cfg(test)]
mod acceptor;
#[cfg(test)]
mod ballots;
#[cfg(test)]
mod learner;
#[cfg(test)]
mod packets;
#[cfg(test)]
mod proposer;
#[cfg(test)]
mod same;
#[cfg(test)]
mod stores;
#[cfg(test)]
mod values;
