//! Tests of whose stores are, in a crate of their own, so that `whose_stores` is proved once.
#![tactic(auto)]

#[cfg(test)]
mod judging;
#[cfg(test)]
mod same;
