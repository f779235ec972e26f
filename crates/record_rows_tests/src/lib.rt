//! Tests of the rows of a node's store, which has none of its own, so that it is proved once.
#![tactic(auto)]

#[cfg(test)]
mod known;
#[cfg(test)]
mod rows;
#[cfg(test)]
mod same;
#[cfg(test)]
mod steps;
#[cfg(test)]
mod tables;
#[cfg(test)]
mod whose;
