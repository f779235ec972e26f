//! Tests of a world of several nodes, and of the packets between them.
#![tactic(auto)]

#[cfg(test)]
mod runs;
#[cfg(test)]
mod same;
#[cfg(test)]
mod walks;
#[cfg(test)]
mod worlds;
