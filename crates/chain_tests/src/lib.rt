//! Tests of chains. The crate tested has none of its own, so that it is proved once.
#![tactic(auto)]

#[cfg(test)]
mod chains;
#[cfg(test)]
mod same;
#[cfg(test)]
mod values;
