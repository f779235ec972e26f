//! Tests of `noting_store`, which has none of its own, so that it is proved once.
#![tactic(auto)]

#[cfg(test)]
mod notes;
#[cfg(test)]
mod same;
#[cfg(test)]
mod stores;
#[cfg(test)]
mod values;
