//! Tests of the shelf, which has none of its own, so that it is proved once.
#![tactic(auto)]

#[cfg(test)]
mod shelves;
