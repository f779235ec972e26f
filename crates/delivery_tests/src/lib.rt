//! The tests of `delivery`, `receipts` and `rules`, in a crate without code so that each of those is proved once.
#![tactic(auto)]

#[cfg(test)]
mod asked;
#[cfg(test)]
mod chains;
#[cfg(test)]
mod decisions;
#[cfg(test)]
mod due;
#[cfg(test)]
mod outcomes;
#[cfg(test)]
mod pdus;
#[cfg(test)]
mod receipt_vectors;
#[cfg(test)]
mod registered;
#[cfg(test)]
mod same;
#[cfg(test)]
mod submits;
#[cfg(test)]
mod texts;
