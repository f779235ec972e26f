//! Tests of `worker_parts`, in a crate without code so that it is proved once.
#![tactic(auto)]

#[cfg(test)]
mod attempts;
#[cfg(test)]
mod gates;
#[cfg(test)]
mod hearing;
#[cfg(test)]
mod same;
