//! Tests of the desk: what it takes, refuses and shows. The crate tested has none of its own, so that it is proved once.
#![tactic(auto)]

#[cfg(test)]
mod requests;
#[cfg(test)]
mod same;
#[cfg(test)]
mod shown;
#[cfg(test)]
mod values;
