//! Tests of the store on disk, which has none of its own, so that it is proved once.
#![tactic(auto)]

#[cfg(test)]
mod damage;
#[cfg(test)]
mod groups;
#[cfg(test)]
mod large;
#[cfg(test)]
mod looking;
#[cfg(test)]
mod noting;
#[cfg(test)]
mod same;
#[cfg(test)]
mod steps;
#[cfg(test)]
mod stores;
#[cfg(test)]
mod tables;
