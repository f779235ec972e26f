//! Tests of nodes over stores on disk, alone and together, and over those that a path opens. The crates tested have none of their own, so that they are proved
//! once.
#![tactic(auto)]

#[cfg(test)]
mod cluster;
#[cfg(test)]
mod lines;
#[cfg(test)]
mod member;
#[cfg(test)]
mod on_disk;
#[cfg(test)]
mod opened;
#[cfg(test)]
mod rows;
#[cfg(test)]
mod same;
