//! Tests of frames, out of streams that are cut anywhere and from readers at any pace, which the crates tested have none of, so that each is
//! proved once.
#![tactic(auto)]

#[cfg(test)]
mod frames;
#[cfg(test)]
mod pdus;
#[cfg(test)]
mod same;
#[cfg(test)]
mod source;
#[cfg(test)]
mod streams;
