//! Tests of `connection_parts`, in a crate without code so that it is proved once.
#![tactic(auto)]

#[cfg(test)]
mod fitting;
#[cfg(test)]
mod frame_queues;
#[cfg(test)]
mod frames;
#[cfg(test)]
mod numbers;
#[cfg(test)]
mod outboxes;
#[cfg(test)]
mod places;
#[cfg(test)]
mod pushes;
#[cfg(test)]
mod same;
#[cfg(test)]
mod timepieces;
