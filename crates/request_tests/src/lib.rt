//! Tests of the requests that wait. The crate tested has none of its own, so that it is proved once.
#![tactic(auto)]

#[cfg(test)]
mod answers;
#[cfg(test)]
mod queues;
#[cfg(test)]
mod replies;
#[cfg(test)]
mod same;
#[cfg(test)]
mod turns;
#[cfg(test)]
mod values;
#[cfg(test)]
mod waits;
