//! Tests of `waiting_messages`, which has none of its own, so that it is proved once.
#![tactic(auto)]

#[cfg(test)]
mod backlogs;
#[cfg(test)]
mod lanes;
#[cfg(test)]
mod presences;
#[cfg(test)]
mod spreads;
#[cfg(test)]
mod values;
