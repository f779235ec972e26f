//! Tests of `status_page`, in a crate without code so that it is proved once.
#![tactic(auto)]

#[cfg(test)]
mod exchanges;
#[cfg(test)]
mod same;
#[cfg(test)]
mod statuses;
#[cfg(test)]
mod texts;
