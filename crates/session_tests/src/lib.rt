//! The tests of `sessions`, in a crate without code so that it is proved once.
#![tactic(auto)]

#[cfg(test)]
mod events;
#[cfg(test)]
mod names;
#[cfg(test)]
mod rows;
#[cfg(test)]
mod same;
#[cfg(test)]
mod sessions_by_rows;
#[cfg(test)]
mod values;
#[cfg(test)]
mod words;
