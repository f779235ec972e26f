//! Tests of the limits of accounts, in a crate of their own, so that `account_limits` is proved once.
#![tactic(auto)]

#[cfg(test)]
mod binds;
#[cfg(test)]
mod nets;
#[cfg(test)]
mod paces;
#[cfg(test)]
mod passwords;
#[cfg(test)]
mod same;
#[cfg(test)]
mod senders;
