//! Tests of accounts, routes and the configuration. The crates tested have none of their own, so that each is proved once.
#![tactic(auto)]

#[cfg(test)]
mod accounts_tests;
#[cfg(test)]
mod faults;
#[cfg(test)]
mod limits;
#[cfg(test)]
mod own;
#[cfg(test)]
mod same;
#[cfg(test)]
mod warned;
#[cfg(test)]
mod whole;
