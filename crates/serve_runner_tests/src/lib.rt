//! Tests of a server by a configuration in a file, over stores on disk, with clients over loopback.
#![tactic(auto)]

#[cfg(test)]
mod client;
#[cfg(test)]
mod home;
#[cfg(test)]
mod plays;
#[cfg(test)]
mod same;
#[cfg(test)]
mod served;
