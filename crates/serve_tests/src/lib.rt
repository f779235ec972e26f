//! Tests of the server with clients in the same process, over loopback.
#![tactic(auto)]

#[cfg(test)]
mod clients;
#[cfg(test)]
mod courses;
#[cfg(test)]
mod crowd;
#[cfg(test)]
mod failed_group;
#[cfg(test)]
mod failing_group_store;
#[cfg(test)]
mod on_and_on;
#[cfg(test)]
mod once;
#[cfg(test)]
mod same;
#[cfg(test)]
mod served;
