//! Tests of one node. The crate tested has none of its own, so that it is proved once.
#![tactic(auto)]

#[cfg(test)]
mod groups;
#[cfg(test)]
mod many_requests;
#[cfg(test)]
mod nodes_by_rows;
#[cfg(test)]
mod opening;
#[cfg(test)]
mod permits;
#[cfg(test)]
mod same;
#[cfg(test)]
mod walks;
