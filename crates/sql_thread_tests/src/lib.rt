//! Tests of the nodes of a cluster in threads, over stores on disk. The crates tested have none of their own, so that they are proved once.
#![tactic(auto)]

#[cfg(test)]
mod attempts;
#[cfg(test)]
mod beside;
#[cfg(test)]
mod closing;
#[cfg(test)]
mod hands;
#[cfg(test)]
mod over_sql;
#[cfg(test)]
mod playing;
#[cfg(test)]
mod said;
#[cfg(test)]
mod same;
#[cfg(test)]
mod stores;
