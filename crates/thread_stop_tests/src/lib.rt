//! Tests of nodes in threads whose saves fail or are held up, and of a journal that is full. The crates tested have none of their own, so that they are proved
//! once.
#![tactic(auto)]

#[cfg(test)]
mod failed_groups;
#[cfg(test)]
mod failed_saves;
#[cfg(test)]
mod full;
#[cfg(test)]
mod hands;
#[cfg(test)]
mod held_save;
#[cfg(test)]
mod opened;
#[cfg(test)]
mod same;
