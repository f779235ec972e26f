//! Tests of long journals, of steps by lot.
#![tactic(auto)]

#[cfg(test)]
mod asked;
#[cfg(test)]
mod hands;
#[cfg(test)]
mod history;
#[cfg(test)]
mod lots;
#[cfg(test)]
mod opened;
#[cfg(test)]
mod played_again;
#[cfg(test)]
mod read;
#[cfg(test)]
mod reader;
#[cfg(test)]
mod replays;
#[cfg(test)]
mod replies;
#[cfg(test)]
mod same;
#[cfg(test)]
mod seated;
#[cfg(test)]
mod unsteady_store;
