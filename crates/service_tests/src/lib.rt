//! The tests of `esme_service`, in a crate without code so that it is proved once.
#![tactic(auto)]

#[cfg(test)]
mod calls;
#[cfg(test)]
mod octets;
#[cfg(test)]
mod replies;
#[cfg(test)]
mod same;
#[cfg(test)]
mod steps;
#[cfg(test)]
mod streams;
#[cfg(test)]
mod values;
