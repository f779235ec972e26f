//! The tests of `esme_site`, in a crate without code so that it is proved once.
#![tactic(auto)]

#[cfg(test)]
mod asks;
#[cfg(test)]
mod calls;
#[cfg(test)]
mod counted;
#[cfg(test)]
mod double;
#[cfg(test)]
mod heeds;
#[cfg(test)]
mod octets;
#[cfg(test)]
mod replies;
#[cfg(test)]
mod same;
#[cfg(test)]
mod values;
