//! The tests of `pdu_tables`, `pdu_bodies` and `pdu_codec`, in a crate without code so that each of those is proved once.
#![tactic(auto)]

#[cfg(test)]
mod cases;
#[cfg(test)]
mod comparing;
#[cfg(test)]
mod damaged_pdus;
#[cfg(test)]
mod full_vectors;
#[cfg(test)]
mod pdu_faults;
#[cfg(test)]
mod pdus;
#[cfg(test)]
mod tables;
#[cfg(test)]
mod told;
#[cfg(test)]
mod vectors;
