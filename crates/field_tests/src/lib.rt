//! The tests of `octet_fields` and `pdu_fields`, in a crate without code so that each of those is proved once.
#![tactic(auto)]

#[cfg(test)]
mod body_fields;
#[cfg(test)]
mod fields;
#[cfg(test)]
mod same;
#[cfg(test)]
mod texts;
