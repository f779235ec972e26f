//! The laws of single things: ids, ballots, majorities, one slot, chains, and what one node knows. Code may cite them. The
//! functions do nothing: their contracts are the laws.
#![tactic(auto)]

mod chains;
mod examples;
mod nodes;
mod synod;

pub use chains::{a_fate_is_the_end, chains_are_short, newest_decree_says_the_state};
pub use examples::{a_chain_of_each_kind_is_permitted, ids_have_their_parts};
pub use nodes::{
    a_grant_is_given_or_refused_by_one_number, a_node_knows_one_chain, an_answer_is_one,
};
pub use synod::{ballots_have_their_parts, choice_is_stable, majorities_meet};
