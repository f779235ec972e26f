//! How a vote is counted anew.

use mc_types::NodeSet;

/// How the count of a vote is to be once one more node told of it: where it stands, and who cast the vote then. It is for the learner that
/// gave it, as that was then.
#[derive(Clone, Copy)]
pub struct Recount {
    pub(crate) place: usize,
    pub(crate) voters: NodeSet,
}
