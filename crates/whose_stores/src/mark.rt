//! The first store that says whose it is.

ghost use Rattle.std.specs.Prelude.{◌≡◌};
ghost use Rattle.whose_stores.specs.Marks.{first_mark};

use crate::found::Found;

/// A cluster, and the number of the first node whose store is of it.
#[derive(Clone, Copy, Debug, PartialEq, Eq)]
pub(crate) struct Mark {
    pub(crate) first: usize,
    pub(crate) cluster: i64,
}

/// The first store that says whose it is.
#[tactic(auto, using(crate::proofs::Steps::mark_here, crate::proofs::Steps::mark_later, crate::proofs::Steps::none_marked))]
pub(crate) fn first_mark(found: &[Found]) -> Option<Mark>
    ensures { result ≡ first_mark 1 found.now }
{
    for at in 0..found.len() {
        let one = &found[at];
        if let Some(whose) = one.mark() {
            return Some(Mark {
                first: at + 1,
                cluster: whose.cluster,
            });
        }
    }
    None
}
