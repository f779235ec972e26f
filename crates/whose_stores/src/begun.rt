//! The first store over which an incarnation has begun.

ghost use Rattle.std.specs.Prelude.{◌≡◌};
ghost use Rattle.whose_stores.specs.Marks.{first_begun, first_going};

use crate::found::Found;

/// The number of the first node whose store was begun since it says whose it is.
#[tactic(auto, using(crate::proofs::Steps::going_here, crate::proofs::Steps::going_later, crate::proofs::Steps::none_going))]
pub(crate) fn first_going(found: &[Found]) -> Option<usize>
    ensures { result ≡ first_going 1 found.now }
{
    for at in 0..found.len() {
        let one = &found[at];
        if one.is_going() {
            return Some(at + 1);
        }
    }
    None
}

/// The number of the first node whose store was begun.
#[tactic(auto, using(crate::proofs::Steps::begun_here, crate::proofs::Steps::begun_later, crate::proofs::Steps::none_begun))]
pub(crate) fn first_begun(found: &[Found]) -> Option<usize>
    ensures { result ≡ first_begun 1 found.now }
{
    for at in 0..found.len() {
        let one = &found[at];
        if one.is_begun() {
            return Some(at + 1);
        }
    }
    None
}
