//! Whether stores are those with which their nodes may go on together.

ghost use Rattle.std.specs.Prelude.{◌≡◌};
ghost use Rattle.whose_stores.specs.Judging.{apart, difference_in, strangers};

use crate::begun::{first_begun, first_going};
use crate::broken::{Rule, first_broken};
use crate::difference::Difference;
use crate::found::Found;
use crate::mark::first_mark;

/// Why the nodes at which this is found, that of node 1 first, may not go on together: the first difference; none if they may. It takes no memory.
///
/// Of several differences, first a store that is not that of its node, of this number of nodes or of the cluster of the first store that says
/// whose it is. Then, if a store was begun since it says whose it is, a node that has none of that cluster; else a store that was not begun beside one
/// that was. Then a node that is named and is not there; and last a store that is older than another says.
pub fn judge(found: &[Found]) -> Option<Difference>
    ensures { result ≡ difference_in found.now }
{
    let difference = strangers(found);
    if difference.is_some() {
        return difference;
    }
    let difference = apart(found);
    if difference.is_some() {
        return difference;
    }
    let difference = first_broken(Rule::Known, found);
    if difference.is_some() {
        return difference;
    }
    first_broken(Rule::Newest, found)
}

/// The first store that is not that of its node, of this number of nodes, or of the cluster of the first that says whose it is.
fn strangers(found: &[Found]) -> Option<Difference>
    ensures { result ≡ strangers found.now }
{
    let mark = first_mark(found)?;
    first_broken(Rule::Own(mark), found)
}

/// The first node that is behind others in what it has begun.
fn apart(found: &[Found]) -> Option<Difference>
    ensures { result ≡ apart found.now }
{
    match first_going(found) {
        Some(begun) => first_broken(Rule::Marked(begun), found),
        None => first_broken(Rule::Begun(first_begun(found)?), found),
    }
}
