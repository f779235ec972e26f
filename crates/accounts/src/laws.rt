//! What the look-ups find, in the words of the subject.

ghost use Rattle.accounts.specs.Laws.{AccountIsTheNamed, RouteIsTheLongest, NoneFits};

/// Of accounts, no two with one system_id, the one that is found is the one of that name.
pub fn account_is_the_named()
    ensures { AccountIsTheNamed }
{}

/// Of routes, no two with one prefix, the one that is found is the one whose prefix is the longest of those that the
/// destination begins with; and if none is found, it begins with none.
pub fn route_is_the_longest()
    ensures longest { RouteIsTheLongest }
    ensures none { NoneFits }
{}
