//! What a note says of the nodes: nothing to call, but to cite.

ghost use Rattle.std.specs.Prelude.{ℕ};
ghost use Rattle.noting_store.specs.Noted.{AreMost, SaysWhoTold};

/// Those of whom a note tells are the nodes of its set, all of them nodes of the cluster, and more than half of its nodes.
pub fn a_note_says_who_told()
    ensures { (nodes set : ℕ) → AreMost nodes set → SaysWhoTold nodes set }
{}
