//! Laws of calm scripts: nothing to call, but to cite.

ghost use Rattle.script_text.specs.Laws.{CalmTextIsOfOneNode};

/// No line of a calm script is bad, and its text is the one-node text.
pub fn calm_text_is_of_one_node()
    ensures { CalmTextIsOfOneNode }
{}
