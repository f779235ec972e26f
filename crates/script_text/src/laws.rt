//! Laws of the texts of scripts: nothing to call, but to cite.

ghost use Rattle.script_text.specs.Laws.{
  FirstScriptIsCalm,
  GoodLinesJoin,
  JoinedLinesArePrinted,
  SecondScriptIsCalm,
};
ghost use Rattle.script_text.specs.ThreeNodes.{ThreeNodesPrint};

/// A script is its lines, joined: lines that join print what they are computed to print, and none of them is bad; and lines of which none
/// is bad join.
pub fn lines_join()
    ensures printed { JoinedLinesArePrinted }
    ensures joined { GoodLinesJoin }
{}

/// The definitions compute: a message that is taken at one node of three is told by another; a node that is down refuses.
pub fn three_nodes_print()
    ensures { ThreeNodesPrint }
{}

/// There are calm scripts: one in which an ESME binds, submits a message and queries it is calm, and its one-node text is the three
/// responses.
pub fn first_script_is_calm()
    ensures { FirstScriptIsCalm }
{}

/// One in which an attempt is granted is calm too: an ESME binds, submits a message to itself, answers its deliver_sm, and gets its receipt. Its
/// one-node text is the two responses and the two deliver_sm.
pub fn second_script_is_calm()
    ensures { SecondScriptIsCalm }
{}
