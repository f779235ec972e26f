//! What holds of sessions, whatever comes.

ghost use Rattle.sessions.specs.Laws.{NoPduTakesAPlace, NothingLeavesGone, NoFaultIsToldOfGone, NothingBeginsInGone};
ghost use Rattle.sessions.specs.Laws.{RefusalChangesNothing, ReplyToAnotherChangesNothing, RisingTicketsAreApart, TicketsRiseByWaiting};
ghost use Rattle.sessions.specs.Laws.{TicketsRiseOverReplies};

/// No PDU takes a place in the window of the ESME's requests, whatever it is answered: only the node gives places.
pub fn no_pdu_takes_a_place()
    ensures { NoPduTakesAPlace }
{}

/// A request that is refused, a bind too, changes nothing.
pub fn refusal_changes_nothing()
    ensures { RefusalChangesNothing }
{}

/// A session that is gone answers nothing, and stays as it is.
pub fn nothing_leaves_gone()
    ensures pdus { NothingLeavesGone }
    ensures faults { NoFaultIsToldOfGone }
    ensures begins { NothingBeginsInGone }
{}

/// A reply under a ticket that the session does not hold changes nothing. So a reply to a session that is gone never reaches
/// another, whatever sequence_numbers it has open.
pub fn reply_to_another_changes_nothing()
    ensures { ReplyToAnotherChangesNothing }
{}

/// The open requests of a session have different tickets, if the node's tickets rise.
pub fn tickets_are_apart()
    ensures waiting { TicketsRiseByWaiting }
    ensures replies { TicketsRiseOverReplies }
    ensures apart { RisingTicketsAreApart }
{}
