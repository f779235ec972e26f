//! What follows of which node begins the attempts of a message.

ghost use Rattle.waiting_messages.specs.Spreads.{OneBegins};

/// No two nodes begin the attempts of one message.
pub fn one_node_begins()
    ensures { OneBegins }
{}
