//! A law of what is decided here: nothing to call, but to cite.

ghost use Rattle.desk.specs.Laws.{UnroutedAreRefused};

/// A submit_sm without a route is refused as one without a destination, whatever else is wrong with it.
pub fn unrouted_are_refused()
    ensures { UnroutedAreRefused }
{}
