//! The laws of what is kept of a connection: nothing to call, but to cite.

ghost use Rattle.connection_parts.specs.Laws.{OnlyWhatWasSentIsAnswered};
ghost use Rattle.connection_parts.specs.OutboxLaws.{NoFrameOfAnotherSessionIsTaken, WhatWasTakenBackIsNeverTaken};
ghost use Rattle.connection_parts.specs.TimepieceLaws.{TimeIsNearLeftOrAwaited};

/// What `Place::told` gives answers a deliver_sm that went out: after any calls, `Place::send` was true for its job before the answer came.
pub fn only_what_was_sent_is_answered()
    ensures { OnlyWhatWasSentIsAnswered }
{}

/// Once `Outbox::take_back` was called for an attempt, no `Outbox::take` gives its deliver_sm, whatever calls follow, unless one with the same
/// sequence_number is put.
pub fn what_was_taken_back_is_never_taken()
    ensures { WhatWasTakenBackIsNeverTaken }
{}

/// What `Outbox::take` gives is a frame of the session for which the outbox was made, after any calls.
pub fn no_frame_of_another_session_is_taken()
    ensures { NoFrameOfAnotherSessionIsTaken }
{}

/// What a timepiece tells is within five seconds of the system's clock; or that clock has been apart for less than ten minutes, and time goes as the clock says
/// that rises alone; or it is behind, and time goes at half the pace of that.
pub fn time_is_near_left_or_awaited()
    ensures { TimeIsNearLeftOrAwaited }
{}
