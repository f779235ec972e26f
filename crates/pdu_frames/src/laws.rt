//! Laws of frames, each the contract of a function that does nothing.

ghost use Rattle.pdu_frames.specs.Laws.{StreamHasFrames, StreamsAreCut, FramesAreOne, FirstFramesAreGiven, AllFramesAreGiven};

/// Each stream has a list of frames, and a rest after them.
pub fn stream_has_frames()
    ensures { StreamHasFrames }
{}

/// They are those that cutting gives.
pub fn streams_are_cut()
    ensures { StreamsAreCut }
{}

/// It has no other frames, and no other rest.
pub fn frames_are_one()
    ensures { FramesAreOne }
{}

/// In whatever pieces a stream comes, and whenever frames are taken, they are the first frames of the stream.
pub fn first_frames_are_given()
    ensures { FirstFramesAreGiven }
{}

/// Once there is no more to take, the frames that were taken are all frames of what came.
pub fn all_frames_are_given()
    ensures { AllFramesAreGiven }
{}
