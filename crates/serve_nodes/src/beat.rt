//! When a node ticks.

use serve_sessions::Mark;
use std::rt::Clock;

/// How long behind its last tick a node ticks at once, at the earliest, in milliseconds.
const LEAST_GAP: u64 = 20;

/// How many times as long as its last tick and the rounds that it began took, at the earliest: a tick ends all rounds of its node, and begins one for each message
/// that the node voted on and does not know.
const ROUNDS_IN_GAP: u64 = 2;

/// How long behind each other it is begun to look at all messages that may be granted, in milliseconds: so one is found that waits nowhere, as for want of memory.
const LOOK_GAP: u64 = 60_000;

/// When a node ticks.
#[derive(Clone, Copy)]
pub struct Beat {
    // When it ticked last.
    ticked: Mark,
    // How long behind that it ticks at once, at the earliest, in milliseconds.
    gap: u64,
    // When it was begun to look at all messages that may be granted.
    looked: Mark,
}

impl Beat {
    /// It ticked just now.
    pub fn begin<R: Clock>(rt: &R) -> Beat {
        let now = Mark::now(rt);
        Beat {
            ticked: now,
            gap: LEAST_GAP,
            looked: now,
        }
    }

    /// It ticks now; whether a look at all messages that may be granted is to begin.
    pub fn tick<R: Clock>(&mut self, rt: &R) -> bool {
        self.ticked = Mark::now(rt);
        let begins_look = self.looked.is_past(rt, LOOK_GAP);
        if begins_look {
            self.looked = self.ticked;
        }
        begins_look
    }

    /// The rounds are through that its last tick began: how many milliseconds ago that was.
    pub fn pass<R: Clock>(&mut self, rt: &R) -> u64 {
        let taken = self.ticked.gone(rt);
        self.gap = taken.saturating_mul(ROUNDS_IN_GAP).max(LEAST_GAP);
        taken
    }

    /// How many milliseconds are left before it may tick at once.
    pub fn left<R: Clock>(&self, rt: &R) -> u64 {
        self.gap.saturating_sub(self.ticked.gone(rt))
    }
}
