//! What the clocks say.

use connection_parts::moment_at;
use mc_types::Moment;
use std::rt::Clock;
use std::time::{Duration, Instant, SystemTime, UNIX_EPOCH};

/// What the clock says; the least moment if it can't be read.
pub fn now<R: Clock>(rt: &R) -> Moment {
    let Ok(time) = SystemTime::now(rt) else {
        return Moment::least();
    };
    match time.duration_since(UNIX_EPOCH) {
        Ok(since) => moment_at(since.as_secs()),
        Err(_) => Moment::least(),
    }
}

/// What the clock says, in milliseconds since 1970; 0 if it can't be read.
pub fn milliseconds<R: Clock>(rt: &R) -> u64 {
    let Ok(time) = SystemTime::now(rt) else {
        return 0;
    };
    match time.duration_since(UNIX_EPOCH) {
        Ok(since) => whole_milliseconds(&since),
        Err(_) => 0,
    }
}

/// How long ago this was, by the clock that rises alone, in milliseconds; 0 if it can't be read.
pub fn milliseconds_since<R: Clock>(rt: &R, begun: &Option<Instant>) -> u64 {
    gone_since(rt, begun).unwrap_or(0)
}

/// How long ago this was, by the clock that rises alone, in milliseconds; none if it can't be read.
fn gone_since<R: Clock>(rt: &R, begun: &Option<Instant>) -> Option<u64> {
    let Some(begun) = begun else {
        return None;
    };
    match begun.elapsed(rt) {
        Ok(gone) => Some(whole_milliseconds(&gone)),
        Err(_) => None,
    }
}

/// How many whole milliseconds this lasts; the most that there are, if it is longer.
fn whole_milliseconds(time: &Duration) -> u64 {
    time.as_secs()
        .saturating_mul(1_000)
        .saturating_add(u64::from(time.subsec_millis()))
}

/// A moment of the clock that rises alone; none if that could not be read.
#[derive(Clone, Copy)]
pub struct Mark {
    at: Option<Instant>,
}

impl Mark {
    /// Now.
    pub fn now<R: Clock>(rt: &R) -> Mark {
        Mark {
            at: Instant::now(rt).ok(),
        }
    }

    /// How long ago it was, in milliseconds; 0 if the clock could not be read.
    pub fn gone<R: Clock>(&self, rt: &R) -> u64 {
        gone_since(rt, &self.at).unwrap_or(0)
    }

    /// How many of so many milliseconds are left since then; 0 if the clock could not be read.
    pub fn left<R: Clock>(&self, rt: &R, most: u64) -> u64 {
        match gone_since(rt, &self.at) {
            Some(gone) => most.saturating_sub(gone),
            None => 0,
        }
    }

    /// Whether it was so many milliseconds ago or more, or the clock could not be read.
    pub fn is_past<R: Clock>(&self, rt: &R, most: u64) -> bool {
        match gone_since(rt, &self.at) {
            Some(gone) => gone >= most,
            None => true,
        }
    }
}
