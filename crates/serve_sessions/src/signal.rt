//! What wakes a thread that waits.

use crate::clock::Mark;
use std::rt::Clock;
use std::sync::Wait;
use std::thread::Parker;
use std::time::Duration;

/// What wakes the one thread that waits for something to change: who changes it rings. A ring that comes while it does not wait ends its next wait, so none is
/// missed.
#[derive(Drop)]
pub struct Signal {
    parker: Parker,
}

impl Signal {
    /// It is silent.
    pub fn silent() -> Signal {
        Signal {
            parker: Parker::new(),
        }
    }

    /// The thread wakes, if it waits, and else does not wait the next time.
    pub fn ring(&self) {
        self.parker.unpark();
    }

    /// Waits until it rings, so many milliseconds at most. It may end before that, so who waits looks again.
    pub fn wait<R: Wait>(&self, rt: &R, most: u64) {
        self.parker.park_timeout(rt, Duration::from_millis(most));
    }

    /// Waits until this is so, which it looks at whenever it rings, so many milliseconds at most; whether it is so.
    pub fn wait_until<R: Wait + Clock, F: Fn() -> bool>(&self, rt: &R, most: u64, is_so: &F) -> bool
        requires { F.IsAlwaysCallable is_so.now }
    {
        let begun = Mark::now(rt);
        for _ in rt.forever() {
            if is_so() {
                return true;
            }
            let left = begun.left(rt, most);
            if left == 0 {
                break;
            }
            self.wait(rt, left);
        }
        false
    }
}
