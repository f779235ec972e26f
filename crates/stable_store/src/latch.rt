//! What holds a save up until another thread lets it go, for tests.

use crate::holding::Hold;
use std::alloc::Global;
use std::marker::Model;
use std::sync::Arc;
use std::sync::atomic::{AtomicBool, Ordering};
use std::thread;

/// How often a save that is held up looks whether it may go on, at most.
const MOST_LOOKS: u32 = 1_000_000;

/// What threads share of a save that is held up: whether it came, and whether it may go on.
#[derive(Drop)]
pub struct Latch {
    is_reached: AtomicBool,
    is_open: AtomicBool,
}

impl Latch {
    /// No save came, and none may go on.
    pub fn new() -> Latch {
        Latch {
            is_reached: AtomicBool::new(false),
            is_open: AtomicBool::new(false),
        }
    }

    /// Whether a save came that is held up, or was.
    pub fn is_reached(&self) -> bool {
        self.is_reached.load(Ordering::SeqCst)
    }

    /// Lets the save go on that is held up, and each that comes later.
    pub fn open(&self) {
        self.is_open.store(true, Ordering::SeqCst);
    }
}

/// Holds a save up until its latch is open, but no longer than 1,000,000 looks, between which other threads run: a second or so. So a
/// `HoldingStore` over it needs no handle to wait. Contracts see it as how often it was asked.
#[derive(Drop)]
pub struct LatchHold {
    latch: Arc<Latch, Global>,
    asked: u64,
}

impl Model for LatchHold {
    ghost use Rattle.std.specs.Prelude.{ℕ};

    ghost Value = { ℕ };

    ghost view = { λ hold. hold.asked };
}

impl LatchHold {
    ghost use Rattle.std.specs.Prelude.{◌≡◌};

    /// It holds up saves at this latch, and was not asked to yet.
    pub fn make(latch: Arc<Latch, Global>) -> LatchHold
        ensures { result ≡ 0 }
    {
        LatchHold { latch, asked: 0 }
    }
}

impl Hold for LatchHold {
    ghost held = { λ hold. hold };

    fn hold(&mut self) {
        self.asked = self.asked.saturating_add(1);
        self.latch.is_reached.store(true, Ordering::SeqCst);
        for _ in 0..MOST_LOOKS {
            if self.latch.is_open.load(Ordering::SeqCst) {
                return;
            }
            thread::yield_now();
        }
    }
}
