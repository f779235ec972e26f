//! How far a part of the journal is.

use config::Own;
use std::sync::atomic::{AtomicBool, AtomicU64, Ordering};

/// After how many entries no delivery is begun any more, if the configuration does not say it.
const MANY_ENTRIES: u64 = 150_000;

/// How many entries come behind these before the deliveries that still wait are given up.
const FEW_ENTRIES: u64 = 40_000;

/// How far a part of the journal is. Behind so many entries it holds: no delivery is begun any more, and once none is under way it rests, and is closed. Behind
/// more it rests at once. A journal that ends the server once it is full never does either.
#[derive(Drop)]
pub struct Pace {
    /// None: the server ends once the journal is full.
    many: Option<u64>,
    entries: AtomicU64,
    rests: AtomicBool,
    /// Since when the threads rest, in milliseconds since 1970.
    since: AtomicU64,
    cut: AtomicU64,
}

impl Pace {
    /// A part with no entry.
    pub fn of(own: Own) -> Pace {
        let many = match own.part_entries {
            0 => MANY_ENTRIES,
            entries => u64::from(entries),
        };
        Pace {
            many: (!own.ends_full).then_some(many),
            entries: AtomicU64::new(0),
            rests: AtomicBool::new(false),
            since: AtomicU64::new(0),
            cut: AtomicU64::new(0),
        }
    }

    /// The entry with this number was made; whether no delivery is to be begun from now on, as before it some were.
    pub fn note(&self, number: u64) -> bool {
        let before = self.entries.fetch_max(number, Ordering::SeqCst);
        self.many
            .is_some_and(|many| before < many && number >= many)
    }

    /// How many entries the part has.
    pub fn entries(&self) -> u64 {
        self.entries.load(Ordering::SeqCst)
    }

    /// Whether no delivery is to be begun.
    pub fn holds(&self) -> bool {
        self.is_behind(0)
    }

    /// Whether the deliveries that still wait are to be given up.
    pub fn presses(&self) -> bool {
        self.is_behind(FEW_ENTRIES)
    }

    fn is_behind(&self, more: u64) -> bool {
        self.many.is_some_and(|many| self.entries.load(Ordering::SeqCst)
            >= many.saturating_add(more))
    }

    /// Whether the journal goes on with another part once this one is full.
    pub fn goes_on(&self) -> bool {
        self.many.is_some()
    }

    /// Whether the threads of the nodes rest.
    pub fn rests(&self) -> bool {
        self.rests.load(Ordering::SeqCst)
    }

    /// The threads of the nodes are to rest.
    pub fn rest(&self) {
        self.rests.store(true, Ordering::SeqCst);
    }

    /// It was seen at this moment that they are, in milliseconds since 1970.
    pub fn stand_since(&self, moment: u64) {
        self.since.store(moment, Ordering::SeqCst);
    }

    /// Since when they rest, in milliseconds since 1970.
    pub fn stands_since(&self) -> u64 {
        self.since.load(Ordering::SeqCst)
    }

    /// So many deliveries were given up since threads were to rest.
    pub fn count_cut(&self, deliveries: u64) {
        let _ = self.cut.fetch_add(deliveries, Ordering::SeqCst);
    }

    /// Another part begins: how many deliveries the last one gave up.
    pub fn go_on(&self) -> u64 {
        self.entries.store(0, Ordering::SeqCst);
        self.rests.store(false, Ordering::SeqCst);
        self.cut.swap(0, Ordering::SeqCst)
    }
}
