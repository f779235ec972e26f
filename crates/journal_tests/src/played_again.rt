//! Long journals of steps by lot, handed in by threads at once: they are played again by a world, and read.

use crate::history::history;
use crate::reader::Reader;
use crate::replays::same;
use crate::same::assert_same;
use node_core::Found;
use node_threads::Entry;
use std::alloc::Global;
use std::process::Abort;

/// How many entries name an unfinished save that left this.
fn unfinished(entries: &[Entry], found: Found) -> usize {
    let mut count = 0usize;
    for entry in entries {
        if let Some(save) = entry.unfinished {
            if save.found == found {
                count = count.saturating_add(1);
            }
        }
    }
    count
}

/// A reader finds nothing wrong.
fn assert_nothing_wrong(rt: &impl Abort, alloc: Global, entries: &[Entry]) {
    let mut reader = Reader::new(alloc);
    for entry in entries {
        reader.read(rt, entry);
    }
    assert_same(rt, &reader.wrong.first().copied(), &None);
}

/// Nothing is wrong with at least so many entries, some of which name an unfinished save.
fn stands(rt: &impl Abort, alloc: Global, entries: &[Entry], least: usize) {
    assert!(rt; entries.len() >= least);
    assert!(rt; unfinished(entries, Found::Before) >= 3);
    assert!(rt; unfinished(entries, Found::After) >= 3);
    assert_same(rt, &same(rt, alloc, entries), &entries.len());
    assert_nothing_wrong(rt, alloc, entries);
}

#[test]
fn a_long_journal_stands(rt: HostRuntime) {
    let alloc = rt.alloc();
    let entries = history(&rt, alloc, 1, 12_500);
    stands(&rt, alloc, entries.as_slice(), 100_000);
}

#[test]
fn a_journal_in_five_parts_stands(rt: HostRuntime) {
    let alloc = rt.alloc();
    let entries = history(&rt, alloc, 5, 2_500);
    stands(&rt, alloc, entries.as_slice(), 100_000);
}
