//! A journal that was closed.

ghost use Rattle.std.specs.Prelude.{◌≡◌, length, map, option_map};
ghost use Rattle.std.specs.Option.{option_copied};
ghost use Rattle.journal_parts.specs.Closing.{AllFound, IsClosed, entries_in, entry_at};
ghost use Rattle.journal_parts.specs.Entries.{entry_of};
ghost use Rattle.journal_parts.specs.Members.{posted};

use crate::begins::Begins;
use crate::carried::Carried;
use crate::entry::Entry;
use crate::noted::Noted;
use crate::post::Post;
use crate::register::Register;
use stable_store::StableStore;
use std::marker::Model;

/// A part of the journal of a cluster that was closed, and its nodes as they are then. Contracts see the entries with the numbers of their packets, the packets
/// of earlier parts that may still come, how many packets have numbers, and the nodes, node 1 first.
#[derive(Drop)]
pub struct Journal<S: StableStore> {
    pub(crate) noted: Vec<Noted>,
    pub(crate) carried: Vec<Carried>,
    sent: u64,
    pub(crate) posts: Vec<Post<S>>,
}

impl<S: StableStore> Model for Journal<S> {
    ghost use Rattle.std.specs.Prelude.{map};
    ghost use Rattle.journal_parts.specs.Closing.{Closed};
    ghost use Rattle.journal_parts.specs.Members.{posted};
    ghost use Rattle.journal_parts.specs.Registers.{AreInOrder};

    ghost Value = { Closed S };

    ghost view = { λ j. record {
      noted = j.noted.items;
      carried = j.carried.items;
      sent = j.sent;
      posts = map posted j.posts.items;
    } };

    ghost invariant = { λ j. AreInOrder j.noted.items j.carried.items j.sent };
}

impl<S: StableStore> Journal<S> {
    /// How many entries it has.
    pub fn len(&self) -> usize
        ensures { result ≡ length (entries_in self.now) }
    {
        self.noted.len()
    }

    /// The entry with this number, from 1, if there is one.
    pub fn entry(&self, number: usize) -> Option<&Entry>
        ensures { option_map entry_of (option_copied result) ≡ entry_at (entries_in self.now) number }
    {
        let noted = self.noted.get(number.checked_sub(1)?)?;
        Some(&noted.entry)
    }

    /// How many packets have numbers.
    pub fn packets(&self) -> u64
        ensures { result ≡ self.now.sent }
    {
        self.sent
    }
}

impl<L: Begins> Register<L> {
    /// What is left of the journal, and of the nodes, each of which has its own entries in it. It takes no memory.
    pub fn close<S: StableStore>(self, posts: Vec<Post<S>>) -> Journal<S>
        requires count { length posts.items ≡ L.cluster.nodes }
        requires found { AllFound S.stored L.cluster L.kept self.entries 0 (map posted posts.items) }
        ensures closed { IsClosed S.stored L.cluster L.kept L.numbers result }
        ensures entries { entries_in result ≡ self.entries }
        ensures posts { result.posts ≡ map posted posts.items }
    {
        Journal {
            noted: self.noted,
            carried: self.carried,
            sent: self.sent,
            posts,
        }
    }
}
