//! The messages that a node keeps, and which of them are live.

ghost use Rattle.std.specs.Prelude.{◌≡◌, ◌≤◌, ◌<◌, ◌+◌, ◌-◌, ◌⊎◌, ◌↔◌, ℕ, [], length, map, max, filter, find, option_map, IfOk, IfSome, IsSome, None, OnErr, Some};
ghost use Rattle.std.specs.BTreeSet.{insert_key};
ghost use Rattle.std.specs.Box.{box_value};
ghost use Rattle.std.specs.List.{slice_get};
ghost use Rattle.std.specs.List.Sorted.{IsStrictlySortedBy};
ghost use Rattle.std.specs.Map.{keys_of};
ghost use Rattle.std.specs.Option.{option_copied};
ghost use Rattle.std.specs.Ordering.{nat_cmp};
ghost use Rattle.std.specs.Vec.{vec_capacity};
ghost use Rattle.mc_model.specs.synod.Lists.{In};
ghost use Rattle.waiting_requests.specs.Numbers.{IsLeastFrom};
ghost use Rattle.shelf.specs.Shelved.{Serves, value_at, with_value};
ghost use Rattle.node_parts.specs.Counting.{IsCountable, recounted_at};
ghost use Rattle.node_parts.specs.Recording.{IsRecordable, recorded_at};
ghost use Rattle.node_parts.specs.declared.listing.Listing.{Listing as ListingValue};
ghost use Rattle.node_parts.specs.declared.message.Message.{Message as Filed};
ghost use Rattle.node_parts.specs.Living.{IsNextBy, IsNextLive, IsPassedBy, IsPassedIn, dropped, dropped_at, is_kept_listed, is_live, is_live_in};
ghost use Rattle.node_parts.specs.Rising.{AreRising, IsPlaceOf};
ghost use Rattle.node_parts.specs.Living.{is_kept_in, lower_of};
ghost use Rattle.node_parts.specs.Reaching.{are_all, named_in, reach_of};
ghost use Rattle.node_parts.specs.Sleeping.{IsAsleep, IsDueIn, IsNoted, ids_of, is_due};
ghost use Rattle.node_parts.specs.Renewal.{renewed};
ghost use Rattle.node_parts.specs.Messages.{rested_entry};

use crate::awake::{self, Awake, next_from};
use crate::list_room::{ListRoom, widen};
use crate::listing::Listing;
use crate::may_begin::MayBegin;
use crate::message::Message;
use crate::message_room::MessageRoom;
use crate::noted::{Noted, is_noted};
use crate::reach::Reach;
use crate::renewal::Renewal;
use crate::roll::Roll;
use crate::sleepers::doze_due;
use fate_chain::Author;
use mc_types::{Moment, MsgId};
use shelf::Shelf;
use std::alloc::{AllocError, Global};
use std::marker::Model;
use synod_acceptor::{Change, RecordRoom};
use synod_learner::Recount;
use tick_rules::Standpoint;

/// The messages that a node keeps, by their ids, with a list of those that are live: a message that is not on the list has a final state,
/// with its receipt told if one was asked for, the node's own votes do not go beyond that, and no round of it runs. So no rule of a tick
/// fits it while no request waits that asks of it. A message is listed when it is put here, and is on the list until a tick finds it
/// decided. A message is put here without taking memory, if there is room.
///
/// Of those that are listed it is noted until when they sleep, for a node and the accounts that were up at its last tick; one that was put since is awake.
/// Those that are awake have a list of their own, and it is noted before when no other one wakes: until then a tick looks at those that are awake alone.
#[derive(Drop)]
pub struct MessageShelf {
    shelf: Shelf<Message>,
    // Those that are live, in ascending order of their ids, with room for all that are kept.
    live: Roll,
    // Those of them that are awake.
    awake: Awake,
    // For whom it is noted until when they sleep; none of them sleeps if it is noted for nobody.
    noted: Option<Noted>,
}

impl Model for MessageShelf {
    ghost use Rattle.std.specs.Prelude.{◌-◌, length, min};
    ghost use Rattle.std.specs.Vec.{vec_capacity};
    ghost use Rattle.node_parts.specs.Living.{AreListed, Listed};
    ghost use Rattle.node_parts.specs.Sleeping.{AreNoted, ids_of};
    ghost use Rattle.node_parts.specs.Waking.{AreAwake};

    ghost Value = { Listed };

    ghost view = { λ s. record {
      entries = s.shelf.entries;
      room = s.shelf.room;
      listings = min (s.live.width) (vec_capacity s.awake.ids) - length s.shelf.entries;
      noted = s.noted;
    } };

    ghost invariant = { λ s.
        AreListed s.shelf.entries (ids_of s.live.items) (min (s.live.width) (vec_capacity s.awake.ids))
        × (AreNoted s.noted s.shelf.entries s.live.items × AreAwake s.awake.until s.live.items s.awake.ids.items) };
}

impl MessageShelf {
    /// No message, and no room. It takes no memory.
    pub fn empty(alloc: Global) -> MessageShelf
        ensures { result.entries ≡ [] }
    {
        MessageShelf {
            shelf: Shelf::empty(alloc),
            live: Roll::empty(alloc),
            awake: Awake {
                ids: Vec::new(alloc),
                until: Moment::least(),
            },
            noted: None,
        }
    }

    /// What is kept of a message; none if it was never heard of. It takes no memory.
    pub fn get(&self, id: MsgId) -> Option<&Message>
        ensures { option_copied result ≡ value_at self.now.entries id }
    {
        self.shelf.get(id.number())
    }

    /// What a proof takes of the ids: they ascend. The call does nothing.
    pub fn ascends(&self)
        ensures { IsStrictlySortedBy nat_cmp (keys_of self.now.entries) }
    {
        self.shelf.ascends();
    }

    /// The id of the next message that is live, from this number on; none if there is none. It takes no memory.
    pub fn next_live(&self, from: u64) -> Option<MsgId>
        ensures { IsNextLive self.now.entries from result }
    {
        self.live.least_from(from)
    }

    /// The clock of a tick at this standpoint, if it is noted for its author and these accounts until when messages sleep, and for attempts that may begin
    /// of all messages, or of none but those that are named. It takes no memory.
    pub fn asleep_at(&self, at: &Standpoint, reach: &Reach) -> Option<Moment>
        ensures passed { (id : ℕ) (m : Filed) → IsPassedIn self.now result reach.now.may id m → IsAsleep at.now (reach_of reach.now) id m }
        ensures noted { IsSome result ↔ IsNoted self.now.noted at.now.author reach.now.up.items (are_all reach.now.may) }
        ensures clock { IfSome result (λ clock. clock ≡ at.now.clock) }
    {
        if is_noted(&self.noted, &at.author, &reach.up, reach.may.are_all()) {
            Some(at.clock)
        } else {
            None
        }
    }

    /// The id of the next message, from this number on, that is live and not noted to be asleep at a clock, if there is one, or of which an attempt may
    /// begin, unless of all; none if there is none. It takes no memory.
    pub fn next_due(&self, from: u64, asleep: &Option<Moment>, may: &MayBegin) -> Option<MsgId>
        ensures { IsNextBy (IsPassedIn self.now asleep.now may.now) self.now.entries from result }
    {
        lower_of(
            self.next_awake(from, asleep),
            self.first_kept(may.named(from)),
        )
    }

    /// The id of the next message that is live, from this number on, and is not noted to be asleep at a clock, if there is one; none if there is none.
    fn next_awake(&self, from: u64, asleep: &Option<Moment>) -> Option<MsgId>
        ensures { IsNextBy (IsPassedBy self.now asleep.now) self.now.entries from result }
    {
        match asleep {
            Some(clock) if *clock < self.awake.until => next_from(&self.awake.ids, from),
            Some(clock) => self.live.due_from(from, *clock),
            None => self.live.least_from(from),
        }
    }

    /// The first of these ids of which a message is kept; none if there is none.
    fn first_kept(&self, ids: &[MsgId]) -> Option<MsgId>
        ensures { result ≡ find (is_kept_in self.now.entries) ids.now }
    {
        for id in ids {
            if self.keeps(*id) {
                return Some(*id);
            }
        }
        None
    }

    /// Whether a message of this id is kept.
    fn keeps(&self, id: MsgId) -> bool
        ensures { result ≡ is_kept_in self.now.entries id }
    {
        match self.get(id) {
            Some(_) => true,
            None => false,
        }
    }

    /// Room for so many more messages, to be handed to `make_room`. It takes memory only if there is no room for them. It changes nothing.
    #[inline(never)]
    pub fn room(&self, alloc: Global, more: usize) -> Result<MessageRoom, AllocError>
        ensures shelf { IfOk result (λ room. (more ≤ self.now.room) ⊎ (length self.now.entries + more ≤ room.shelf)) }
        ensures live { IfOk result (λ room. (more ≤ self.now.listings) ⊎ (length self.now.entries + more ≤ vec_capacity room.live)) }
        ensures memory { OnErr result (0 < more) }
    {
        let shelf = self.shelf.room(alloc, more)?;
        let have = self.live.width().min(self.awake.ids.capacity());
        let live = ListRoom::of(alloc, have, self.shelf.len(), more)?;
        Ok(MessageRoom { shelf, live })
    }

    /// Moves the messages and their lists into this room, as far as it is larger than what they have. It takes no memory.
    #[inline(never)]
    pub fn make_room(&mut self, room: MessageRoom)
        ensures entries { self.new.entries ≡ self.old.entries }
        ensures room { max self.old.room (room.shelf - length self.old.entries) ≤ self.new.room }
        ensures listings { max self.old.listings (vec_capacity room.live - length self.old.entries) ≤ self.new.listings }
    {
        let MessageRoom { shelf, live } = room;
        let (live, awake) = live.split();
        self.shelf.make_room(shelf);
        self.live.widen(live);
        widen(&mut self.awake.ids, awake);
    }

    /// Puts a message in the place of what was kept of its id, and lists it. There is room. It takes no memory.
    #[inline(never)]
    pub fn put(&mut self, id: MsgId, message: Box<Message>)
        requires room { 0 < self.old.room }
        requires listings { 0 < self.old.listings }
        ensures entries { self.new.entries ≡ with_value self.old.entries id (box_value message) }
        ensures room { self.old.room ≤ self.new.room + 1 }
        ensures listings { self.old.listings ≤ self.new.listings + 1 }
    {
        self.shelf.put(id.number(), message);
        self.shelf.ascends();
        self.live.enlist(id);
        awake::put(&mut self.awake.ids, id);
    }

    /// Counts a vote anew on the message of this id, which is kept. It takes no memory.
    pub fn count_anew(&mut self, id: MsgId, recount: Recount)
        requires { IsCountable self.old.entries id recount }
        ensures entries { self.new.entries ≡ recounted_at self.old.entries id recount }
        ensures room { self.new.room ≡ self.old.room }
        ensures listings { self.new.listings ≡ self.old.listings }
    {
        self.shelf.ascends();
        count_on(&mut self.shelf, id, recount);
    }

    /// Makes a change in what is kept of the message of this id, which is kept, and lists it: it may vote beyond what is decided. There is room for the
    /// record. It takes no memory.
    pub fn apply(&mut self, id: MsgId, change: Change, room: RecordRoom)
        requires { IsRecordable self.old.entries id change room }
        ensures entries { self.new.entries ≡ recorded_at self.old.entries id change }
        ensures room { self.new.room ≡ self.old.room }
        ensures listings { self.new.listings ≡ self.old.listings }
    {
        self.shelf.ascends();
        apply_on(&mut self.shelf, id, change, room);
        self.live.enlist(id);
        awake::put(&mut self.awake.ids, id);
    }

    /// Ends the round of each message, and takes those that are awake and decided off the list. No round runs of a message that is asleep or not
    /// listed, so it looks at none. It takes no memory.
    #[inline(never)]
    pub fn rest(&mut self)
        ensures entries { self.new.entries ≡ map rested_entry self.old.entries }
        ensures room { self.new.room ≡ self.old.room }
        ensures listings { self.new.listings ≡ self.old.listings }
    {
        self.shelf.ascends();
        drop_rounds(&mut self.shelf, &self.awake.ids);
        unlist(&mut self.live, &mut self.awake.ids, &self.shelf);
    }

    /// Notes for the author and these accounts until when each message sleeps that is due at the clock, or each, if it was not noted for them. If an
    /// attempt may not begin of all, they sleep until something else is due. If none that sleeps is due, it looks at those that are awake alone. It takes
    /// no memory.
    #[inline(never)]
    pub fn doze(&mut self, at: &Standpoint, reach: Reach)
        ensures entries { self.new.entries ≡ self.old.entries }
        ensures room { self.new.room ≡ self.old.room }
        ensures listings { self.new.listings ≡ self.old.listings }
        ensures noted { IsNoted self.new.noted at.now.author reach.up.items (are_all reach.may) }
    {
        self.shelf.ascends();
        let asleep = self.asleep_at(at, &reach);
        let Reach { up, may } = reach;
        let noted = Noted {
            me: at.author,
            up,
            tries: may.are_all(),
        };
        doze_due(
            &mut self.live,
            &mut self.awake,
            &self.shelf,
            &noted,
            &asleep,
        );
        self.noted = Some(noted);
    }

    /// Keeps each message for this node in this incarnation. It takes no memory.
    #[inline(never)]
    pub fn renew(&mut self, me: Author)
        ensures { self.new.entries ≡ map (λ entry. (entry.0, renewed me entry.1)) self.old.entries }
    {
        self.shelf.for_each(&Renewal { me });
    }
}

/// Counts a vote anew on the message of this id, which is kept.
fn count_on(shelf: &mut Shelf<Message>, id: MsgId, recount: Recount)
    requires { IsCountable shelf.old.entries id recount }
    ensures entries { shelf.new.entries ≡ recounted_at shelf.old.entries id recount }
    ensures room { shelf.new.room ≡ shelf.old.room }
{
    if let Some(message) = shelf.get_mut(id.number()) {
        message.count_anew(recount);
    }
}

/// Makes a change in what is kept of the message of this id, which is kept; there is room for the record.
fn apply_on(shelf: &mut Shelf<Message>, id: MsgId, change: Change, room: RecordRoom)
    requires { IsRecordable shelf.old.entries id change room }
    ensures entries { shelf.new.entries ≡ recorded_at shelf.old.entries id change }
    ensures room { shelf.new.room ≡ shelf.old.room }
{
    if let Some(message) = shelf.get_mut(id.number()) {
        message.apply(change, room);
    }
}

/// Ends the rounds of the messages of these ids.
fn drop_rounds(shelf: &mut Shelf<Message>, ids: &[MsgId])
    ensures entries { shelf.new.entries ≡ dropped ids.now shelf.old.entries }
    ensures room { shelf.new.room ≡ shelf.old.room }
{
    for id in ids {
        drop_round(shelf, *id);
    }
}

/// Ends the round of the message of this id, if it is kept.
fn drop_round(shelf: &mut Shelf<Message>, id: MsgId)
    ensures entries { shelf.new.entries ≡ dropped_at shelf.old.entries id }
    ensures room { shelf.new.room ≡ shelf.old.room }
{
    if let Some(message) = shelf.get_mut(id.number()) {
        message.drop_round();
    }
}

/// Where an id stands among those that are listed, which ascend, or where it would go.
pub(crate) fn place_of(live: &[Listing], id: u64) -> Result<usize, usize>
    requires { AreRising (ids_of live.now) }
    ensures { IsPlaceOf (ids_of live.now) id result }
{
    live.binary_search_by_key(&id, |listing| listing.id.number())
}

/// The least of the ids that are listed, which ascend, from a number on; none if there is none.
pub(crate) fn least_from(live: &[Listing], from: u64) -> Option<MsgId>
    requires { AreRising (ids_of live.now) }
    ensures { IsLeastFrom from (λ id. In id (ids_of live.now)) result }
{
    match place_of(live, from) {
        Ok(place) => at(live, place),
        Err(place) => at(live, place),
    }
}

/// The id at a place; none after the last.
fn at(live: &[Listing], place: usize) -> Option<MsgId>
    ensures { result ≡ slice_get (ids_of live.now) place }
{
    let listing = live.get(place)?;
    Some(listing.id)
}

/// The least of the ids of those that are due at a clock, from a number on; none if there is none.
pub(crate) fn due_from(live: &[Listing], from: u64, clock: Moment) -> Option<MsgId>
    requires { AreRising (ids_of live.now) }
    ensures { IsLeastFrom from (IsDueIn clock live.now) result }
{
    match place_of(live, from) {
        Ok(place) => first_due(&live[place..], clock),
        Err(place) => first_due(&live[place..], clock),
    }
}

/// The lower of two ids, if there are two. It takes no memory.
pub fn lower_of(one: Option<MsgId>, other: Option<MsgId>) -> Option<MsgId>
    ensures { result ≡ lower_of one other }
{
    match (one, other) {
        (Some(one), Some(other)) if other.number() < one.number() => Some(other),
        (Some(one), _) => Some(one),
        (None, other) => other,
    }
}

/// The id of the first one that is due at a clock.
fn first_due(live: &[Listing], clock: Moment) -> Option<MsgId>
    ensures { result ≡ option_map (λ l. l.id) (find (is_due clock) live.now) }
{
    for listing in live {
        if listing.is_due(clock) {
            return Some(listing.id);
        }
    }
    None
}

/// Lists a message of an id, to be looked at by the next tick; there is room for it.
pub(crate) fn enlist(live: &mut Vec<Listing>, id: MsgId)
    requires rising { AreRising (ids_of live.old.items) }
    requires room { length (insert_key nat_cmp (ids_of live.old.items) id) ≤ vec_capacity live.old }
    ensures ids { ids_of live.new.items ≡ insert_key nat_cmp (ids_of live.old.items) id }
    ensures woken { (l : ListingValue) → In l live.new.items → ((l.id ≡ id) × (l.until ≡ None)) ⊎ (In l live.old.items × (l.id ≡ id → ⊥)) }
    ensures capacity { vec_capacity live.new ≡ vec_capacity live.old }
{
    let listing = Listing { id, until: None };
    match place_of(live, id.number()) {
        Ok(place) => live[place] = listing,
        Err(place) => {
            if live.insert(place, listing).is_err() {
                unreachable!();
            }
        }
    }
}

/// Takes those that are awake and decided off both lists. It goes over the list of those that are live only if there is one.
fn unlist(live: &mut Roll, awake: &mut Vec<MsgId>, shelf: &Shelf<Message>)
    requires { (l : ListingValue) → In l live.old.items → l.until ≡ None → In l.id awake.old.items }
    ensures live { live.new.items ≡ filter (is_kept_listed shelf.now.entries) live.old.items }
    ensures awake { awake.new.items ≡ filter (is_live_in shelf.now.entries) awake.old.items }
    ensures capacity { live.new.width ≡ live.old.width }
    ensures room { vec_capacity awake.new ≡ vec_capacity awake.old }
{
    let were = awake.len();
    awake.retain(|id| is_live(shelf, *id));
    if awake.len() < were {
        live.keep_live(shelf);
    }
}

/// Whether the message of an id is not decided.
pub(crate) fn is_live(shelf: &Shelf<Message>, id: MsgId) -> bool
    ensures { result ≡ is_live id (value_at shelf.now.entries id) }
{
    match shelf.get(id.number()) {
        Some(message) => !message.is_decided(id),
        None => false,
    }
}
