//! The messages that are live, as it is noted until when they sleep.

ghost use Rattle.std.specs.Prelude.{◌≡◌, ◌≤◌, ◌<◌, ◌+◌, ◌++◌, length, map, Some, None};
ghost use Rattle.std.specs.Vec.{vec_capacity, vec_len};
ghost use Rattle.node_parts.specs.Rising.{AreRising};
ghost use Rattle.node_parts.specs.Sleeping.{dozed, ids_of, is_looked_at, reach_noted};
ghost use Rattle.node_parts.specs.Waking.{AreAwake, all_looked_at, awake_in, looked_at, sooner, soonest_at, soonest_in, until_at};

use crate::awake::Awake;
use crate::listing::Listing;
use crate::message::Message;
use crate::message_shelf::place_of;
use crate::noted::Noted;
use crate::roll::Roll;
use mc_types::{Moment, MsgId};
use shelf::Shelf;

/// Notes until when each message sleeps that is due at a clock, or each, if there is none. If no other one wakes at the clock, it looks at those that are
/// awake alone.
pub(crate) fn doze_due(
    live: &mut Roll,
    awake: &mut Awake,
    shelf: &Shelf<Message>,
    noted: &Noted,
    clock: &Option<Moment>,
)
    requires rising { AreRising (ids_of live.old.items) }
    requires awake { AreAwake awake.old.until live.old.items awake.old.ids.items }
    requires room { length live.old.items ≤ vec_capacity awake.old.ids }
    ensures live { live.new.items ≡ map (dozed shelf.now.entries noted.now.me (reach_noted noted.now) clock.now) live.old.items }
    ensures capacity { live.new.width ≡ live.old.width }
    ensures awake { AreAwake awake.new.until live.new.items awake.new.ids.items }
    ensures room { vec_capacity awake.new.ids ≡ vec_capacity awake.old.ids }
{
    match clock {
        Some(clock) if *clock < awake.until => doze_awake(live, awake, shelf, noted, *clock),
        _ => doze_live(live, awake, shelf, noted, clock),
    }
}

/// Notes until when each message sleeps that is awake, at a clock at which no other one wakes. It looks at no other one.
fn doze_awake(
    live: &mut Roll,
    awake: &mut Awake,
    shelf: &Shelf<Message>,
    noted: &Noted,
    clock: Moment,
)
    requires rising { AreRising (ids_of live.old.items) }
    requires awake { AreAwake awake.old.until live.old.items awake.old.ids.items }
    requires clock { clock < awake.old.until }
    ensures live { live.new.items ≡ map (dozed shelf.now.entries noted.now.me (reach_noted noted.now) (Some clock)) live.old.items }
    ensures capacity { live.new.width ≡ live.old.width }
    ensures awake { AreAwake awake.new.until live.new.items awake.new.ids.items }
    ensures room { vec_capacity awake.new.ids ≡ vec_capacity awake.old.ids }
{
    doze_all(live, &awake.ids, shelf, noted, clock);
    awake.until = soonest_at(live, &awake.ids, awake.until);
    awake.ids.retain(|id| live.until_at(*id).is_none());
}

/// Notes until when each message sleeps that is due at a clock, or each, if there is none.
fn doze_live(
    live: &mut Roll,
    awake: &mut Awake,
    shelf: &Shelf<Message>,
    noted: &Noted,
    clock: &Option<Moment>,
)
    requires rising { AreRising (ids_of live.old.items) }
    requires room { length live.old.items ≤ vec_capacity awake.old.ids }
    ensures live { live.new.items ≡ map (dozed shelf.now.entries noted.now.me (reach_noted noted.now) clock.now) live.old.items }
    ensures capacity { live.new.width ≡ live.old.width }
    ensures awake { AreAwake awake.new.until live.new.items awake.new.ids.items }
    ensures room { vec_capacity awake.new.ids ≡ vec_capacity awake.old.ids }
{
    live.doze_each(shelf, noted, clock);
    awake.until = live.soonest();
    live.gather(&mut awake.ids);
}

/// Notes until when each of these messages sleeps that is due at a clock.
fn doze_all(live: &mut Roll, ids: &[MsgId], shelf: &Shelf<Message>, noted: &Noted, clock: Moment)
    requires { AreRising (ids_of live.old.items) }
    ensures live { live.new.items
        ≡ all_looked_at (dozed shelf.now.entries noted.now.me (reach_noted noted.now) (Some clock)) ids.now live.old.items }
    ensures capacity { live.new.width ≡ live.old.width }
{
    for id in ids {
        live.doze_one(*id, shelf, noted, clock);
    }
}

/// Notes until when a message sleeps, if it is listed and due at a clock.
pub(crate) fn doze_one(
    live: &mut Vec<Listing>,
    id: MsgId,
    shelf: &Shelf<Message>,
    noted: &Noted,
    clock: Moment,
)
    requires { AreRising (ids_of live.old.items) }
    ensures live { live.new.items
        ≡ looked_at (dozed shelf.now.entries noted.now.me (reach_noted noted.now) (Some clock)) id live.old.items }
    ensures capacity { vec_capacity live.new ≡ vec_capacity live.old }
{
    if let Ok(place) = place_of(live, id.number()) {
        doze(&mut live[place], shelf, noted, &Some(clock));
    }
}

/// Notes until when each message sleeps that is due at a clock, or each, if there is none.
pub(crate) fn doze_each(
    live: &mut Vec<Listing>,
    shelf: &Shelf<Message>,
    noted: &Noted,
    clock: &Option<Moment>,
)
    ensures live { live.new.items ≡ map (dozed shelf.now.entries noted.now.me (reach_noted noted.now) clock.now) live.old.items }
    ensures capacity { vec_capacity live.new ≡ vec_capacity live.old }
{
    for listing in live.iter_mut() {
        doze(listing, shelf, noted, clock);
    }
}

/// Notes until when a message sleeps, if it is due at a clock, or if there is none.
fn doze(listing: &mut Listing, shelf: &Shelf<Message>, noted: &Noted, clock: &Option<Moment>)
    ensures { listing.new ≡ dozed shelf.now.entries noted.now.me (reach_noted noted.now) clock.now listing.old }
{
    if is_looked_at(clock, listing) {
        listing.until = match shelf.get(listing.id.number()) {
            Some(message) => message.until(listing.id, &noted.me, &noted.up, noted.tries),
            None => None,
        };
    }
}

/// Whether a message is due at a clock, or if there is none.
fn is_looked_at(clock: &Option<Moment>, listing: &Listing) -> bool
    ensures { result ≡ is_looked_at clock.now listing.now }
{
    match clock {
        Some(clock) => listing.is_due(*clock),
        None => true,
    }
}

/// Until when the message of an id sleeps, on a list that ascends; none if it is awake, or not listed.
pub(crate) fn until_at(live: &[Listing], id: MsgId) -> Option<Moment>
    ensures { AreRising (ids_of live.now) → result ≡ until_at live.now id }
{
    match live.binary_search_by_key(&id, |listing| listing.id) {
        Ok(place) => live[place].until,
        Err(_) => None,
    }
}

/// The soonest moment until which one of these messages sleeps, or this one, if it is before that.
fn soonest_at(live: &Roll, ids: &[MsgId], until: Moment) -> Moment
    requires { AreRising (ids_of live.now.items) }
    ensures { result ≡ soonest_at live.now.items ids.now until }
{
    let mut soonest = until;
    for id in ids {
        soonest = sooner(soonest, live.until_at(*id));
    }
    soonest
}

/// The soonest moment until which one of these messages sleeps, or this one, if it is before that.
pub(crate) fn soonest_in(live: &[Listing], until: Moment) -> Moment
    ensures { result ≡ soonest_in live.now until }
{
    let mut soonest = until;
    for listing in live {
        soonest = sooner(soonest, listing.until);
    }
    soonest
}

/// The sooner of a moment and another, if there is one.
fn sooner(until: Moment, other: Option<Moment>) -> Moment
    ensures { result ≡ sooner until other }
{
    match other {
        Some(other) => until.min(other),
        None => until,
    }
}

/// Adds the ids of those that are awake to these ids; there is room for them.
pub(crate) fn gather(ids: &mut Vec<MsgId>, live: &[Listing])
    requires { vec_len ids.old + length live.now ≤ vec_capacity ids.old }
    ensures ids { ids.new.items ≡ ids.old.items ++ awake_in live.now }
    ensures len { vec_len ids.new ≤ vec_len ids.old + length live.now }
    ensures capacity { vec_capacity ids.new ≡ vec_capacity ids.old }
{
    for listing in live {
        if listing.until.is_none() {
            ids.push_reserved(listing.id);
        }
    }
}
