//! Those of the messages that are live which are awake.

ghost use Rattle.std.specs.Prelude.{◌≡◌, ◌≤◌, length};
ghost use Rattle.std.specs.BTreeSet.{insert_key};
ghost use Rattle.std.specs.List.{slice_get};
ghost use Rattle.std.specs.Ordering.{nat_cmp};
ghost use Rattle.std.specs.Vec.{vec_capacity};
ghost use Rattle.mc_model.specs.synod.Lists.{In};
ghost use Rattle.waiting_requests.specs.Numbers.{IsLeastFrom};
ghost use Rattle.node_parts.specs.Rising.{AreRising, IsPlaceOf};

use mc_types::{Moment, MsgId};

/// The ids of the messages that are awake, in ascending order, with room for all that are live; and a moment before which no other one wakes.
#[derive(Drop)]
pub(crate) struct Awake {
    pub ids: Vec<MsgId>,
    pub until: Moment,
}

/// Where an id stands among ids that ascend, or where it would go.
pub(crate) fn place_of(ids: &[MsgId], id: u64) -> Result<usize, usize>
    requires { AreRising ids.now }
    ensures { IsPlaceOf ids.now id result }
{
    ids.binary_search_by_key(&id, |other| other.number())
}

/// The least of ids that ascend, from a number on; none if there is none.
pub(crate) fn next_from(ids: &[MsgId], from: u64) -> Option<MsgId>
    requires { AreRising ids.now }
    ensures { IsLeastFrom from (λ id. In id ids.now) result }
{
    match place_of(ids, from) {
        Ok(place) => at(ids, place),
        Err(place) => at(ids, place),
    }
}

/// The id at a place; none after the last.
fn at(ids: &[MsgId], place: usize) -> Option<MsgId>
    ensures { result ≡ slice_get ids.now place }
{
    let id = ids.get(place)?;
    Some(*id)
}

/// Puts an id among ids that ascend; there is room for it.
pub(crate) fn put(ids: &mut Vec<MsgId>, id: MsgId)
    requires rising { AreRising ids.old.items }
    requires room { length (insert_key nat_cmp ids.old.items id) ≤ vec_capacity ids.old }
    ensures ids { ids.new.items ≡ insert_key nat_cmp ids.old.items id }
    ensures capacity { vec_capacity ids.new ≡ vec_capacity ids.old }
{
    if let Err(place) = place_of(ids, id.number()) {
        if ids.insert(place, id).is_err() {
            unreachable!();
        }
    }
}
