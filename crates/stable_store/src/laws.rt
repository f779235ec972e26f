//! What the promises of a store say of a list, and what those of a group say of one change: nothing to call, but to cite.

ghost use Rattle.std.specs.Prelude.{◌↔◌, [], ◌∷◌};
ghost use Rattle.stable_store.specs.Listing.{SaysOfLeavesNext, SaysOfLeavesSaved, SaysOfLeavesSavedAll, SaysOfSaves, SaysOfSavesAll, SaysOfStays};
ghost use Rattle.stable_store.specs.Stored.{LeavesSaved, LeavesSavedAll, Saves, SavesAll};

use crate::store::StableStore;
use synod_acceptor::Change;

/// Of a list the promises of a store say exactly which records and which incarnation are stored: at `Ok` those of before with the change, or with all changes
/// of a group; after want of memory those of before, and after a fault of the device the ones or the others.
pub fn a_list_is_exact()
    ensures stays { SaysOfStays }
    ensures saves { SaysOfSaves }
    ensures leaves_saved { SaysOfLeavesSaved }
    ensures saves_all { SaysOfSavesAll }
    ensures leaves_saved_all { SaysOfLeavesSavedAll }
    ensures leaves_next { SaysOfLeavesNext }
{}

/// Of a group of one change is promised what is promised of its save.
pub fn a_group_of_one_is_a_save<S: StableStore>(change: &Change, old: &S, new: &S)
    ensures saves { SavesAll (change.now ∷ []) (S.stored old.now) (S.stored new.now) ↔ Saves change.now (S.stored old.now) (S.stored new.now) }
    ensures leaves { LeavesSavedAll (change.now ∷ []) (S.stored old.now) (S.stored new.now)
        ↔ LeavesSaved change.now (S.stored old.now) (S.stored new.now) }
{}
