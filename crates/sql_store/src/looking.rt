//! Whose a store is, and what has begun over it.

use crate::store::SqlStore;
use record_rows::{
    Fault, ReadFault, WhoseRow, add_beside, has_whose, put_whose, read_incarnation, read_whose,
};
use sqlite::{Alter, Connection};
use stable_store::StoreFault;
use std::alloc::Global;

/// What a store says of itself, in numbers as they are stored.
#[derive(Clone, Copy, Debug, PartialEq, Eq)]
pub struct Said {
    /// Whose it is. None in a store of an earlier program, or one that was not written to its end.
    pub whose: Option<WhoseRow>,
    /// The last incarnation that has begun over it.
    pub last: Option<i64>,
}

impl<S: Alter + Drop> SqlStore<S> {
    ghost use Rattle.std.specs.Prelude.{◌≡◌, false, IfOk};
    ghost use Rattle.sqlite.specs.Held.{state};
    ghost use Rattle.sqlite.specs.State.{HasCleanDisk};
    ghost use Rattle.record_rows.specs.Ours.{IsOurs};

    /// The store, and what it says of itself. Memory and Device as `adopt` tells them; Damaged if what says it was never saved there.
    pub fn said(self, alloc: Global) -> Result<(SqlStore<S>, Said), StoreFault>
        ensures fresh { IfOk result (λ it. (it.0.spent ≡ false) × (it.0.failed ≡ 0)) }
        ensures ours { IfOk result (λ it. HasCleanDisk (state S.Store it.0.conn) → IsOurs it.0.layout (state S.Store it.0.conn)) }
    {
        let mut conn = self.into_connection();
        let said = said_in(&mut conn)?;
        match SqlStore::adopt(alloc, conn) {
            Ok(store) => Ok((store, said)),
            Err((fault, _)) => Err(fault),
        }
    }

    /// The store, which says from now on whose it is, and did not before. It gets the tables beside the two that it lacks. Memory and Device as `adopt` tells
    /// them; the store is to be opened again then.
    pub fn marked(self, alloc: Global, whose: &WhoseRow) -> Result<SqlStore<S>, StoreFault>
        ensures fresh { IfOk result (λ store. (store.spent ≡ false) × (store.failed ≡ 0)) }
        ensures ours { IfOk result (λ store. HasCleanDisk (state S.Store store.conn) → IsOurs store.layout (state S.Store store.conn)) }
    {
        let mut conn = self.into_connection();
        mark(&mut conn, whose)?;
        match SqlStore::adopt(alloc, conn) {
            Ok(store) => Ok(store),
            Err((fault, _)) => Err(fault),
        }
    }
}

fn said_in<S: Alter>(conn: &mut Connection<S>) -> Result<Said, StoreFault> {
    let whose = match read_whose(conn) {
        Ok(whose) => whose,
        Err(fault) => return Err(unread(fault)),
    };
    match read_incarnation(conn) {
        Ok(last) => Ok(Said { whose, last }),
        Err(fault) => Err(unread(fault)),
    }
}

fn mark<S: Alter>(conn: &mut Connection<S>, whose: &WhoseRow) -> Result<(), StoreFault> {
    let added = if has_whose(conn) {
        Ok(())
    } else {
        add_beside(conn)
    };
    if let Err(fault) = added {
        return Err(undone(fault));
    }
    match put_whose(conn, whose) {
        Ok(()) => Ok(()),
        Err(fault) => Err(undone(fault)),
    }
}

/// What a fault of a statement that reads is told as.
fn unread(fault: ReadFault) -> StoreFault {
    match fault {
        ReadFault::Damaged => StoreFault::Damaged,
        ReadFault::Failed(fault) => undone(fault),
    }
}

/// What a fault of a statement is told as.
fn undone(fault: Fault) -> StoreFault {
    match fault {
        Fault::Memory => StoreFault::Memory,
        Fault::Undone | Fault::Shut => StoreFault::Device,
    }
}
