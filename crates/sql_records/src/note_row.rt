//! The note that a row stands for.

ghost use Rattle.std.specs.Prelude.{◌≡◌, ◌⊎◌, map, IfErr, IfOk};
ghost use Rattle.mc_model.specs.synod.Acceptor.{after_vote};
ghost use Rattle.mc_model.specs.synod.Lists.{In};
ghost use Rattle.synod_acceptor.specs.Votes.{slot_in, vote_of};
ghost use Rattle.record_rows.specs.declared.fault.Fault.TheVariants.{Memory};
ghost use Rattle.record_rows.specs.declared.fault.ReadFault.TheVariants.{Damaged, Failed};
ghost use Rattle.record_rows.specs.Known.{Known, known_in, known_of};
ghost use Rattle.noting_store.specs.Noted.{AreApart, AreOf, Noted, noted_in, noted_of};
ghost use Rattle.sql_records.specs.Standing.{IsRowOf};
ghost use Rattle.sql_records.specs.Noting.{IsNoteRow, AreNoteRows, entry_in};

use crate::row::{record_of, row_of};
use crate::voters::{number_of, set_of};
use noting_store::Note;
use record_rows::{KnownRow, ReadFault, SlotRow};
use std::alloc::{AllocError, Global};
use synod_acceptor::{Record, Report, Vote};

/// The vote that a row stands for.
fn vote_in(alloc: Global, row: &KnownRow) -> Result<Vote, ReadFault>
    ensures ok { IfOk result (λ vote. IsRowOf (slot_in vote) (after_vote (vote_of vote)) (entry_in (known_of row.now))) }
    ensures faults { IfErr result (λ fault. (fault ≡ Damaged) ⊎ (fault ≡ Failed Memory)) }
{
    let slot_row = SlotRow {
        id: row.id,
        place: row.place,
        promised: row.voted,
        voted: row.voted,
        chain: Vec::from_slice(alloc, &row.chain)?,
    };
    let kept = record_of(alloc, &slot_row)?;
    match kept.report() {
        Report::Held(vote) => Ok(vote.copy()?),
        Report::Nothing(_) => Err(ReadFault::Damaged),
    }
}

/// The note that a row stands for. It refuses, as damaged, a row that stands for none of a cluster of so many nodes.
fn note_in(alloc: Global, nodes: u8, row: &KnownRow) -> Result<Note, ReadFault>
    ensures ok { IfOk result (λ note. IsNoteRow (known_of row.now) (noted_of note)) }
    ensures nodes { IfOk result (λ note. note.nodes ≡ nodes) }
    ensures faults { IfErr result (λ fault. (fault ≡ Damaged) ⊎ (fault ≡ Failed Memory)) }
{
    let voters = set_of(row.voters)?;
    let vote = vote_in(alloc, row)?;
    match Note::make(nodes, vote, voters) {
        Some(note) => Ok(note),
        None => Err(ReadFault::Damaged),
    }
}

/// The row that stands for a note.
fn row_for(alloc: Global, note: &Note) -> Result<KnownRow, AllocError>
    ensures { IfOk result (λ row. IsNoteRow (known_of row) (noted_of note.now)) }
{
    let vote = note.vote().copy()?;
    let promised = vote.ballot;
    let Some(kept) = Record::make(promised, Report::Held(vote)) else {
        return Err(AllocError);
    };
    let row = row_of(alloc, &kept)?;
    Ok(KnownRow {
        id: row.id,
        place: row.place,
        voted: row.voted,
        voters: number_of(note.voters()),
        chain: row.chain,
    })
}

/// The rows that stand for notes, in their order.
pub(crate) fn rows_for(alloc: Global, notes: &[Note]) -> Result<Vec<KnownRow>, AllocError>
    ensures { IfOk result (λ rows. AreNoteRows (known_in rows.items) (noted_in notes.now)) }
{
    let mut rows = Vec::with_capacity(alloc, notes.len())?;
    for note in notes {
        let next = row_for(alloc, note)?;
        rows.push(next)?;
    }
    Ok(rows)
}

/// The notes that rows stand for, in their order, of a cluster of so many nodes. It refuses, as damaged, a row that stands for none, and two of one message.
pub(crate) fn notes_in(alloc: Global, nodes: u8, rows: &[KnownRow]) -> Result<Vec<Note>, ReadFault>
    ensures ok { IfOk result (λ notes. AreNoteRows (known_in rows.now) (noted_in notes.items)) }
    ensures nodes { IfOk result (λ notes. AreOf nodes notes.items) }
    ensures apart { IfOk result (λ notes. AreApart (noted_in notes.items)) }
    ensures faults { IfErr result (λ fault. (fault ≡ Damaged) ⊎ (fault ≡ Failed Memory)) }
{
    let mut notes = Vec::with_capacity(alloc, rows.len())?;
    let mut last = 0;
    for row in rows {
        let next = note_in(alloc, nodes, row)?;
        let id = next.id().number();
        if id <= last {
            return Err(ReadFault::Damaged);
        }
        last = id;
        notes.push(next)?;
    }
    Ok(notes)
}
