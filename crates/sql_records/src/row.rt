//! The record that a row stands for.

ghost use Rattle.std.specs.Prelude.{◌≡◌, ◌⊎◌, ◌<◌, ℕ, pos, map, IfOk, IfErr};
ghost use Rattle.mc_model.specs.message.Chain.{Chain as ChainValue};
ghost use Rattle.mc_model.specs.message.Ids.{IsId};
ghost use Rattle.mc_model.specs.synod.Ballot.{IsBallot};
ghost use Rattle.mc_model.specs.synod.OneSlot.{Vote as VoteValue};
ghost use Rattle.mc_model.specs.synod.Packet.{Slot as SlotValue};
ghost use Rattle.std.specs.Prelude.{Option as Maybe};
ghost use Rattle.node_model.specs.Recorded.{named_places};
ghost use Rattle.synod_acceptor.specs.Votes.{report_of as vote_reported, slot_reported};
ghost use Rattle.record_rows.specs.Content.{Entry, body_of, entry_of, slot_of};
ghost use Rattle.record_rows.specs.declared.fault.Fault.TheVariants.{Memory};
ghost use Rattle.record_rows.specs.declared.fault.ReadFault.TheVariants.{Damaged, Failed};
ghost use Rattle.mc_model.specs.synod.Lists.{In};
ghost use Rattle.stable_store.specs.Stored.{afters};
ghost use Rattle.sql_records.specs.Standing.{IsChainIn, IsKeyOf, IsVoteBy, IsVoteIn, StandForEach, StandsFor, StandsForNone};

use fate_chain::{Chain, ChainFault, octets_are_of_one_chain};
use mc_types::{Ballot, MsgId, Slot};
use record_rows::{Fault, ReadFault, SlotRow};
use std::alloc::{AllocError, Global};
use synod_acceptor::{Change, Record, Report, Vote};

/// The number of a column, if it is not negative.
fn natural(number: i64) -> Result<u64, ReadFault>
    ensures ok { IfOk result (λ n. number ≡ pos n) }
    ensures damaged { IfErr result (λ fault. (fault ≡ Damaged) × ((n : ℕ) → number ≡ pos n → ⊥)) }
{
    if number < 0 {
        return Err(ReadFault::Damaged);
    }
    Ok(number as u64)
}

fn id_of(number: i64) -> Result<MsgId, ReadFault>
    ensures ok { IfOk result (λ id. (number ≡ pos id) × IsId id) }
    ensures damaged { IfErr result (λ fault. (fault ≡ Damaged) × ((id : ℕ) → number ≡ pos id → IsId id → ⊥)) }
{
    let natural = natural(number)?;
    match MsgId::of_number(natural) {
        Ok(id) => Ok(id),
        Err(_) => Err(ReadFault::Damaged),
    }
}

fn place_of(number: i64) -> Result<u8, ReadFault>
    ensures ok { IfOk result (λ place. number ≡ pos place) }
    ensures damaged { IfErr result (λ fault. (fault ≡ Damaged) × ((place : ℕ) → number ≡ pos place → place < named_places → ⊥)) }
{
    let natural = natural(number)?;
    if natural > u8::MAX as u64 {
        return Err(ReadFault::Damaged);
    }
    Ok(natural as u8)
}

fn ballot_of(number: i64) -> Result<Ballot, ReadFault>
    ensures ok { IfOk result (λ ballot. (number ≡ pos ballot) × IsBallot ballot) }
    ensures damaged { IfErr result (λ fault. (fault ≡ Damaged) × ((ballot : ℕ) → number ≡ pos ballot → IsBallot ballot → ⊥)) }
{
    let natural = natural(number)?;
    match Ballot::of_number(natural) {
        Ok(ballot) => Ok(ballot),
        Err(_) => Err(ReadFault::Damaged),
    }
}

/// The slot under whose key a row stands.
fn slot_in(row: &SlotRow) -> Result<Slot, ReadFault>
    ensures ok { IfOk result (λ slot. IsKeyOf slot (slot_of row.now)) }
    ensures damaged { IfErr result (λ fault. (fault ≡ Damaged) × ((slot : SlotValue) → IsKeyOf slot (slot_of row.now) → ⊥)) }
{
    let id = id_of(row.id)?;
    let place = place_of(row.place)?;
    Ok(Slot { id, place })
}

/// The chain whose octets these are, if it stands in the slot.
fn chain_of(alloc: Global, slot: Slot, octets: &[u8]) -> Result<Chain, ReadFault>
    ensures ok { IfOk result (IsChainIn slot octets.now) }
    ensures damaged { result ≡ Err Damaged → (chain : ChainValue) → IsChainIn slot octets.now chain → ⊥ }
    ensures faults { IfErr result (λ fault. (fault ≡ Damaged) ⊎ (fault ≡ Failed Memory)) }
{
    octets_are_of_one_chain();
    let chain = match Chain::read(alloc, octets) {
        Ok(chain) => chain,
        Err(ChainFault::Memory) => return Err(ReadFault::Failed(Fault::Memory)),
        Err(ChainFault::NotBytes) => return Err(ReadFault::Damaged),
        Err(ChainFault::NotPermitted) => return Err(ReadFault::Damaged),
    };
    let stands = Slot {
        id: chain.id(),
        place: chain.place(),
    };
    if stands != slot {
        return Err(ReadFault::Damaged);
    }
    chain.bounds();
    Ok(chain)
}

/// What the acceptor reports of the slot by the row.
fn report_in(alloc: Global, slot: Slot, row: &SlotRow) -> Result<Report, ReadFault>
    ensures slot { IfOk result (λ report. slot_reported report ≡ slot) }
    ensures ok { IfOk result (λ report. IsVoteIn slot (vote_reported report) (body_of row.now)) }
    ensures damaged { result ≡ Err Damaged → (vote : Maybe VoteValue) → IsVoteIn slot vote (body_of row.now) → ⊥ }
    ensures faults { IfErr result (λ fault. (fault ≡ Damaged) ⊎ (fault ≡ Failed Memory)) }
{
    if row.voted == 0 {
        if row.chain.is_empty() {
            return Ok(Report::Nothing(slot));
        }
        return Err(ReadFault::Damaged);
    }
    let ballot = ballot_of(row.voted)?;
    let chain = chain_of(alloc, slot, &row.chain)?;
    Ok(Report::Held(Vote { ballot, chain }))
}

/// The record that a row stands for. It is damaged exactly if it stands for none.
pub(crate) fn record_of(alloc: Global, row: &SlotRow) -> Result<Record, ReadFault>
    ensures ok { IfOk result (StandsFor (entry_of row.now)) }
    ensures damaged { result ≡ Err Damaged → StandsForNone (entry_of row.now) }
    ensures faults { IfErr result (λ fault. (fault ≡ Damaged) ⊎ (fault ≡ Failed Memory)) }
{
    let slot = slot_in(row)?;
    let promised = ballot_of(row.promised)?;
    let report = report_in(alloc, slot, row)?;
    match Record::make(promised, report) {
        Some(record) => Ok(record),
        None => Err(ReadFault::Damaged),
    }
}

/// The records that rows stand for, in their order. It is damaged exactly if one of them stands for none.
pub(crate) fn records_of(alloc: Global, rows: &[SlotRow]) -> Result<Vec<Record>, ReadFault>
    ensures ok { IfOk result (λ records. StandForEach (map entry_of rows.now) records.items) }
    ensures damaged { result ≡ Err Damaged → (row : Entry) × In row (map entry_of rows.now) × StandsForNone row }
    ensures faults { IfErr result (λ fault. (fault ≡ Damaged) ⊎ (fault ≡ Failed Memory)) }
{
    let mut records = Vec::with_capacity(alloc, rows.len())?;
    for row in rows {
        let next = record_of(alloc, row)?;
        records.push(next)?;
    }
    Ok(records)
}

/// The ballot of a vote and the octets of its chain, or 0 and none.
fn vote_columns(alloc: Global, report: &Report) -> Result<(i64, Vec<u8>), AllocError>
    ensures { IfOk result (λ columns. IsVoteBy (vote_reported report.now) (slot_reported report.now) columns.0 columns.1.items) }
{
    match report {
        Report::Nothing(_) => Ok((0, Vec::new(alloc))),
        Report::Held(vote) => {
            let chain = vote.chain.bytes()?;
            vote.chain.bounds();
            Ok((vote.ballot.number() as i64, chain))
        }
    }
}

/// The row that stands for a record.
pub(crate) fn row_of(alloc: Global, kept: &Record) -> Result<SlotRow, AllocError>
    ensures { IfOk result (λ row. StandsFor (entry_of row) kept.now) }
{
    let slot = kept.slot();
    let (voted, chain) = vote_columns(alloc, kept.report())?;
    kept.promises();
    Ok(SlotRow {
        id: slot.id.number() as i64,
        place: slot.place as i64,
        promised: kept.promised().number() as i64,
        voted,
        chain,
    })
}

/// The rows that stand for the records of changes, in their order.
pub(crate) fn rows_of(alloc: Global, changes: &[Change]) -> Result<Vec<SlotRow>, AllocError>
    ensures { IfOk result (λ rows. StandForEach (map entry_of rows.items) (afters changes.now)) }
{
    let mut rows = Vec::with_capacity(alloc, changes.len())?;
    for change in changes {
        let next = row_of(alloc, &change.after)?;
        rows.push(next)?;
    }
    Ok(rows)
}
