//! From octets to decrees.

ghost use Rattle.std.specs.Prelude.{◌≡◌, [], List, ℕ, length, reverse, Ok, IsOk, IfOk};
ghost use Rattle.mc_model.specs.message.Ids.{IsId};
ghost use Rattle.fate_chain.specs.Bytes.{chain_at, chain_fields, decrees_at, format_number, Judges};
ghost use Rattle.octet_fields.specs.Reading.{IsRead, front_at};

use crate::decree::Decree;
use crate::fault::ChainFault;
use crate::fields::{format_at, id_at};
use crate::format::Format;
use crate::octets::decree_at;
use crate::progress::Progress;
use mc_types::MsgId;
use octet_fields::{Defect, u16_at};
use std::alloc::{AllocError, Global};

/// The format of a chain's octets, its id, and how many decrees are in the octets after.
#[derive(Clone, Copy)]
pub struct Head<'a> {
    pub format: Format,
    pub id: MsgId,
    pub count: u16,
    pub decrees: &'a [u8],
}

/// The format, the id and the count of decrees with which a chain's octets begin. An `Err` if they are cut, of another format, or of
/// no id.
pub fn head_at(octets: &[u8]) -> Result<Head<'_>, Defect>
    ensures { IsRead (λ h. ((format_number h.format, (h.id, (h.count, tt))), h.decrees.now)) result
        (front_at chain_fields octets.now) }
{
    let (format, rest) = format_at(octets)?;
    let (id, rest) = match id_at(rest) {
        Ok(found) => found,
        Err(defect) => return Err(defect),
    };
    let (count, decrees) = u16_at(rest)?;
    Ok(Head {
        format,
        id,
        count,
        decrees,
    })
}

/// Finds that the octets behind a head are so many decrees, to the last of them, and a permitted chain of the id. Takes no memory.
pub fn check(head: &Head<'_>) -> Result<(), ChainFault>
    ensures { Judges (λ _ _. Unit {0}) result (chain_at head.now.format head.now.id head.now.count head.now.decrees.now) }
{
    let mut progress = Progress::Begins;
    let mut rest = head.decrees;
    let mut left = head.count;
    while left > 0 {
        let (decree, after) = match decree_at(head.format, rest) {
            Ok(found) => found,
            Err(_) => return Err(ChainFault::NotBytes),
        };
        progress = progress.after(head.id, decree.mark());
        rest = after;
        left -= 1;
    }
    if !rest.is_empty() {
        return Err(ChainFault::NotBytes);
    }
    match progress {
        Progress::Stands(_) => Ok(()),
        _ => Err(ChainFault::NotPermitted),
    }
}

/// The decrees, the oldest first, behind a head that is known to have so many behind it.
pub fn decrees_of(alloc: Global, head: &Head<'_>) -> Result<Vec<Decree>, AllocError>
    requires { IsOk (decrees_at head.now.format head.now.count [] head.now.decrees.now) }
    ensures { IfOk result (λ decrees. (rest : List ℕ)
        × (decrees_at head.now.format head.now.count [] head.now.decrees.now ≡ Ok (reverse decrees.items, rest))) }
{
    let mut decrees = Vec::with_capacity(alloc, head.count as usize)?;
    let mut rest = head.decrees;
    let mut left = head.count;
    while left > 0 {
        let (decree, after) = match decree_at(head.format, rest) {
            Ok(found) => found,
            Err(_) => unreachable!(),
        };
        decrees.push(decree.decree(alloc)?)?;
        rest = after;
        left -= 1;
    }
    Ok(decrees)
}
