//! The frames of a stream, with one buffer of 8,192 octets.

ghost use Rattle.std.specs.Prelude.{◌≡◌, ◌<◌, ◌≤◌, ◌↔◌, ◌⊎◌, ◌++◌, [], true, false, min, take, length, vec_capacity, IsTrue, IsSome, IfSome, IfOk, IfErr};
ghost use Rattle.std.specs.Prelude.{OnOk, OnErr};
ghost use Rattle.pdu_fields.specs.declared.fault.PduFault.TheVariants.{Length, Memory};
ghost use Rattle.pdu_frames.specs.Frames as spec;
ghost use Rattle.pdu_frames.specs.Frames.{IsFrame, IsPart, HasWrongLength, IsOfOneFrame};
ghost use Rattle.pdu_frames.specs.Calls.{Leads};
ghost use Rattle.pdu_frames.specs.Calls.Call.{TakesIn, GivesOut};

use pdu_fields::PduFault;
use pdu_tables::limits;
use std::alloc::{AllocError, Global};
use std::marker::Model;

/// The octets of command_length.
const LENGTH_FIELD: usize = 4;

/// The octets of the next frame of a stream, as far as they have come: at most those of one frame. Contracts see them as a
/// list.
///
/// A stream is cut into pieces anywhere; what `feed` takes of them and the frames that `take` gives are those of the whole
/// stream. Once a command_length below 16 or above 8,192 stands next, both answer `Length` from then on.
#[derive(Drop)]
pub struct Framer {
    octets: Vec<u8>,
}

impl Model for Framer {
    ghost use Rattle.std.specs.Prelude.{List, ℕ, ◌≤◌, vec_capacity};
    ghost use Rattle.pdu_frames.specs.Frames.{IsOfOneFrame};

    ghost Value = { List ℕ };

    ghost view = { λ framer. framer.octets.items };

    ghost invariant = { λ framer. (8192 ≤ vec_capacity framer.octets) × IsOfOneFrame framer.octets.items };
}

impl Framer {
    /// A Framer that holds nothing. It reserves the 8,192 octets of a frame, once for all: an `Err` is want of that memory.
    pub fn make(alloc: Global) -> Result<Framer, PduFault>
        ensures nothing { IfOk result (λ framer. framer ≡ []) }
        ensures memory { IfErr result (λ fault. fault ≡ Memory) }
    {
        Ok(Framer {
            octets: Vec::with_capacity(alloc, limits::PDU)?,
        })
    }

    /// Takes octets from the front of the piece, and says how many: all of them, or those up to the end of the frame that
    /// it holds then, or up to the end of a wrong command_length. So of a piece with octets it takes none only if a whole
    /// frame is held. `Err(Length)` if a wrong command_length stands next: then it takes none, and what is held stays. It
    /// takes no memory.
    pub fn feed(&mut self, piece: &[u8]) -> Result<usize, PduFault>
        ensures within { IfOk result (λ count. count ≤ length piece.now) }
        ensures taken { IfOk result (λ count. Leads self.old (TakesIn (take count piece.now)) self.new) }

        // None of them stands behind the end of the frame, and no fewer are taken than there are up to it.
        ensures one { IsOfOneFrame self.new }
        ensures all { IfOk result (λ count. IsPart self.new → count ≡ length piece.now) }
        ensures some { IfOk result (λ count. IsPart self.old → 0 < length piece.now → 0 < count) }
        ensures wanted { IfOk result (λ count. length piece.now ≤ spec.wanted_of self.old → count ≡ length piece.now) }

        // Want of memory is no fault of it.
        ensures wrong { HasWrongLength self.old ↔ (result ≡ Err Length) }
        ensures fault { IfErr result (λ fault. (fault ≡ Length) × (self.new ≡ self.old)) }
    {
        if has_wrong_length(&self.octets) {
            return Err(PduFault::Length);
        }
        let of_length = self.fill(piece);
        let of_frame = self.fill(&piece[of_length..]);
        Ok(of_length + of_frame)
    }

    /// Whether it holds no octet.
    pub fn is_empty(&self) -> bool
        ensures { IsTrue result ↔ (self.now ≡ []) }
    {
        self.octets.is_empty()
    }

    /// The frame that is held; none if it is not whole yet. `Err(Length)` if a wrong command_length stands next.
    pub fn frame(&self) -> Result<Option<&[u8]>, PduFault>
        ensures frame { IfOk result (λ held. IfSome held (λ frame. IsFrame self.now × (frame.now ≡ self.now))) }
        ensures part { IsPart self.now ↔ (result ≡ Ok None) }
        ensures wrong { HasWrongLength self.now ↔ (result ≡ Err Length) }
        ensures fault { IfErr result (λ fault. fault ≡ Length) }
    {
        match self.wanted() {
            0 if has_wrong_length(&self.octets) => Err(PduFault::Length),
            0 => Ok(Some(&self.octets)),
            _ => Ok(None),
        }
    }

    /// Lets go of the frame that is held, and holds nothing then. It takes no memory.
    pub fn let_go(&mut self)
        requires { IsFrame self.old }
        ensures { Leads self.old (GivesOut self.old) self.new }
    {
        self.octets.clear();
    }

    /// Puts the frame that is held in the place of the vector's content, if it is whole, and holds nothing then; `false` if
    /// it is not whole yet. `Err(Length)` if a wrong command_length stands next, and `Err(Memory)` for want of memory for
    /// the vector. Without a frame both the Framer and the vector stay as they were.
    pub fn take(&mut self, into: &mut Vec<u8>) -> Result<bool, PduFault>
        ensures frame { result ≡ Ok true → Leads self.old (GivesOut into.new.items) self.new }
        ensures part { IsPart self.old ↔ (result ≡ Ok false) }
        ensures wrong { HasWrongLength self.old ↔ (result ≡ Err Length) }

        // Want of memory comes only if the frame needs more than the vector has.
        ensures memory { result ≡ Err Memory → IsFrame self.old × (vec_capacity into.old < length self.old) }
        ensures fault { IfErr result (λ fault. (fault ≡ Length) ⊎ (fault ≡ Memory)) }
        ensures waits { result ≡ Ok false → (self.new ≡ self.old) × (into.new ≡ into.old) }
        ensures kept { OnErr result ((self.new ≡ self.old) × (into.new.items ≡ into.old.items)) }
    {
        let Some(frame) = self.frame()? else {
            return Ok(false);
        };
        replace(into, frame)?;
        self.let_go();
        Ok(true)
    }

    /// How many octets are missing: up to the end of command_length, then up to the end of the frame; 0 if the frame is
    /// whole, or its command_length is wrong.
    pub fn wanted(&self) -> usize
        ensures { result ≡ spec.wanted_of self.now }
    {
        front_end(&self.octets) - self.octets.len()
    }

    /// Takes octets from the front of the piece, as many as are wanted.
    fn fill(&mut self, piece: &[u8]) -> usize
        ensures count { result ≡ min (spec.wanted_of self.old) (length piece.now) }
        ensures taken { self.new ≡ self.old ++ take result piece.now }
        ensures one { IsOfOneFrame self.new }
    {
        let count = self.wanted().min(piece.len());
        self.octets.extend_from_slice(&piece[..count]).unwrap();
        count
    }
}

/// Puts the octets in the place of the vector's content.
fn replace(into: &mut Vec<u8>, octets: &[u8]) -> Result<(), AllocError>
    ensures ok { OnOk result (into.new.items ≡ octets.now) }
    ensures err { OnErr result (into.new.items ≡ into.old.items) }
    ensures full { OnErr result (vec_capacity into.old < length octets.now) }
{
    into.reserve(octets.len().saturating_sub(into.len()))?;
    into.clear();
    into.extend_from_slice(octets).unwrap();
    Ok(())
}

/// Where the frame at the front of octets ends, as far as they tell.
fn front_end(octets: &[u8]) -> usize
    ensures { result ≡ spec.front_end octets.now }
{
    match command_length(octets) {
        Some(count) if is_pdu_length(count) => count,
        _ => LENGTH_FIELD,
    }
}

/// Whether the command_length with which octets begin has come, and is wrong.
fn has_wrong_length(octets: &[u8]) -> bool
    ensures { IsTrue result ↔ HasWrongLength octets.now }
{
    match command_length(octets) {
        Some(count) => !is_pdu_length(count),
        None => false,
    }
}

/// Whether a PDU may have so many octets.
fn is_pdu_length(count: usize) -> bool
    ensures { result ≡ spec.is_pdu_length count }
{
    (limits::HEADER..=limits::PDU).contains(&count)
}

/// The command_length with which octets begin; none if it has not come whole.
fn command_length(octets: &[u8]) -> Option<usize>
    ensures whole { IsSome result ↔ (4 ≤ length octets.now) }
    ensures count { IfSome result (λ count. count ≡ spec.command_length octets.now) }
{
    let word = octets.first_chunk::<LENGTH_FIELD>()?;
    Some(u32::from_be_bytes(*word) as usize)
}
