//! A frame from a reader.

ghost use Rattle.std.specs.Prelude.{◌≡◌, ◌≤◌, ◌⊎◌, [], vec_capacity, true, false, Ok, IfErr, OnErr};
ghost use Rattle.octet_io.specs.Reads.{Fails, TellsEnd, most_reads};
ghost use Rattle.pdu_frames.specs.Frames.{IsFrame, IsPart};
ghost use Rattle.frame_io.specs.Frames.{GivesMore, IsNotTaken, IsRead};
ghost use Rattle.frame_io.specs.declared.fault.FrameFault.TheVariants.{Short};

use crate::fault::FrameFault;
use octet_io::{CountedReader, ReadFault};
use pdu_fields::PduFault;
use pdu_frames::Framer;
use std::io::Read;

/// How many octets one read asks for at most.
const PIECE: usize = 1024;

/// Reads the frame that begins with what the Framer holds, and puts it in the place of the vector's content; the Framer holds nothing then. `false` if
/// the input ended and nothing is held. It asks for no octet behind the frame: what was read is the frame's, and all behind it is unread.
///
/// `Read` if a read failed, or the 2^40 that may be made were made; `Length` if a command_length below 16 or above 8,192 came, behind which nothing was
/// read; `Short` if the input ended within a frame; `Memory` if the vector has no room for the frame and there was no memory. At each of them the Framer
/// holds what came, and the vector is as it was. So the same call, repeated, goes on where this one stopped. A read that was interrupted is made again.
pub fn next_frame<R: Read>(
    reader: &mut CountedReader<R>,
    framer: &mut Framer,
    into: &mut Vec<u8>,
) -> Result<bool, FrameFault>
    ensures { IsRead R.remaining reader.old reader.new (record { octets = framer.old; into = into.old.items; room = vec_capacity into.old })
        (record { octets = framer.new; into = into.new.items; room = vec_capacity into.new }) result }
{
    'reads: loop {
        if take(framer, into)? {
            return Ok(true);
        }
        if !read_on(reader, framer)? {
            return end(framer);
        }
    }
}

/// Takes the frame that is held, if it is whole.
fn take(framer: &mut Framer, into: &mut Vec<u8>) -> Result<bool, FrameFault>
    ensures frame { result ≡ Ok true → IsFrame framer.old × (into.new.items ≡ framer.old) × (framer.new ≡ []) }
    ensures part { result ≡ Ok false → IsPart framer.old × (framer.new ≡ framer.old) × (into.new ≡ into.old) }
    ensures faults { IfErr result (IsNotTaken framer.old (vec_capacity into.old)) }
    ensures kept { OnErr result ((framer.new ≡ framer.old) × (into.new.items ≡ into.old.items)) }
{
    match framer.take(into) {
        Ok(is_taken) => Ok(is_taken),
        Err(PduFault::Memory) => Err(FrameFault::Memory),
        Err(_) => Err(FrameFault::Length),
    }
}

/// Reads once, no more than is missing, and takes in what came; `false` at the reader's end.
fn read_on<R: Read>(reader: &mut CountedReader<R>, framer: &mut Framer) -> Result<bool, ReadFault>
    requires { IsPart framer.old }
    ensures more { result ≡ Ok true → GivesMore R.remaining reader.old reader.new framer.old framer.new }
    ensures end { result ≡ Ok false → TellsEnd R.remaining reader.old reader.new × (framer.new ≡ framer.old) }
    ensures fault { OnErr result (((reader.new ≡ reader.old) × (reader.old.reads ≡ most_reads)) ⊎ Fails R.remaining reader.old reader.new) }
    ensures kept { OnErr result (framer.new ≡ framer.old) }
    ensures most { reader.new.reads ≤ most_reads }
{
    let mut piece = [0; PIECE];
    let room = framer.wanted().min(PIECE);
    let Some(count) = reader.read(&mut piece[..room])? else {
        return Ok(false);
    };
    let Ok(_) = framer.feed(&piece[..count]) else {
        unreachable!();
    };
    Ok(true)
}

/// What the input's end is: the end between two frames, or within one.
fn end(framer: &Framer) -> Result<bool, FrameFault>
    ensures over { result ≡ Ok false → framer.now ≡ [] }
    ensures no_frame { result ≡ Ok true → ⊥ }
    ensures faults { IfErr result (λ fault. (fault ≡ Short) × (framer.now ≡ [] → ⊥)) }
{
    if framer.is_empty() {
        Ok(false)
    } else {
        Err(FrameFault::Short)
    }
}
