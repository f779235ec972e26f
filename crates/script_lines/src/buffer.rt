//! Lines out of a reader, with one buffer of 20,001 octets.

ghost use Rattle.std.specs.Prelude.{◌≡◌, ◌≤◌, ◌<◌, ◌+◌, ◌-◌, ◌++◌, ◌⊎◌, List, ℕ, [], false, true, take, drop, slice_range, length};
ghost use Rattle.std.specs.Prelude.{IfNone, IfOk, IfSome, OnErr};
ghost use Rattle.std.specs.Bool.{OnFalse, OnTrue};
ghost use Rattle.std.specs.Io.KnownBytes.{Consumes};
ghost use Rattle.octet_io.specs.Reads.{Fails, Gives, Stops, TellsEnd, most_reads};
ghost use Rattle.script_lines.specs.Lines.{IsLastLine, IsOneLine, LinesAreRead, NeedsMore};
ghost use Rattle.script_lines.specs.Finding.{IsFound, Reaches, ReadsAsNeeded, is_at_end};

use crate::line::MOST_OCTETS;
use crate::octets::place_of;
use octet_io::{CountedReader, ReadFault};
use std::alloc::{AllocError, Global};
use std::io::Read;
use std::marker::Model;
use std::ops::Range;

/// How many octets are held at most: a line and its line feed.
const ROOM: usize = MOST_OCTETS + 1;

/// What stands at the front of what is held.
#[derive(Debug, Clone, Copy, PartialEq, Eq)]
pub enum Found {
    /// A line of so many octets, 20,000 at most, and its line feed.
    Line(usize),
    /// The last line, of so many octets, 1 to 20,000, which has no line feed.
    Last(usize),
    /// More octets than a line may have.
    TooLong,
    /// Nothing: all was taken off, and the reader is at its end.
    End,
}

/// Octets that were read and not yet taken off.
#[derive(Debug, Drop)]
pub struct LineBuffer {
    octets: Vec<u8>,
    start: usize,
    end: usize,
}

impl Model for LineBuffer {
    ghost use Rattle.std.specs.Prelude.{List, slice_range, ℕ};
    ghost use Rattle.script_lines.specs.Lines.{HoldsPart};

    ghost Value = { List ℕ };

    ghost view = { λ b. slice_range b.octets.items b.start b.end };

    ghost invariant = { λ b. HoldsPart b.octets.items b.start b.end };
}

impl LineBuffer {
    /// An empty buffer, with all its room. An `Err` is want of memory.
    pub fn make(alloc: Global) -> Result<LineBuffer, AllocError>
        ensures { IfOk result (λ held. held ≡ []) }
    {
        Ok(LineBuffer {
            octets: zeros(alloc, ROOM)?,
            start: 0,
            end: 0,
        })
    }

    /// What is held and not yet taken off.
    pub fn octets(&self) -> &[u8]
        ensures octets { result.now ≡ self.now }
        ensures room { length result.now ≤ 20001 }
    {
        &self.octets[self.start..self.end]
    }

    /// Takes so many octets off the front.
    pub fn take_off(&mut self, count: usize)
        requires { count ≤ length self.old }
        ensures { self.new ≡ drop count self.old }
    {
        self.start += count;
    }

    /// Reads until the first line is whole, and says how long it is. A read that was interrupted is made again. An `Err`
    /// loses nothing that was read.
    pub fn find_line<R: Read>(&mut self, reader: &mut CountedReader<R>) -> Result<Found, ReadFault>
        ensures grew { (got : List ℕ) × Consumes (R.remaining reader.old.reader) (R.remaining reader.new.reader) got × (self.new ≡ self.old ++ got) }
        ensures room { length self.new ≤ 20001 }
        ensures found { IfOk result (λ found. IsFound found self.new) }
        ensures reached { IfOk result (λ found. Reaches R.remaining found reader.old reader.new) }
        ensures none { OnErr result (NeedsMore self.new) }
        ensures fault { OnErr result (Stops reader.old reader.new) }

        // Where what is held needs no more, nothing is read.
        ensures needed { ReadsAsNeeded self.old self.new reader.old reader.new }
    {
        let mut searched = 0;
        'reads: loop {
            let held = self.octets();
            if let Some(found) = line_in(held, searched) {
                return Ok(found);
            }
            searched = held.len();
            if !self.read_more(reader)? {
                return Ok(rest_of(searched));
            }
        }
    }

    /// Reads once, and says whether the reader may have more: `false` if it is at its end.
    fn read_more<R: Read>(&mut self, reader: &mut CountedReader<R>) -> Result<bool, ReadFault>
        requires { length self.old ≤ 20000 }
        ensures more { IfOk result (λ more. OnTrue more ((got : List ℕ) × Gives R.remaining reader.old reader.new got × (self.new ≡ self.old ++ got))) }
        ensures end { IfOk result (λ more. OnFalse more ((self.new ≡ self.old) × TellsEnd R.remaining reader.old reader.new)) }
        ensures err { OnErr result (self.new ≡ self.old) }
        ensures fault { OnErr result (((reader.new ≡ reader.old) × (reader.old.reads ≡ most_reads)) ⊎ Fails R.remaining reader.old reader.new) }
        ensures most { reader.new.reads ≤ most_reads }
    {
        let held = self.start..self.end;
        self.end -= self.start;
        self.start = 0;
        let Some(count) = read_behind(reader, self.octets.as_mut_slice(), held)? else {
            return Ok(false);
        };
        self.end += count;
        Ok(true)
    }
}

/// So many octets, each of them 0.
fn zeros(alloc: Global, count: usize) -> Result<Vec<u8>, AllocError>
    ensures { IfOk result (λ octets. length octets.items ≡ count) }
{
    vec![in alloc; 0u8; count]
}

/// Moves the octets that are held to the front, and reads once into the room after them.
fn read_behind<R: Read>(
    reader: &mut CountedReader<R>,
    octets: &mut [u8],
    held: Range<usize>,
) -> Result<Option<usize>, ReadFault>
    requires order { held.start ≤ held.end }
    requires within { held.end ≤ length octets.old }
    requires room { held.end - held.start < length octets.old }
    ensures front { take (held.end - held.start) octets.new ≡ slice_range octets.old held.start held.end }
    ensures gives { IfOk result (λ told. IfSome told (λ count. ((held.end - held.start) + count ≤ length octets.new) ×
        Gives R.remaining reader.old reader.new (take count (drop (held.end - held.start) octets.new)))) }
    ensures end { IfOk result (λ told. IfNone told (TellsEnd R.remaining reader.old reader.new)) }
    ensures fault { OnErr result (((reader.new ≡ reader.old) × (reader.old.reads ≡ most_reads)) ⊎ Fails R.remaining reader.old reader.new) }
    ensures most { reader.new.reads ≤ most_reads }
{
    let front = held.end - held.start;
    move_to_front(octets, held);
    reader.read(&mut octets[front..])
}

/// Moves the octets that are held to the front.
fn move_to_front(octets: &mut [u8], held: Range<usize>)
    requires order { held.start ≤ held.end }
    requires within { held.end ≤ length octets.old }
    ensures { take (held.end - held.start) octets.new ≡ slice_range octets.old held.start held.end }
{
    if held.start > 0 {
        octets.copy_within(held, 0);
    }
}

/// The whole line at the front of what is held, of which so many octets were searched before; or that it is too long.
fn line_in(held: &[u8], searched: usize) -> Option<Found>
    requires within { searched ≤ length held.now }
    requires line { IsOneLine (take searched held.now) }
    requires room { length held.now ≤ 20001 }
    ensures none { IfNone result (NeedsMore held.now) }
    ensures found { IfSome result (λ found. IsFound found held.now) }
    ensures before_end { IfSome result (λ found. is_at_end found ≡ false) }
{
    match place_of(b'\n', &held[searched..]) {
        Some(at) => Some(Found::Line(searched + at)),
        None if held.len() > MOST_OCTETS => Some(Found::TooLong),
        None => None,
    }
}

/// What is found at the reader's end, if so many octets are held.
fn rest_of(held: usize) -> Found
    requires { held ≤ 20000 }
    ensures found { (octets : List ℕ) → length octets ≡ held → IsOneLine octets → IsFound result octets }
    ensures at_end { is_at_end result ≡ true }
{
    if held == 0 {
        Found::End
    } else {
        Found::Last(held)
    }
}

/// How a text falls into lines.
pub fn lines_are_read()
    ensures { LinesAreRead }
{}
