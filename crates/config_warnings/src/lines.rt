//! In which line of a text a name comes.

ghost use Rattle.std.specs.Prelude.{◌≡◌, ◌≤◌, ◌<◌, ℕ, Some, length, slice_get, take, IfOk, IfSome, IsTrue, MatchBool, MatchOption};
ghost use Rattle.toml.specs.View.{view};
ghost use Rattle.config.specs.Config.{IsDocument};
ghost use Rattle.config_warnings.specs.Lines as spec;

use crate::section::Section;
use crate::tables::tables_in;
use std::alloc::{AllocError, Global};
use toml::Value;

/// A name, and in which table of which section it stands: the first table of a section is 0.
#[derive(Clone, Copy)]
pub struct Named<'a> {
    pub section: Section,
    pub row: usize,
    pub name: &'a str,
}

/// The number of a line, from 1, in which a name comes: the TOML text before it does not have the name, and with it has. None if no line is found, as of a
/// value that goes over several lines. An `Err` is want of memory.
pub fn line_of(alloc: Global, octets: &[u8], named: Named<'_>) -> Result<Option<usize>, AllocError>
    ensures { IfOk result (λ line. IfSome line (spec.IsLineOf octets.now named.entry)) }
{
    let mut start = 0;
    for _line in 0..=octets.len() {
        if start >= octets.len() {
            return Ok(None);
        }
        let end = end_of_line(octets, start);
        if is_within(&octets[start..end], named.name)
            && comes_between(alloc, octets, start, end, named)?
        {
            return Ok(Some(line_at(octets, start)));
        }
        start = end.saturating_add(1);
    }
    Ok(None)
}

/// Where the line ends in which an octet stands.
fn end_of_line(octets: &[u8], start: usize) -> usize
    requires { start ≤ length octets.now }
    ensures least { start ≤ result }
    ensures most { result ≤ length octets.now }
    ensures single { (place : ℕ) → start ≤ place → place < result → ¬ (slice_get octets.now place ≡ Some 10) }
{
    for end in start..octets.len() {
        if octets[end] == b'\n' {
            return end;
        }
    }
    octets.len()
}

/// The number of the line, from 1, in which an octet stands.
fn line_at(octets: &[u8], place: usize) -> usize
    requires { place ≤ length octets.now }
    ensures { result ≡ spec.line_at octets.now place }
{
    newlines(&octets[..place]) + 1
}

/// How many lines end in octets.
fn newlines(octets: &[u8]) -> usize
    ensures count { result ≡ spec.newlines octets.now }
    ensures few { result ≤ length octets.now }
{
    let mut count = 0;
    for octet in octets {
        if *octet == b'\n' {
            count += 1;
        }
    }
    count
}

/// Whether octets have a name among them.
fn is_within(octets: &[u8], name: &str) -> bool {
    let name = name.as_bytes();
    name.is_empty() || octets.windows(name.len()).any(|octets| octets == name)
}

/// Whether a name comes behind one place of a text, and before another.
fn comes_between(
    alloc: Global,
    octets: &[u8],
    start: usize,
    end: usize,
    named: Named<'_>,
) -> Result<bool, AllocError>
    requires start { start ≤ length octets.now }
    requires end { end ≤ length octets.now }
    ensures { IfOk result (λ comes. IsTrue comes → ¬ spec.Tells (take start octets.now) named.entry × spec.Tells (take end octets.now) named.entry) }
{
    Ok(tells(alloc, &octets[..end], named)? && !tells(alloc, &octets[..start], named)?)
}

/// Whether octets are TOML that has a name.
fn tells(alloc: Global, octets: &[u8], named: Named<'_>) -> Result<bool, AllocError>
    ensures { IfOk result (λ tells. MatchBool tells (spec.Tells octets.now named.entry) (¬ spec.Tells octets.now named.entry)) }
{
    match document_of(alloc, octets)? {
        Some(document) => Ok(has_name(&document, named)),
        None => Ok(false),
    }
}

/// The table of octets, if they are TOML.
fn document_of(alloc: Global, octets: &[u8]) -> Result<Option<Value>, AllocError>
    ensures { IfOk result (λ read. MatchOption read (spec.IsNone octets.now) (λ document. IsDocument octets.now (view document))) }
{
    match toml::table_from_slice(alloc, octets) {
        Ok(members) => Ok(Some(Value::Table(members))),
        Err(error) if error.is_memory() => Err(AllocError),
        Err(_) => Ok(None),
    }
}

/// Whether a document has a name.
fn has_name(document: &Value, named: Named<'_>) -> bool
    ensures { result ≡ spec.has_name (view document.now) named.entry }
{
    match tables_in(document, named.section).get(named.row) {
        Some(table) => table.get(named.name).is_some(),
        None => false,
    }
}
