//! What a line says.

ghost use Rattle.std.specs.Prelude.{◌≡◌, ◌↔◌, ◌≤◌, List, ℕ, Option, Some, length, nat_le, IfOk, IfSome, OnErr, IsOk, IsTrue};
ghost use Rattle.std.specs.Option.{option_map, option_copied};
ghost use Rattle.std.specs.List.{list_all};
ghost use Rattle.std.specs.Char.{is_ascii_digit, is_ascii_hexdigit};
ghost use Rattle.hex.specs.Hex.{decode_of};
ghost use Rattle.mc_model.specs.message.Ids.{IsNode};
ghost use Rattle.mc_types.specs.Nodes.{has};
ghost use Rattle.script_lines.specs.Said.{
  Said,
  SaysOctets,
  Spells,
  crash_said,
  deliver_said,
  grant_said,
  named_said,
  names_within,
  nodes_said,
  nodes_with,
  octets_said,
  replay_said,
  restart_said,
  said_by,
  said_of,
  settle_said,
  side_in,
  tick_said,
  words_said,
};
ghost use Rattle.script_lines.specs.Said as spec;

use crate::octets::place_of;
use mc_types::{LAST_SERIAL, MOST_NODES, Moment, MsgId, NodeNo, NodeSet};
use std::alloc::{AllocError, Global};
use std::str;

/// The most octets that a line may have, its line feed not counted.
pub const MOST_OCTETS: usize = 20_000;

/// The highest number of a session.
const MOST_SESSION: u64 = 99;

/// What a line of a script says.
#[derive(Debug, PartialEq, Eq, Drop)]
pub enum Line {
    /// Nothing: it is empty, or begins with `#`.
    Skipped,
    /// `nodes N SERIAL`: so many nodes, 1 to 9, whose first messages have the serial, 1 to 99999; 1 if none is given.
    Nodes {
        count: u8,
        serial: u32,
    },
    /// `pdu NODE SESSION HEX`: the next octets of the stream of a session, 1 to 99, of a node.
    Octets {
        node: NodeNo,
        session: u8,
        octets: Vec<u8>,
    },
    /// `deliver NUMBER NODE`: the packet of this number comes to a node.
    Deliver {
        number: u64,
        node: NodeNo,
    },
    /// `crash NODE NUMBER before` or `after`: a node stops in the save of what comes of the packet of this number, before
    /// it is saved or after.
    Crash {
        node: NodeNo,
        number: u64,
        after: bool,
    },
    /// `tick NODE MOMENT`: at a node this moment has come.
    Tick {
        node: NodeNo,
        moment: Moment,
    },
    /// `grant NODE ID`: a node is asked for the attempt of the message of this id.
    Grant {
        node: NodeNo,
        id: MsgId,
    },
    /// `settle NODE ..`: packets come between these nodes, or between all nodes if none is listed.
    Settle {
        nodes: NodeSet,
    },
    /// `restart NODE`: a node starts anew.
    Restart {
        node: NodeNo,
    },
    /// `replay K`: all packets come again, so many times.
    Replay {
        count: u64,
    },
}

impl Line {
    /// Whether each node that the line names is one of the nodes from 1 to this one; `nodes N` names the nodes up to N.
    pub fn names_within(&self, most: usize) -> bool
        ensures { result ≡ names_within most (said_by self.now) }
    {
        match self {
            Line::Skipped | Line::Replay { .. } => true,
            Line::Nodes { count, .. } => *count as usize <= most,
            Line::Settle { nodes } => all_within(*nodes, most),
            Line::Octets { node, .. }
            | Line::Deliver { node, .. }
            | Line::Crash { node, .. }
            | Line::Tick { node, .. }
            | Line::Grant { node, .. }
            | Line::Restart { node } => node.number() as usize <= most,
        }
    }
}

/// Whether each of these nodes is one of the nodes from 1 to this one.
fn all_within(nodes: NodeSet, most: usize) -> bool
    ensures { result ≡ list_all (λ node. nat_le node most) (nodes_with (has nodes)) }
{
    for number in 1..=MOST_NODES {
        if most < number as usize && nodes.has(NodeNo::of(number)) {
            return false;
        }
    }
    true
}

/// What a line says, its line feed taken off; a bad line says nothing. An `Err` is want of memory, which octets need.
#[tactic(auto, unfolding(crate::specs::Said::said_of))]
pub fn read_line(alloc: Global, line: &[u8]) -> Result<Option<Line>, AllocError>
    ensures said { IfOk result (λ read. option_map said_by read ≡ said_of line.now) }
    ensures memory { OnErr result (SaysOctets (said_of line.now)) }
{
    if line.len() > MOST_OCTETS {
        return Ok(None);
    }
    if matches!(line, [] | [b'#', ..]) {
        return Ok(Some(Line::Skipped));
    }
    words_of(alloc, line)
}

/// What a line says by its words.
#[tactic(auto, unfolding(crate::specs::Said::words_said, crate::specs::Said::behind))]
fn words_of(alloc: Global, line: &[u8]) -> Result<Option<Line>, AllocError>
    ensures said { IfOk result (λ read. option_map said_by read ≡ words_said line.now) }
    ensures memory { OnErr result (SaysOctets (words_said line.now)) }
{
    if let Some(words) = behind(b"pdu", line) {
        return octets_of(alloc, words);
    }
    Ok(named_of(line))
}

/// What a line says by its first word, if that is not `pdu`.
#[tactic(auto, unfolding(crate::specs::Said::named_said, crate::specs::Said::behind))]
fn named_of(line: &[u8]) -> Option<Line>
    ensures { option_map said_by result ≡ named_said line.now }
{
    if let Some(words) = behind(b"nodes", line) {
        return nodes_of(words);
    }
    if let Some(words) = behind(b"deliver", line) {
        return deliver_of(words);
    }
    if let Some(words) = behind(b"crash", line) {
        return crash_of(words);
    }
    if let Some(words) = behind(b"tick", line) {
        return tick_of(words);
    }
    if let Some(words) = behind(b"grant", line) {
        return grant_of(words);
    }
    if let Some(words) = behind(b"settle", line) {
        return settle_of(words);
    }
    if let Some(words) = behind(b"restart", line) {
        return restart_of(words);
    }
    if let Some(words) = behind(b"replay", line) {
        return replay_of(words);
    }
    None
}

/// What stands after `nodes`: how many they are, and a serial or none.
#[tactic(auto, unfolding(crate::specs::Said::nodes_said))]
fn nodes_of(words: &[u8]) -> Option<Line>
    ensures { option_map said_by result ≡ nodes_said words.now }
{
    let (count, rest) = node_at(words)?;
    if rest.is_empty() {
        return Some(Line::Nodes { count, serial: 1 });
    }
    let (serial, rest) = number_at(1, LAST_SERIAL as u64, rest)?;
    if !rest.is_empty() {
        return None;
    }
    Some(Line::Nodes {
        count,
        serial: serial as u32,
    })
}

/// What stands after `pdu`: a node, a session and octets.
#[tactic(auto, unfolding(crate::specs::Said::octets_said))]
fn octets_of(alloc: Global, words: &[u8]) -> Result<Option<Line>, AllocError>
    ensures said { IfOk result (λ read. option_map said_by read ≡ octets_said words.now) }
    ensures memory { OnErr result (SaysOctets (octets_said words.now)) }
{
    let Some((node, session, digits)) = octets_parts(words) else {
        return Ok(None);
    };
    if !are_octets(digits) {
        return Ok(None);
    }
    let octets = hex::decode(alloc, digits).map_err(|_| AllocError)?;
    Ok(Some(Line::Octets {
        node: NodeNo::of(node),
        session,
        octets,
    }))
}

/// The node, the session and the digits after `pdu`.
#[tactic(auto, unfolding(crate::specs::Said::octets_parts))]
fn octets_parts(words: &[u8]) -> Option<(u8, u8, &[u8])>
    ensures value { option_map (λ p. (p.0, p.1, p.2.now)) result ≡ spec.octets_parts words.now }
    ensures range { IfSome result (λ p. IsNode p.0) }
{
    let (node, words) = node_at(words)?;
    let (session, words) = number_at(1, MOST_SESSION, words)?;
    let digits = behind(b" ", words)?;
    if digits.is_empty() {
        return None;
    }
    Some((node, session as u8, digits))
}

/// An even number of hex digits.
fn are_octets(digits: &[u8]) -> bool
    ensures { IsTrue result ↔ IsOk (decode_of digits.now) }
{
    digits.len() % 2 == 0 && are_hex_digits(digits)
}

/// What stands after `deliver`: the number of a packet, and a node.
#[tactic(auto, unfolding(crate::specs::Said::deliver_said))]
fn deliver_of(words: &[u8]) -> Option<Line>
    ensures { option_map said_by result ≡ deliver_said words.now }
{
    let (number, rest) = number_at(0, u64::MAX, words)?;
    let (node, rest) = node_at(rest)?;
    if !rest.is_empty() {
        return None;
    }
    Some(Line::Deliver {
        number,
        node: NodeNo::of(node),
    })
}

/// What stands after `crash`: a node, the number of a packet, and a side of the save.
#[tactic(auto, unfolding(crate::specs::Said::crash_said))]
fn crash_of(words: &[u8]) -> Option<Line>
    ensures { option_map said_by result ≡ crash_said words.now }
{
    let (node, rest) = node_at(words)?;
    let (number, rest) = number_at(0, u64::MAX, rest)?;
    let after = side_of(rest)?;
    Some(Line::Crash {
        node: NodeNo::of(node),
        number,
        after,
    })
}

/// The side of a save, after it or before, if nothing stands after its word.
fn side_of(text: &[u8]) -> Option<bool>
    ensures { result ≡ side_in text.now }
{
    if text == b" before".as_slice() {
        return Some(false);
    }
    if text == b" after".as_slice() {
        return Some(true);
    }
    None
}

/// What stands after `tick`: a node, and a moment, in whole seconds since 1970-01-01T00:00:00Z.
#[tactic(auto, unfolding(crate::specs::Said::tick_said, crate::specs::Said::number_at))]
fn tick_of(words: &[u8]) -> Option<Line>
    ensures { option_map said_by result ≡ tick_said words.now }
{
    let (node, rest) = node_at(words)?;
    let (seconds, rest) = number_at(0, u32::MAX as u64, rest)?;
    let moment = Moment::make(seconds as u32).ok()?;
    if !rest.is_empty() {
        return None;
    }
    Some(Line::Tick {
        node: NodeNo::of(node),
        moment,
    })
}

/// What stands after `grant`: a node, and the id of a message.
#[tactic(auto, unfolding(crate::specs::Said::grant_said))]
fn grant_of(words: &[u8]) -> Option<Line>
    ensures { option_map said_by result ≡ grant_said words.now }
{
    let (node, rest) = node_at(words)?;
    let word = behind(b" ", rest)?;
    let id = MsgId::read(word).ok()?;
    Some(Line::Grant {
        node: NodeNo::of(node),
        id,
    })
}

/// What stands after `settle`: nodes, as many as there are.
#[tactic(auto, unfolding(crate::specs::Said::settle_said))]
fn settle_of(words: &[u8]) -> Option<Line>
    ensures { option_map said_by result ≡ settle_said words.now }
{
    let mut nodes = NodeSet::empty();
    let mut rest = words;
    'listed: while !rest.is_empty() {
        let (node, behind_it) = node_at(rest)?;
        nodes.add(NodeNo::of(node));
        rest = behind_it;
    }
    Some(Line::Settle { nodes })
}

/// What stands after `restart`: a node alone.
#[tactic(auto, unfolding(crate::specs::Said::restart_said))]
fn restart_of(words: &[u8]) -> Option<Line>
    ensures { option_map said_by result ≡ restart_said words.now }
{
    let (node, rest) = node_at(words)?;
    if !rest.is_empty() {
        return None;
    }
    Some(Line::Restart {
        node: NodeNo::of(node),
    })
}

/// What stands after `replay`: how often.
#[tactic(auto, unfolding(crate::specs::Said::replay_said))]
fn replay_of(words: &[u8]) -> Option<Line>
    ensures { option_map said_by result ≡ replay_said words.now }
{
    let (count, rest) = number_at(0, u64::MAX, words)?;
    if !rest.is_empty() {
        return None;
    }
    Some(Line::Replay { count })
}

/// A space and the digit of a node, and what follows it.
#[tactic(auto, unfolding(crate::specs::Said::node_at))]
fn node_at(text: &[u8]) -> Option<(u8, &[u8])>
    ensures value { option_map (λ p. (p.0, p.1.now)) result ≡ spec.node_at text.now }
    ensures range { IfSome result (λ p. IsNode p.0) }
{
    match text {
        [b' ', digit @ b'1'..=b'9', rest @ ..] => Some((*digit - b'0', rest)),
        _ => None,
    }
}

/// What follows the front, if the text begins with it.
#[tactic(auto, unfolding(crate::specs::Said::behind))]
fn behind<'a>(front: &[u8], text: &'a [u8]) -> Option<&'a [u8]>
    ensures { option_copied result ≡ spec.behind front.now text.now }
{
    text.strip_prefix(front)
}

/// A space and a number of this range, and what follows it.
#[tactic(auto, unfolding(crate::specs::Said::number_at))]
fn number_at(least: u64, most: u64, text: &[u8]) -> Option<(u64, &[u8])>
    ensures value { option_map (λ p. (p.0, p.1.now)) result ≡ spec.number_at least most text.now }
    ensures range { IfSome result (λ p. (least ≤ p.0) × (p.0 ≤ most)) }
{
    let words = behind(b" ", text)?;
    let (word, rest) = words.split_at(word_len(words));
    let number = number_of(word)?;
    if number < least || most < number {
        return None;
    }
    Some((number, rest))
}

/// How many octets stand before the first space, or the end.
fn word_len(words: &[u8]) -> usize
    ensures value { result ≡ spec.word_len words.now }
    ensures within { result ≤ length words.now }
{
    place_of(b' ', words).unwrap_or(words.len())
}

/// The number that the digits are.
#[tactic(auto, unfolding(crate::specs::Said::number_of))]
fn number_of(word: &[u8]) -> Option<u64>
    ensures { result ≡ spec.number_of word.now }
{
    if !is_numeral(word) {
        return None;
    }
    str::from_utf8(word).ok()?.parse().ok()
}

/// Decimal digits, one at least, and no zero in front of others.
fn is_numeral(word: &[u8]) -> bool
    ensures { result ≡ spec.is_numeral word.now }
{
    match word {
        [] | [b'0', _, ..] => false,
        _ => are_digits(word),
    }
}

/// Each octet is a decimal digit.
fn are_digits(word: &[u8]) -> bool
    ensures { result ≡ list_all is_ascii_digit word.now }
{
    word.iter().all(|octet| octet.is_ascii_digit())
}

/// Each octet is a hex digit, in either case.
fn are_hex_digits(word: &[u8]) -> bool
    ensures { result ≡ list_all is_ascii_hexdigit word.now }
{
    word.iter().all(|octet| octet.is_ascii_hexdigit())
}

/// A line says what it spells, and nothing else says it.
pub fn spelled_so()
    ensures { (line : List ℕ) (said : Said) → (said_of line ≡ Some said) ↔ Spells said line }
{}
