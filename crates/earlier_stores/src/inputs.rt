//! What comes to a node.

use desk::Request;
use lines_of_tests::input_of;
use mc_types::MsgId;
use node_core::Input;
use pdu_codec::Text;
use std::alloc::Global;

/// What comes by a word and the rest of its line: a `tick`; or, of the message whose id the rest begins with, a `query` of sme1, a `grant`, or what came of the
/// attempt of the number behind it, `delivered` or `rejected`.
pub fn input(alloc: Global, word: &str, rest: &str) -> Option<Input> {
    if word == "tick" {
        return input_of(alloc, word, rest);
    }
    let (id, number) = rest.split_once(' ').unwrap_or((rest, ""));
    let id = MsgId::read(id.as_bytes()).ok()?;
    match word {
        "grant" => Some(Input::Grant(id)),
        "query" => asked(alloc, id),
        _ => answered(alloc, word, number, id),
    }
}

/// What came of an attempt of this message.
fn answered(alloc: Global, word: &str, number: &str, id: MsgId) -> Option<Input> {
    let mut input = input_of(alloc, word, number)?;
    if let Input::Answered(slot, _) = &mut input {
        slot.id = id;
    }
    Some(input)
}

/// A query_sm of this message.
fn asked(alloc: Global, id: MsgId) -> Option<Input> {
    let Ok(Some(text)) = Text::make(alloc, &id.text()) else {
        return None;
    };
    let mut input = input_of(alloc, "query", "")?;
    if let Input::Request(_, Request::Ask(query)) = &mut input {
        query.message_id = text;
    }
    Some(input)
}
