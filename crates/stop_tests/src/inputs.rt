//! What comes to a node.

use desk::Request;
use lines_of_tests::input_of;
use mc_types::MsgId;
use node_core::Input;
use pdu_codec::Text;
use std::alloc::Global;
use std::process::Abort;

// What comes by a word and the rest of its line. It is of this message.
pub fn input(rt: &impl Abort, alloc: Global, id: MsgId, word: &str, rest: &str) -> Input {
    if word == "grant" {
        return Input::Grant(id);
    }
    let mut input = input_of(alloc, word, rest).expect(rt, "an input");
    speak_of(rt, alloc, &mut input, id);
    input
}

// What came of an attempt, and a query_sm, are of this message.
fn speak_of(rt: &impl Abort, alloc: Global, input: &mut Input, id: MsgId) {
    match input {
        Input::Answered(slot, _) => slot.id = id,
        Input::Request(_, request) => ask_of(rt, alloc, request, id),
        _ => {}
    }
}

fn ask_of(rt: &impl Abort, alloc: Global, request: &mut Request, id: MsgId) {
    if let Request::Ask(query) = request {
        let text = Text::make(alloc, &id.text()).expect(rt, "memory");
        query.message_id = text.expect(rt, "a text");
    }
}
