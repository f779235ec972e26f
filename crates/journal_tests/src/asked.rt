//! The requests that are handed in.

use desk::Request;
use lines_of_tests::request;
use mc_types::MsgId;
use pdu_codec::{Cancel, Query, Text};
use std::alloc::Global;

/// A query_sm of this message, from its sender.
pub fn query(alloc: Global, id: MsgId) -> Option<Request> {
    let Request::Ask(query) = request(alloc, "query")? else {
        return None;
    };
    Some(Request::Ask(Query {
        message_id: Text::make(alloc, &id.text()).ok()??,
        source: query.source,
    }))
}

/// A cancel_sm of this message, from its sender.
pub fn cancel(alloc: Global, id: MsgId) -> Option<Request> {
    let Request::Cancel(cancel) = request(alloc, "cancel")? else {
        return None;
    };
    Some(Request::Cancel(Cancel {
        service_type: cancel.service_type,
        message_id: Text::make(alloc, &id.text()).ok()??,
        source: cancel.source,
        destination: cancel.destination,
    }))
}
