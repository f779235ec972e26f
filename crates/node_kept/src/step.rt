//! A step that is prepared.

use crate::queue_change::QueueChange;
use mc_types::{Moment, MsgId};
use node_parts::{Message, MessageRoom, Outputs, Reach, Recount};
use synod_acceptor::{Change, RecordRoom};

/// A message that takes the place of what is kept of its id.
#[derive(Drop)]
pub struct Put {
    pub id: MsgId,
    pub message: Box<Message>,
}

/// How a vote on the message of an id is counted, if its chain was voted for at its ballot before.
#[derive(Clone, Copy)]
pub struct Counted {
    pub id: MsgId,
    pub recount: Recount,
}

/// What a step does that gives nothing out and saves nothing: it counts a vote anew, if there is one to be counted, and no more.
#[derive(Clone, Copy)]
pub(crate) struct QuietStep {
    pub counted: Option<Counted>,
}

/// What is kept after a step: the clock, the serial of the next message, how many tickets are given, the vote that is counted anew, if one is,
/// whether all rounds end, what becomes of the requests that wait, and then each message that is not kept as it was, with room for them, if
/// room is wanted. Of several messages of an id the first counts. Then comes the change that is made in the records of one message, if there is one,
/// which is saved before anything is kept, with room for its record. A tick has what it was told of accounts and of messages: for these it is noted
/// until when messages sleep.
#[derive(Drop)]
pub struct Next {
    pub clock: Moment,
    pub serial: u32,
    pub given: u64,
    pub counted: Option<Counted>,
    pub drops_rounds: bool,
    pub queue: QueueChange,
    pub messages: Vec<Put>,
    pub room: Option<MessageRoom>,
    pub change: Option<Change>,
    pub records: RecordRoom,
    pub reach: Option<Reach>,
}

/// What a step gives out, and what is kept after it.
#[derive(Drop)]
pub struct Step {
    pub outputs: Outputs,
    pub next: Next,
}
