//! Answers.

ghost use Rattle.std.specs.Prelude.{◌≡◌, ◌↔◌, IfOk, IsTrue};
ghost use Rattle.waiting_requests.specs.Showing.{IsAbout};

use fate_chain::Chain;
use mc_types::MsgId;
use std::alloc::AllocError;

/// What a request that waited is answered (SMPP 3.4, sections 4.4.2, 4.8.2 and 4.9.2).
#[derive(Drop)]
pub enum Answer {
    /// The message of the submit_sm is taken.
    Accepted,
    /// The query_sm is shown the state of this chain.
    Shown(Chain),
    /// The message of the cancel_sm is deleted, by this chain.
    Removed(Chain),
    /// The message of the cancel_sm stays as it is, by this chain.
    Kept(Chain),
    /// The message of the query_sm is another's.
    NotOwner,
    /// The cancel_sm does not match the message of this chain.
    NotMatched(Chain),
    /// There is no such message.
    Unknown,
    /// The request waited for 30 seconds.
    TooLate,
}

impl Answer {
    /// Whether it is the same answer as the other: of the same kind, with the same chain. It takes no memory.
    pub fn is(&self, other: &Answer) -> bool
        ensures { IsTrue result ↔ (self.now ≡ other.now) }
    {
        match (self, other) {
            (Answer::Shown(chain), Answer::Shown(other))
            | (Answer::Removed(chain), Answer::Removed(other))
            | (Answer::Kept(chain), Answer::Kept(other))
            | (Answer::NotMatched(chain), Answer::NotMatched(other)) => chain.is(other),
            (Answer::Accepted, Answer::Accepted)
            | (Answer::NotOwner, Answer::NotOwner)
            | (Answer::Unknown, Answer::Unknown)
            | (Answer::TooLate, Answer::TooLate) => true,
            _ => false,
        }
    }

    /// The same answer once more. An `Err` is want of memory.
    pub fn copy(&self) -> Result<Answer, AllocError>
        ensures { IfOk result (λ copy. copy ≡ self.now) }
    {
        match self {
            Answer::Accepted => Ok(Answer::Accepted),
            Answer::Shown(chain) => Ok(Answer::Shown(chain.copy()?)),
            Answer::Removed(chain) => Ok(Answer::Removed(chain.copy()?)),
            Answer::Kept(chain) => Ok(Answer::Kept(chain.copy()?)),
            Answer::NotOwner => Ok(Answer::NotOwner),
            Answer::NotMatched(chain) => Ok(Answer::NotMatched(chain.copy()?)),
            Answer::Unknown => Ok(Answer::Unknown),
            Answer::TooLate => Ok(Answer::TooLate),
        }
    }
}

/// The answer to the request of a ticket, about the message of an id. It shows no chain of another message. Only a request that waits gives one, by what it
/// was told and what is known (`Held::reply_now`, `Queue::replies`, `Queue::late`), but for the one that tells that it is too late.
#[derive(Drop)]
pub struct Reply {
    pub(crate) ticket: u64,
    pub(crate) id: MsgId,
    pub(crate) answer: Answer,
    pub ghost about: { IsAbout id answer },
}

impl Reply {
    ghost use Rattle.mc_model.specs.node.Replies.{TooLate};
    ghost use Rattle.waiting_requests.specs.Replying.{reply_given};

    /// It is too late to answer the request of a ticket, which is about the message of an id.
    pub fn too_late(ticket: u64, id: MsgId) -> Reply
        ensures { reply_given result ≡ record { ticket = ticket; id = id; answer = TooLate } }
    {
        Reply {
            ticket,
            id,
            answer: Answer::TooLate,
        }
    }

    /// The ticket of the request.
    pub fn ticket(&self) -> u64
        ensures { result ≡ self.now.ticket }
    {
        self.ticket
    }

    /// The id of the message that the request is about.
    pub fn id(&self) -> MsgId
        ensures { result ≡ self.now.id }
    {
        self.id
    }

    /// What the request is answered.
    pub fn answer(&self) -> &Answer
        ensures { result.now ≡ self.now.answer }
    {
        &self.answer
    }

    /// Whether it is the same reply as the other: to the request of the same ticket, with the same answer about the same id. It takes no
    /// memory.
    pub fn is(&self, other: &Reply) -> bool
        ensures { IsTrue result ↔ (self.now ≡ other.now) }
    {
        self.ticket == other.ticket && self.id == other.id && self.answer.is(&other.answer)
    }

    /// The same reply once more. An `Err` is want of memory.
    pub fn copy(&self) -> Result<Reply, AllocError>
        ensures { IfOk result (λ copy. copy ≡ self.now) }
    {
        Ok(Reply {
            ticket: self.ticket,
            id: self.id,
            answer: self.answer.copy()?,
        })
    }
}
