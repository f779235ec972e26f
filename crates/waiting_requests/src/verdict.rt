//! What a request is answered by what is known.

ghost use Rattle.std.specs.Prelude.{◌≡◌, List, Some, IfOk, OnErr, option_map};
ghost use Rattle.mc_model.specs.message.Chain.{taken_in};
ghost use Rattle.mc_model.specs.message.Decree.{Decree};
ghost use Rattle.node_model.specs.Answers.{answer_by, cancel_answer, cancel_decided, is_match, is_owner, query_shown};
ghost use Rattle.fate_chain.specs.Kinds.{final_of, kind_of};
ghost use Rattle.waiting_requests.specs.Replying.{ShowsChain, answer_given, answer_with};
ghost use Rattle.waiting_requests.specs.Showing.{IsAbout};
ghost use Rattle.waiting_requests.specs.Waiting.{request_of};

use crate::answer::Answer;
use crate::request::Request;
use fate_chain::{Chain, Final, Kind, Submission};
use pdu_codec::{AddressDigits, SystemId};
use std::alloc::AllocError;

/// What a request is answered by the chain of its message, without the chain.
#[derive(Clone, Copy, Debug, PartialEq, Eq)]
pub(crate) enum Verdict {
    Accepted,
    Shown,
    Removed,
    Kept,
    NotOwner,
    NotMatched,
}

impl Verdict {
    /// What a request is answered by the chain of its message: whether it was settled, and whether the chain reaches all that was told
    /// by a majority.
    pub(crate) fn of(
        request: &Request,
        settled: bool,
        reached: bool,
        chain: &Chain,
    ) -> Option<Verdict>
        ensures { option_map (answer_with chain.now.decrees) result ≡ answer_by (Some chain.now.decrees) reached settled (request_of request.now) }
    {
        match request {
            Request::Submit(_) => Some(Verdict::Accepted),
            Request::Query {
                account,
                source,
                ..
            } => {
                if reached {
                    Some(shown(chain, account, source))
                } else {
                    None
                }
            }
            Request::Cancel {
                account,
                source,
                destination,
                ..
            } => {
                if settled {
                    decided(chain, account, source, destination)
                } else {
                    None
                }
            }
        }
    }

    /// The answer, with the chain by which it is. An `Err` is want of memory, which only an answer that shows the chain needs.
    pub(crate) fn answer(self, chain: &Chain) -> Result<Answer, AllocError>
        ensures answer { IfOk result (λ answer. answer_given answer ≡ answer_with chain.now.decrees self) }
        ensures about { IfOk result (IsAbout chain.now.id) }
        ensures memory { OnErr result (ShowsChain (Some (answer_with chain.now.decrees self))) }
    {
        match self {
            Verdict::Accepted => Ok(Answer::Accepted),
            Verdict::Shown => Ok(Answer::Shown(chain.copy()?)),
            Verdict::Removed => Ok(Answer::Removed(chain.copy()?)),
            Verdict::Kept => Ok(Answer::Kept(chain.copy()?)),
            Verdict::NotOwner => Ok(Answer::NotOwner),
            Verdict::NotMatched => Ok(Answer::NotMatched(chain.copy()?)),
        }
    }
}

/// What a query_sm is answered by a chain.
fn shown(chain: &Chain, account: &SystemId, source: &AddressDigits) -> Verdict
    ensures { Some (answer_with chain.now.decrees result) ≡ query_shown account.now source.now chain.now.decrees (taken_in chain.now.decrees) }
{
    if is_owner(chain.submission(), account, source) {
        Verdict::Shown
    } else {
        Verdict::NotOwner
    }
}

/// What a cancel_sm that was settled is answered by a chain; nothing if its message is to be deleted first.
fn decided(
    chain: &Chain,
    account: &SystemId,
    source: &AddressDigits,
    destination: &AddressDigits,
) -> Option<Verdict>
    ensures { option_map (answer_with chain.now.decrees) result
        ≡ cancel_decided account.now source.now destination.now chain.now.decrees (taken_in chain.now.decrees) }
{
    if !is_match(chain.submission(), account, source, destination) {
        return Some(Verdict::NotMatched);
    }
    ended(chain.fate(), &chain.newest().kind)
}

/// What a cancel_sm is answered by the final state of its message, if it has one, and by the newest decree.
fn ended(last: Option<Final>, newest: &Kind) -> Option<Verdict>
    ensures { (chain : List Decree) → option_map (answer_with chain) result ≡ cancel_answer (option_map final_of last) (kind_of newest.now) chain }
{
    match (last, newest) {
        (Some(Final::Deleted), _) => Some(Verdict::Removed),
        (Some(_), _) => Some(Verdict::Kept),
        (None, Kind::Taken(_) | Kind::Failed(_)) => None,
        (None, _) => Some(Verdict::Kept),
    }
}

/// Whether the account and the source address are those of the message.
fn is_owner(message: &Submission, account: &SystemId, source: &AddressDigits) -> bool
    ensures { result ≡ is_owner message.now account.now source.now }
{
    message.submitter.octets() == account.octets()
        && message.source.digits.octets() == source.octets()
}

/// Whether they are, and so is the destination address, if it is not empty.
pub(crate) fn is_match(
    message: &Submission,
    account: &SystemId,
    source: &AddressDigits,
    destination: &AddressDigits,
) -> bool
    ensures { result ≡ is_match message.now account.now source.now destination.now }
{
    is_owner(message, account, source)
        && (destination.is_empty() || message.destination.digits.octets() == destination.octets())
}
