//! Decrees as they stand in octets. Only what makes a decree of one takes memory.

ghost use Rattle.std.specs.Prelude.{◌≡◌, IfOk};
ghost use Rattle.fate_chain.specs.Bytes.{party_fields, handling_fields, texts_at, message_at, kind_at, decree_at};
ghost use Rattle.octet_fields.specs.Reading.{IsRead, front_at};
ghost use Rattle.fate_chain.specs.Kinds.{kind_of};
ghost use Rattle.fate_chain.specs.Marks.{bare, bare_kind, IsMarkOf};
ghost use Rattle.fate_chain.specs.Octets.{parties_seen, handling_seen, texts_seen, message_seen, kind_seen, decree_seen, PartiesAreTexts};
ghost use Rattle.fate_chain.specs.Octets.{AreTexts, MessageHasTexts, HasTexts};

use crate::content::{Content, has_room};
use crate::decree::{Author, Decree, ErrorCode, Final, Kind};
use crate::fields::{
    error_at, incarnation_at, kind_at, message_text_at, moment_at, node_at, parameters_at, text_at,
};
use crate::format::Format;
use crate::marks::{Act, Mark};
use crate::shared_submission::SharedSubmission;
use crate::submission::Submission;
use crate::terms::Terms;
use mc_types::Moment;
use octet_fields::{Defect, octet_at};
use pdu_codec::{AddressOctets, Text};
use std::alloc::{AllocError, Global};

/// What was read, or its defect for the caller. The proof of `?` does not cover a value that holds one with an invariant.
macro_rules! read {
    ($read:expr) => {
        match $read {
            Ok(found) => found,
            Err(defect) => return Err(defect),
        }
    };
}

/// Between whom a message goes.
#[derive(Clone, Copy)]
pub struct Parties<'a> {
    submitter: &'a [u8],
    target: &'a [u8],
    service_type: &'a [u8],
    source: AddressOctets<'a>,
    destination: AddressOctets<'a>,
}

/// How a message is handled.
#[derive(Clone, Copy)]
pub struct Handling {
    esm_class: u8,
    protocol_id: u8,
    priority_flag: u8,
    registered_delivery: u8,
    data_coding: u8,
    schedule: Moment,
    expiry: Moment,
}

/// The text of a message, and the optional parameters that are passed on.
#[derive(Clone, Copy)]
pub struct Texts<'a> {
    text: &'a [u8],
    passed: &'a [u8],
}

/// A message that was taken.
#[derive(Clone, Copy)]
pub struct MessageOctets<'a> {
    parties: Parties<'a>,
    handling: Handling,
    texts: Texts<'a>,
}

/// What a decree decides.
#[derive(Clone, Copy)]
pub enum KindOctets<'a> {
    Taken(MessageOctets<'a>),
    Attempt(u8),
    Failed(ErrorCode),
    Fate(Final, ErrorCode),
    Told,
}

/// A decree.
#[derive(Clone, Copy)]
pub struct DecreeOctets<'a> {
    author: Author,
    moment: Moment,
    kind: KindOctets<'a>,
}

fn parties_at(octets: &[u8]) -> Result<(Parties<'_>, &[u8]), Defect>
    ensures read { IsRead (λ x. (parties_seen x.0, x.1.now)) result (front_at party_fields octets.now) }
    ensures texts { IfOk result (λ x. PartiesAreTexts x.0) }
{
    let (submitter, rest) = text_at(16, octets)?;
    let (target, rest) = text_at(16, rest)?;
    let (service_type, rest) = text_at(6, rest)?;
    let (source_ton, rest) = octet_at(rest)?;
    let (source_npi, rest) = octet_at(rest)?;
    let (source_digits, rest) = text_at(21, rest)?;
    let (destination_ton, rest) = octet_at(rest)?;
    let (destination_npi, rest) = octet_at(rest)?;
    let (destination_digits, rest) = text_at(21, rest)?;
    let parties = Parties {
        submitter,
        target,
        service_type,
        source: AddressOctets {
            ton: source_ton,
            npi: source_npi,
            digits: source_digits,
        },
        destination: AddressOctets {
            ton: destination_ton,
            npi: destination_npi,
            digits: destination_digits,
        },
    };
    Ok((parties, rest))
}

fn handling_at(octets: &[u8]) -> Result<(Handling, &[u8]), Defect>
    ensures { IsRead (λ x. (handling_seen x.0, x.1.now)) result (front_at handling_fields octets.now) }
{
    let (esm_class, rest) = octet_at(octets)?;
    let (protocol_id, rest) = octet_at(rest)?;
    let (priority_flag, rest) = octet_at(rest)?;
    let (registered_delivery, rest) = octet_at(rest)?;
    let (data_coding, rest) = octet_at(rest)?;
    let (schedule, rest) = read!(moment_at(rest));
    let (expiry, rest) = read!(moment_at(rest));
    let handling = Handling {
        esm_class,
        protocol_id,
        priority_flag,
        registered_delivery,
        data_coding,
        schedule,
        expiry,
    };
    Ok((handling, rest))
}

fn texts_at(format: Format, octets: &[u8]) -> Result<(Texts<'_>, &[u8]), Defect>
    ensures read { IsRead (λ x. (texts_seen x.0, x.1.now)) result (texts_at format octets.now) }
    ensures texts { IfOk result (λ x. AreTexts x.0) }
{
    let (text, rest) = message_text_at(format, octets)?;
    let (passed, rest) = parameters_at(rest)?;
    if !has_room(text, passed) {
        return Err(Defect::Unfit);
    }
    Ok((Texts { text, passed }, rest))
}

#[tactic(auto, unfolding(crate::specs::Bytes::message_at))]
fn message_at(format: Format, octets: &[u8]) -> Result<(MessageOctets<'_>, &[u8]), Defect>
    ensures read { IsRead (λ x. (message_seen x.0, x.1.now)) result (message_at format octets.now) }
    ensures texts { IfOk result (λ x. MessageHasTexts x.0) }
{
    let (parties, rest) = parties_at(octets)?;
    let (handling, rest) = read!(handling_at(rest));
    let (texts, rest) = texts_at(format, rest)?;
    let message = MessageOctets {
        parties,
        handling,
        texts,
    };
    Ok((message, rest))
}

/// What a decree of a kind of this number decides.
#[tactic(auto, unfolding(crate::specs::Bytes::kind_at))]
fn decided_at(format: Format, kind: u8, octets: &[u8]) -> Result<(KindOctets<'_>, &[u8]), Defect>
    ensures read { IsRead (λ x. (kind_seen x.0, x.1.now)) result (kind_at format kind octets.now) }
    ensures texts { IfOk result (λ x. HasTexts x.0) }
{
    match kind {
        1 => {
            let (message, rest) = read!(message_at(format, octets));
            Ok((KindOctets::Taken(message), rest))
        }
        2 => {
            let (number, rest) = octet_at(octets)?;
            Ok((KindOctets::Attempt(number), rest))
        }
        3 => {
            let (error, rest) = read!(error_at(octets));
            Ok((KindOctets::Failed(error), rest))
        }
        4 => {
            let (code, rest) = octet_at(octets)?;
            let (error, rest) = read!(error_at(rest));
            let Some(last) = Final::of_code(code) else {
                return Err(Defect::Unfit);
            };
            Ok((KindOctets::Fate(last, error), rest))
        }
        _ => Ok((KindOctets::Told, octets)),
    }
}

/// A decree at the front of octets, and the octets after it; none if there is none.
#[tactic(auto, unfolding(crate::specs::Bytes::decree_at))]
pub fn decree_at(format: Format, octets: &[u8]) -> Result<(DecreeOctets<'_>, &[u8]), Defect>
    ensures read { IsRead (λ x. (decree_seen x.0, x.1.now)) result (decree_at format octets.now) }
    ensures texts { IfOk result (λ x. HasTexts x.0.kind) }
{
    let (kind, rest) = kind_at(format, octets)?;
    let (node, rest) = read!(node_at(rest));
    let (incarnation, rest) = read!(incarnation_at(rest));
    let (moment, rest) = read!(moment_at(rest));
    let (kind, rest) = read!(decided_at(format, kind, rest));
    let decree = DecreeOctets {
        author: Author { node, incarnation },
        moment,
        kind,
    };
    Ok((decree, rest))
}

impl MessageOctets<'_> {
    /// The message.
    #[tactic(auto, unfolding(pdu_fields::specs::Tlv::tlvs_in))]
    fn message(&self, alloc: Global) -> Result<Submission, AllocError>
        requires { MessageHasTexts self.now }
        ensures { IfOk result (λ message. message ≡ message_seen self.now) }
    {
        let parties = &self.parties;
        let handling = &self.handling;
        Ok(Submission {
            submitter: Text::of(alloc, parties.submitter)?,
            target: Text::of(alloc, parties.target)?,
            service_type: Text::of(alloc, parties.service_type)?,
            source: parties.source.address(alloc)?,
            destination: parties.destination.address(alloc)?,
            esm_class: handling.esm_class,
            protocol_id: handling.protocol_id,
            priority_flag: handling.priority_flag,
            registered_delivery: handling.registered_delivery,
            data_coding: handling.data_coding,
            schedule: handling.schedule,
            expiry: handling.expiry,
            content: Content::read(alloc, self.texts.text, self.texts.passed)?,
        })
    }
}

impl KindOctets<'_> {
    fn act(&self) -> Act
        ensures { bare_kind result ≡ bare (kind_seen self.now) }
    {
        match self {
            KindOctets::Taken(message) => Act::Taken(Terms {
                schedule: message.handling.schedule,
                expiry: message.handling.expiry,
                registered_delivery: message.handling.registered_delivery,
            }),
            KindOctets::Attempt(number) => Act::Attempt(*number),
            KindOctets::Failed(_) => Act::Failed,
            KindOctets::Fate(last, _) => Act::Fate(*last),
            KindOctets::Told => Act::Told,
        }
    }

    fn kind(&self, alloc: Global) -> Result<Kind, AllocError>
        requires { HasTexts self.now }
        ensures { IfOk result (λ kind. kind_of kind ≡ kind_seen self.now) }
    {
        match self {
            KindOctets::Taken(message) => {
                let submission = message.message(alloc)?;
                Ok(Kind::Taken(SharedSubmission::make(alloc, submission)?))
            }
            KindOctets::Attempt(number) => Ok(Kind::Attempt(*number)),
            KindOctets::Failed(error) => Ok(Kind::Failed(*error)),
            KindOctets::Fate(last, error) => Ok(Kind::Fate(*last, *error)),
            KindOctets::Told => Ok(Kind::Told),
        }
    }
}

impl DecreeOctets<'_> {
    /// What of it decides which decree may follow.
    pub fn mark(&self) -> Mark
        ensures { IsMarkOf (decree_seen self.now) result }
    {
        Mark {
            author: self.author,
            moment: self.moment,
            act: self.kind.act(),
        }
    }

    /// The decree.
    pub fn decree(&self, alloc: Global) -> Result<Decree, AllocError>
        requires { HasTexts self.now.kind }
        ensures { IfOk result (λ decree. decree ≡ decree_seen self.now) }
    {
        Ok(Decree {
            author: self.author,
            moment: self.moment,
            kind: self.kind.kind(alloc)?,
        })
    }
}
