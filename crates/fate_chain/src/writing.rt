//! From a chain to octets.

ghost use Rattle.std.specs.Prelude.{◌≡◌, ◌<◌, ◌≤◌, ◌++◌, ◌∷◌, [], length, reverse, IfOk, OnOk};
ghost use Rattle.std.specs.Int.{w16, w32, w64, to_be_bytes};
ghost use Rattle.pdu_codec.specs.Text.{IsText, AreOptional, optional_octets};
ghost use Rattle.fate_chain.specs.Bytes.{party_fields, parties_in, handling_fields, handling_in, text_fields, texts_in, head_fields};
ghost use Rattle.fate_chain.specs.Bytes.{chain_fields, kind_code, kind_octets, submission_octets, decree_octets, decrees_octets};
ghost use Rattle.fate_chain.specs.Bytes.{DecreeFits, DecreesFit, KindFits, MessageFits};
ghost use Rattle.octet_fields.specs.Kinds.{spellings, AreWithin};
ghost use Rattle.fate_chain.specs.Content.{IsContent};
ghost use Rattle.fate_chain.specs.Kinds.{author_of, kind_of};
ghost use Rattle.fate_chain.specs.declared.format.Format.TheVariants.{Second};
ghost use Rattle.mc_model.specs.message.Ids.{IsId, IsIncarnation, IsMoment, IsNode};

use crate::decree::{Author, Decree, Kind};
use crate::format::Format;
use crate::submission::Submission;
use mc_types::{Moment, MsgId};
use octet_fields::{put_counted, put_long_counted, put_octets};
use pdu_codec::{Address, Text, Tlvs};
use std::alloc::AllocError;

/// A text after the number of its octets.
fn put_text<const LIMIT: usize>(out: &mut Vec<u8>, text: &Text<LIMIT>) -> Result<(), AllocError>
    requires { LIMIT ≤ 256 }
    ensures ok { OnOk result (out.new.items ≡ out.old.items ++ (length text.now ∷ text.now)) }
    ensures text { IsText LIMIT text.now }
{
    put_counted(out, text.octets())
}

/// Optional parameters after the number of their octets.
fn put_optional(out: &mut Vec<u8>, tlvs: &Tlvs) -> Result<(), AllocError>
    ensures ok { OnOk result (out.new.items
        ≡ out.old.items ++ (to_be_bytes w16 (length (optional_octets tlvs.now)) ++ optional_octets tlvs.now)) }
    ensures limits { OnOk result (AreOptional tlvs.now) }
{
    put_long_counted(out, tlvs.octets())
}

/// TON, NPI and digits.
fn put_address(out: &mut Vec<u8>, address: &Address) -> Result<(), AllocError>
    ensures ok { OnOk result (out.new.items
        ≡ out.old.items ++ (address.now.ton ∷ address.now.npi ∷ length address.now.digits ∷ address.now.digits)) }
    ensures ton { OnOk result (address.now.ton < 256) }
    ensures npi { OnOk result (address.now.npi < 256) }
    ensures digits { OnOk result (IsText 21 address.now.digits) }
{
    put_octets(out, &[address.ton, address.npi])?;
    put_text(out, &address.digits)?;
    Ok(())
}

fn put_parties(out: &mut Vec<u8>, message: &Submission) -> Result<(), AllocError>
    ensures ok { OnOk result (out.new.items
        ≡ out.old.items ++ spellings party_fields (parties_in message.now)) }
    ensures limits { OnOk result (AreWithin party_fields (parties_in message.now)) }
{
    put_text(out, &message.submitter)?;
    put_text(out, &message.target)?;
    put_text(out, &message.service_type)?;
    put_address(out, &message.source)?;
    put_address(out, &message.destination)?;
    Ok(())
}

fn put_moment(out: &mut Vec<u8>, moment: Moment) -> Result<(), AllocError>
    ensures ok { OnOk result (out.new.items ≡ out.old.items ++ to_be_bytes w32 moment) }
    ensures range { IsMoment moment }
{
    put_octets(out, &moment.seconds().to_be_bytes())
}

fn put_handling(out: &mut Vec<u8>, message: &Submission) -> Result<(), AllocError>
    ensures ok { OnOk result (out.new.items
        ≡ out.old.items ++ spellings handling_fields (handling_in message.now)) }
    ensures limits { OnOk result (AreWithin handling_fields (handling_in message.now)) }
{
    put_octets(
        out,
        &[
            message.esm_class,
            message.protocol_id,
            message.priority_flag,
            message.registered_delivery,
            message.data_coding,
        ],
    )?;
    put_moment(out, message.schedule)?;
    put_moment(out, message.expiry)?;
    Ok(())
}

fn put_texts(out: &mut Vec<u8>, message: &Submission) -> Result<(), AllocError>
    ensures ok { OnOk result (out.new.items
        ≡ out.old.items ++ spellings (text_fields Second) (texts_in Second message.now)) }
    ensures content { OnOk result (IsContent message.now.text message.now.passed) }
    ensures passed { OnOk result (AreOptional message.now.passed) }
{
    put_long_counted(out, message.content.text())?;
    put_optional(out, message.content.passed())?;
    Ok(())
}

fn put_message(out: &mut Vec<u8>, message: &Submission) -> Result<(), AllocError>
    ensures ok { OnOk result (out.new.items ≡ out.old.items ++ submission_octets Second message.now) }
    ensures fits { OnOk result (MessageFits Second message.now) }
{
    put_parties(out, message)?;
    put_handling(out, message)?;
    put_texts(out, message)?;
    Ok(())
}

/// What a decree decides, without the number of its kind.
fn put_kind(out: &mut Vec<u8>, kind: &Kind) -> Result<(), AllocError>
    ensures ok { OnOk result (out.new.items ≡ out.old.items ++ kind_octets Second (kind_of kind.now)) }
    ensures fits { OnOk result (KindFits Second (kind_of kind.now)) }
{
    match kind {
        Kind::Taken(message) => put_message(out, message.submission()),
        Kind::Attempt(number) => put_octets(out, &[*number]),
        Kind::Failed(error) => put_octets(out, &error.number().to_be_bytes()),
        Kind::Fate(last, error) => {
            out.push(last.state().code())?;
            put_octets(out, &error.number().to_be_bytes())
        }
        Kind::Told => Ok(()),
    }
}

/// The number of a kind.
fn code_of(kind: &Kind) -> u8
    ensures { result ≡ kind_code (kind_of kind.now) }
{
    match kind {
        Kind::Taken(_) => 1,
        Kind::Attempt(_) => 2,
        Kind::Failed(_) => 3,
        Kind::Fate(_, _) => 4,
        Kind::Told => 5,
    }
}

/// The number of a kind, an author and a moment.
fn put_head(out: &mut Vec<u8>, kind: u8, author: Author, moment: Moment) -> Result<(), AllocError>
    ensures ok { OnOk result (out.new.items ≡ out.old.items
        ++ spellings (head_fields Second) (kind, (author.node, (author.incarnation, (moment, tt))))) }
    ensures node { OnOk result (IsNode author.node) }
    ensures incarnation { OnOk result (IsIncarnation author.incarnation) }
    ensures moment { OnOk result (IsMoment moment) }
{
    put_octets(out, &[kind, author.node.number()])?;
    put_octets(out, &author.incarnation.number().to_be_bytes())?;
    put_moment(out, moment)?;
    Ok(())
}

#[tactic(auto, unfolding(crate::specs::Bytes::decree_octets))]
fn put_decree(out: &mut Vec<u8>, decree: &Decree) -> Result<(), AllocError>
    ensures ok { OnOk result (out.new.items ≡ out.old.items ++ decree_octets Second decree.now) }
    ensures fits { OnOk result (DecreeFits Second decree.now) }
{
    put_head(out, code_of(&decree.kind), decree.author, decree.moment)?;
    put_kind(out, &decree.kind)?;
    Ok(())
}

/// Decrees, the oldest first.
pub fn put_decrees(out: &mut Vec<u8>, decrees: &[Decree]) -> Result<(), AllocError>
    ensures ok { OnOk result (out.new.items ≡ out.old.items ++ decrees_octets Second (reverse decrees.now)) }
    ensures fit { OnOk result (DecreesFit Second (reverse decrees.now)) }
{
    for decree in decrees {
        put_decree(out, decree)?;
    }
    Ok(())
}

/// The number of the format, and an id.
fn put_id(out: &mut Vec<u8>, id: MsgId) -> Result<(), AllocError>
    ensures ok { OnOk result (out.new.items ≡ out.old.items ++ (2 ∷ to_be_bytes w64 id)) }
    ensures id { IsId id }
{
    put_octets(out, &[Format::Second.number()])?;
    put_octets(out, &id.number().to_be_bytes())
}

/// The number of the format, an id, and how many decrees there are.
pub fn put_chain_head(out: &mut Vec<u8>, id: MsgId, count: u16) -> Result<(), AllocError>
    ensures ok { OnOk result (out.new.items ≡ out.old.items ++ spellings chain_fields (2, (id, (count, tt)))) }
    ensures id { OnOk result (IsId id) }
{
    put_id(out, id)?;
    put_octets(out, &count.to_be_bytes())?;
    Ok(())
}
