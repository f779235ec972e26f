//! The fields of chains at the front of octets, each with the octets after it. Nothing here takes memory.

ghost use Rattle.std.specs.Prelude.{◌≡◌, ◌≤◌, ◌↔◌, IsTrue, IfOk, length};
ghost use Rattle.pdu_codec.specs.Text.{IsText};
ghost use Rattle.fate_chain.specs.Content.{most_text};
ghost use Rattle.octet_fields.specs.Kinds.{Number, One, Two, Four, Eight, is_between, is_text};
ghost use Rattle.octet_fields.specs.Reading.{IsRead, content_at};
ghost use Rattle.mc_types.specs.Texts.{is_id};
ghost use Rattle.fate_chain.specs.Bytes as bytes;

use crate::decree::ErrorCode;
use crate::format::Format;
use mc_types::{Incarnation, Moment, MsgId, NodeNo};
use octet_fields::{Defect, counted_at, long_counted_at, octet_at, u16_at, u32_at, u64_at};
use pdu_codec::check_optional;

/// A format, by its number.
#[tactic(auto, unfolding(octet_fields::specs::Reading::content_at))]
pub fn format_at(octets: &[u8]) -> Result<(Format, &[u8]), Defect>
    ensures { IsRead (λ x. (bytes.format_number x.0, x.1.now)) result
        (content_at (Number One (is_between 1 2)) octets.now) }
{
    let (number, rest) = octet_at(octets)?;
    match number {
        1 => Ok((Format::First, rest)),
        2 => Ok((Format::Second, rest)),
        _ => Err(Defect::Unfit),
    }
}

/// The number of a kind of decree: 1 to 5, in format 1 to 4.
#[tactic(auto, unfolding(octet_fields::specs::Reading::content_at))]
pub fn kind_at(format: Format, octets: &[u8]) -> Result<(u8, &[u8]), Defect>
    ensures { IsRead (λ x. (x.0, x.1.now)) result
        (content_at (Number One (is_between 1 (bytes.most_kind format))) octets.now) }
{
    let (kind, rest) = octet_at(octets)?;
    if kind < 1 || kind > format.most_kind() {
        return Err(Defect::Unfit);
    }
    Ok((kind, rest))
}

/// A node.
#[tactic(auto, unfolding(octet_fields::specs::Reading::content_at))]
pub fn node_at(octets: &[u8]) -> Result<(NodeNo, &[u8]), Defect>
    ensures { IsRead (λ x. (x.0, x.1.now)) result
        (content_at (Number One (is_between 1 9)) octets.now) }
{
    let (number, rest) = octet_at(octets)?;
    let Ok(node) = NodeNo::make(number) else {
        return Err(Defect::Unfit);
    };
    Ok((node, rest))
}

/// An incarnation.
#[tactic(auto, unfolding(octet_fields::specs::Reading::content_at))]
pub fn incarnation_at(octets: &[u8]) -> Result<(Incarnation, &[u8]), Defect>
    ensures { IsRead (λ x. (x.0, x.1.now)) result
        (content_at (Number Two (is_between 1 9999)) octets.now) }
{
    let (number, rest) = u16_at(octets)?;
    let Ok(incarnation) = Incarnation::make(number) else {
        return Err(Defect::Unfit);
    };
    Ok((incarnation, rest))
}

/// A moment.
#[tactic(auto, unfolding(octet_fields::specs::Reading::content_at))]
pub fn moment_at(octets: &[u8]) -> Result<(Moment, &[u8]), Defect>
    ensures { IsRead (λ x. (x.0, x.1.now)) result
        (content_at (Number Four (is_between 946684800 4102444799)) octets.now) }
{
    let (seconds, rest) = u32_at(octets)?;
    let Ok(moment) = Moment::make(seconds) else {
        return Err(Defect::Unfit);
    };
    Ok((moment, rest))
}

/// An error.
#[tactic(auto, unfolding(octet_fields::specs::Reading::content_at))]
pub fn error_at(octets: &[u8]) -> Result<(ErrorCode, &[u8]), Defect>
    ensures { IsRead (λ x. (x.0, x.1.now)) result
        (content_at (Number Two (is_between 0 999)) octets.now) }
{
    let (number, rest) = u16_at(octets)?;
    let Some(error) = ErrorCode::make(number) else {
        return Err(Defect::Unfit);
    };
    Ok((error, rest))
}

/// The id of a message.
#[tactic(auto, unfolding(octet_fields::specs::Reading::content_at))]
pub fn id_at(octets: &[u8]) -> Result<(MsgId, &[u8]), Defect>
    ensures { IsRead (λ x. (x.0, x.1.now)) result (content_at (Number Eight is_id) octets.now) }
{
    let (number, rest) = u64_at(octets)?;
    let Ok(id) = MsgId::of_number(number) else {
        return Err(Defect::Unfit);
    };
    Ok((id, rest))
}

/// Whether the octets are a text below a limit.
fn is_text(limit: usize, octets: &[u8]) -> bool
    ensures test { result ≡ is_text limit octets.now }
    ensures text { IsTrue result ↔ IsText limit octets.now }
{
    octets.len() < limit && !octets.contains(&0)
}

/// A text below a limit, after the number of its octets.
#[tactic(auto, unfolding(octet_fields::specs::Reading::content_at))]
pub fn text_at(limit: usize, octets: &[u8]) -> Result<(&[u8], &[u8]), Defect>
    ensures read { IsRead (λ x. (x.0.now, x.1.now)) result
        (content_at (bytes.text limit).kind octets.now) }
    ensures text { IfOk result (λ x. IsText limit x.0.now) }
{
    let (text, rest) = counted_at(255, octets)?;
    if !is_text(limit, text) {
        return Err(Defect::Unfit);
    }
    Ok((text, rest))
}

/// The text of a message, after the number of its octets, which has one octet or two.
#[tactic(auto, unfolding(octet_fields::specs::Reading::content_at))]
pub fn message_text_at(format: Format, octets: &[u8]) -> Result<(&[u8], &[u8]), Defect>
    ensures read { IsRead (λ x. (x.0.now, x.1.now)) result
        (content_at (bytes.message_text format).kind octets.now) }
    ensures most { IfOk result (λ x. length x.0.now ≤ most_text) }
{
    match format {
        Format::First => counted_at(254, octets),
        Format::Second => long_counted_at(4096, octets),
    }
}

/// Whether the octets are optional parameters.
fn is_optional(octets: &[u8]) -> bool
    ensures { result ≡ bytes.is_optional octets.now }
{
    check_optional(octets).is_ok()
}

/// The octets of optional parameters, after their number.
#[tactic(auto, unfolding(octet_fields::specs::Reading::content_at))]
pub fn parameters_at(octets: &[u8]) -> Result<(&[u8], &[u8]), Defect>
    ensures read { IsRead (λ x. (x.0.now, x.1.now)) result
        (content_at bytes.parameters.kind octets.now) }
    ensures optional { IfOk result (λ x. IsTrue (bytes.is_optional x.0.now)) }
{
    let (parameters, rest) = long_counted_at(65535, octets)?;
    if !is_optional(parameters) {
        return Err(Defect::Unfit);
    }
    Ok((parameters, rest))
}
