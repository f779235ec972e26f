//! The fields of PDUs at the front of octets, each with the octets after it. Nothing here takes memory.

ghost use Rattle.std.specs.Prelude.{◌≡◌, [], IfOk, MatchResult, List, ℕ};
ghost use Rattle.octet_fields.specs.Reading.{content_at, told};
ghost use Rattle.octet_fields.specs.Reading as fields;
ghost use Rattle.pdu_fields.specs.Text.{IsText, IsShortMessage};
ghost use Rattle.pdu_fields.specs.Grammar as grammar;
ghost use Rattle.pdu_fields.specs.Grammar.{IsRead, text, octet, octet_parts, octets_from, front_at, short_message, optional_at};

use crate::fault::{Field, PduFault};
use octet_fields::{Defect, check_parameters};
use pdu_tables::limits;

/// A C-octet string: the octets before the first zero, which stands among the next `limit`.
pub fn text_at(field: Field, limit: usize, octets: &[u8]) -> Result<(&[u8], &[u8]), PduFault>
    ensures read { IsRead (λ x. (x.0.now, x.1.now)) result
        (told (text field limit).fault (content_at (text field limit).kind octets.now)) }
    ensures text { IfOk result (λ x. IsText limit x.0.now) }
{
    match octet_fields::text_at(limit, octets) {
        Ok(text) => Ok(text),
        Err(defect) => Err(text_fault(field, defect)),
    }
}

/// The fault that a defect of a text is.
fn text_fault(field: Field, defect: Defect) -> PduFault
    ensures { result ≡ grammar.text_fault field defect }
{
    match defect {
        Defect::Long => PduFault::LongText(field),
        _ => PduFault::Cut(field),
    }
}

/// One octet.
pub fn octet_at(field: Field, octets: &[u8]) -> Result<(u8, &[u8]), PduFault>
    ensures { IsRead (λ x. (x.0, x.1.now)) result
        (told (octet field).fault (content_at (octet field).kind octets.now)) }
{
    match octet_fields::octet_at(octets) {
        Ok(octet) => Ok(octet),
        Err(_) => Err(PduFault::Cut(field)),
    }
}

/// Octets one after another, each of them one of these fields.
pub fn octets_at<const N: usize>(
    fields: [Field; N],
    octets: &[u8],
) -> Result<([u8; N], &[u8]), PduFault>
    ensures { IsRead (λ x. (octets_from 0 fields.entry x.0, x.1.now)) result (front_at (octet_parts fields.entry) octets.now) }
{
    match octets.split_first_chunk::<N>() {
        Some((found, rest)) => Ok((*found, rest)),
        None => Err(PduFault::Cut(fields[octets.len()])),
    }
}

/// sm_length, and as many octets.
pub fn counted_at(octets: &[u8]) -> Result<(&[u8], &[u8]), PduFault>
    ensures read { IsRead (λ x. (x.0.now, x.1.now)) result
        (told short_message.fault (content_at short_message.kind octets.now)) }
    ensures short { IfOk result (λ x. IsShortMessage x.0.now) }
{
    match octet_fields::counted_at(limits::SHORT_MESSAGE, octets) {
        Ok(message) => Ok(message),
        Err(defect) => Err(message_fault(defect)),
    }
}

/// The fault that a defect of sm_length and short_message is.
fn message_fault(defect: Defect) -> PduFault
    ensures { result ≡ grammar.message_fault defect }
{
    match defect {
        Defect::Cut => PduFault::Cut(Field::SmLength),
        Defect::Few => PduFault::Cut(Field::ShortMessage),
        _ => PduFault::TextLength,
    }
}

/// No octet.
pub fn nothing_at(octets: &[u8]) -> Result<(), PduFault>
    ensures { IsRead (λ x. x) result (fields.nothing_at PduFault.Extra octets.now) }
{
    match octet_fields::nothing_at(octets) {
        Ok(()) => Ok(()),
        Err(_) => Err(PduFault::Extra),
    }
}

/// Optional parameters, of at most 7,000 octets, and nothing after them.
pub fn check_optional(octets: &[u8]) -> Result<(), PduFault>
    ensures { MatchResult result
        (λ _. (tlvs : List (ℕ × List ℕ)) × (optional_at octets.now ≡ Ok (tlvs, [])))
        (λ fault. optional_at octets.now ≡ Err fault) }
{
    match check_parameters(limits::OPTIONAL_PARAMETERS, octets) {
        Ok(()) => Ok(()),
        Err(_) => Err(PduFault::Tlvs),
    }
}
