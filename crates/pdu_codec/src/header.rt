//! The header of a PDU (SMPP 3.4, section 3.2).

ghost use Rattle.std.specs.Prelude.{◌≡◌, ◌≤◌, ◌+◌, ◌↔◌, length, IsSome, IfSome};
ghost use Rattle.pdu_fields.specs.Grammar as spec;

use pdu_tables::limits;

/// The four numbers with which a PDU begins.
#[derive(Clone, Copy, PartialEq, Eq)]
pub struct Header {
    /// command_length: the octets of the whole PDU.
    pub length: u32,
    /// command_id.
    pub command: u32,
    /// command_status.
    pub status: u32,
    /// sequence_number.
    pub sequence: u32,
}

/// The header with which the octets begin; none if they are fewer than 16.
pub fn read_header(octets: &[u8]) -> Option<Header>
    ensures whole { IsSome result ↔ (16 ≤ length octets.now) }
    ensures length { IfSome result (λ header. header.length ≡ spec.word_at 0 octets.now) }
    ensures command { IfSome result (λ header. header.command ≡ spec.word_at 4 octets.now) }
    ensures status { IfSome result (λ header. header.status ≡ spec.word_at 8 octets.now) }
    ensures sequence { IfSome result (λ header. header.sequence ≡ spec.word_at 12 octets.now) }
{
    if octets.len() < limits::HEADER {
        return None;
    }
    Some(Header {
        length: word_at(0, octets),
        command: word_at(4, octets),
        status: word_at(8, octets),
        sequence: word_at(12, octets),
    })
}

/// The number in the four octets at a place.
fn word_at(place: usize, octets: &[u8]) -> u32
    requires { place + 4 ≤ length octets.now }
    ensures { result ≡ spec.word_at place octets.now }
{
    let mut word = [0; 4];
    word.copy_from_slice(&octets[place..place + 4]);
    u32::from_be_bytes(word)
}
