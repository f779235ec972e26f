//! The lines that are written.

ghost use Rattle.std.specs.Fmt.{decimal};
ghost use Rattle.std.specs.Prelude.{◌≡◌, ◌++◌, codes, OnOk};
ghost use Rattle.sessions.specs.Responses.{pdu_of};
ghost use Rattle.script_text.specs.Prints.{declined_line, gone_line, octets_line, pdu_line, text_at, ungranted_line, unsettled_line};
ghost use Rattle.script_text.specs.Runner.{gone_prints};
ghost use Rattle.script_site.specs.Written.{IsWritten};
ghost use Rattle.hex.specs.Hex.{encode_lower};

use crate::session_place::SessionPlace;
use esme_service::{Sending, Service};
use itoa::Buffer;
use mc_types::NodeNo;
use pdu_codec::SystemId;
use sessions::Outgoing;
use std::alloc::AllocError;

/// What of a line is no digit of an octet: the words, a node, a session of three digits and the line feed.
const LINE_WORDS: usize = 11;

/// Adds the line of a response that goes out in the step of its request, of a centre with this system_id.
pub(crate) fn write_outgoing(
    text: &mut Vec<u8>,
    place: SessionPlace,
    system_id: &SystemId,
    outgoing: Outgoing,
) -> Result<(), AllocError>
    ensures { OnOk result (text.new.items ≡ text.old.items ++ pdu_line place.node place.number (pdu_of system_id.now outgoing)) }
{
    let octets = outgoing.octets(*text.allocator(), system_id)?;
    write_octets(text, place, &octets)
}

/// Adds the line of what goes out on a session by what the node gave out; nothing if it has no octets.
pub(crate) fn write_sending(
    text: &mut Vec<u8>,
    node: NodeNo,
    sending: &Sending,
) -> Result<(), AllocError>
    ensures { OnOk result (IsWritten node sending.now text.old.items text.new.items) }
{
    let Some(octets) = sending.octets(*text.allocator())? else {
        return Ok(());
    };
    let place = SessionPlace {
        node,
        number: sending.number(),
    };
    write_octets(text, place, &octets)
}

/// Adds the line of a PDU of these octets. It makes room for the line once.
fn write_octets(text: &mut Vec<u8>, place: SessionPlace, octets: &[u8]) -> Result<(), AllocError>
    ensures { OnOk result (text.new.items ≡ text.old.items ++ octets_line place.node place.number octets.now) }
{
    text.reserve(octets.len().saturating_mul(2).saturating_add(LINE_WORDS))?;
    text.extend_from_slice(b"pdu ")?;
    write_place(text, place)?;
    text.push(b' ')?;
    write_digits(text, octets)?;
    text.push(b'\n')?;
    Ok(())
}

/// Adds the number of the node of a session, a space, and the number of the session.
fn write_place(text: &mut Vec<u8>, place: SessionPlace) -> Result<(), AllocError>
    ensures { OnOk result (text.new.items ≡ text.old.items ++ decimal place.node ++ codes " " ++ decimal place.number) }
{
    text.extend_from_slice(Buffer::new().format(place.node.number()).as_bytes())?;
    text.push(b' ')?;
    text.extend_from_slice(Buffer::new().format(place.number).as_bytes())
}

/// Adds two digits for each octet.
fn write_digits(text: &mut Vec<u8>, octets: &[u8]) -> Result<(), AllocError>
    ensures { OnOk result (text.new.items ≡ text.old.items ++ encode_lower octets.now) }
{
    for octet in octets {
        let mut digits = [0; 2];
        hex::encode_to_slice([*octet], &mut digits).unwrap();
        text.extend_from_slice(&digits)?;
    }
    Ok(())
}

/// Adds the line that tells that a session is gone.
pub(crate) fn write_gone(text: &mut Vec<u8>, place: SessionPlace) -> Result<(), AllocError>
    ensures { OnOk result (text.new.items ≡ text.old.items ++ gone_line place.node place.number) }
{
    text.extend_from_slice(b"gone ")?;
    write_place(text, place)?;
    text.push(b'\n')?;
    Ok(())
}

/// Adds the line that tells that a settle has delivered as many packets as it may.
pub fn write_unsettled(text: &mut Vec<u8>) -> Result<(), AllocError>
    ensures { OnOk result (text.new.items ≡ text.old.items ++ unsettled_line) }
{
    text.extend_from_slice(b"unsettled\n")
}

/// Adds the line that tells that what a line asks for is refused, by the number of the refusal.
pub fn write_declined(text: &mut Vec<u8>, number: u8) -> Result<(), AllocError>
    ensures { OnOk result (text.new.items ≡ text.old.items ++ declined_line number) }
{
    text.extend_from_slice(b"refused ")?;
    text.extend_from_slice(Buffer::new().format(number).as_bytes())?;
    text.push(b'\n')?;
    Ok(())
}

/// Adds the line that tells that an attempt is not granted, by the number of the reason.
pub(crate) fn write_ungranted(text: &mut Vec<u8>, reason: u8) -> Result<(), AllocError>
    ensures { OnOk result (text.new.items ≡ text.old.items ++ ungranted_line reason) }
{
    text.extend_from_slice(b"refused 3 ")?;
    text.extend_from_slice(Buffer::new().format(reason).as_bytes())?;
    text.push(b'\n')?;
    Ok(())
}

/// Adds the line of each of these sessions that it is gone.
pub(crate) fn write_all_gone(
    text: &mut Vec<u8>,
    node: NodeNo,
    service: &Service,
) -> Result<(), AllocError>
    ensures { OnOk result (text.new.items ≡ text.old.items ++ text_at node (gone_prints service.now.sessions)) }
{
    for (number, _) in service.sessions() {
        let place = SessionPlace {
            node,
            number: *number,
        };
        write_gone(text, place)?;
    }
    Ok(())
}
