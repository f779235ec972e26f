//! Fields after octets. An `Err` is want of memory: then no octet follows those that were there.

ghost use Rattle.std.specs.Prelude.{◌≡◌, ◌<◌, ◌≤◌, ◌+◌, ◌^◌, ◌++◌, ◌∷◌, [], length, vec_capacity, OnOk, OnErr};
ghost use Rattle.std.specs.Int.{w16, to_be_bytes};
ghost use Rattle.octet_fields.specs.Texts.{IsOctets, AreOctets, joined};

use std::alloc::AllocError;

/// Octets, as they are.
pub fn put_octets(out: &mut Vec<u8>, octets: &[u8]) -> Result<(), AllocError>
    ensures ok { OnOk result (out.new.items ≡ out.old.items ++ octets.now) }
    ensures err { OnErr result (out.new.items ≡ out.old.items) }
    ensures octets { IsOctets octets.now }
{
    out.extend_from_slice(octets)
}

/// Octets after their number, which has one octet.
pub fn put_counted(out: &mut Vec<u8>, octets: &[u8]) -> Result<(), AllocError>
    requires { length octets.now < 2 ^ 8 }
    ensures ok { OnOk result (out.new.items ≡ out.old.items ++ (length octets.now ∷ octets.now)) }
    ensures err { OnErr result (out.new.items ≡ out.old.items) }
{
    put_both(out, &[octets.len() as u8], octets)
}

/// Octets after their number, which has two octets.
pub fn put_long_counted(out: &mut Vec<u8>, octets: &[u8]) -> Result<(), AllocError>
    requires { length octets.now < 2 ^ 16 }
    ensures ok { OnOk result (out.new.items
        ≡ out.old.items ++ (to_be_bytes w16 (length octets.now) ++ octets.now)) }
    ensures err { OnErr result (out.new.items ≡ out.old.items) }
{
    put_both(out, &(octets.len() as u16).to_be_bytes(), octets)
}

/// A number and the octets after it, both or none.
fn put_both(out: &mut Vec<u8>, number: &[u8], octets: &[u8]) -> Result<(), AllocError>
    requires { length number.now + length octets.now < 2 ^ 64 }
    ensures ok { OnOk result (out.new.items ≡ out.old.items ++ (number.now ++ octets.now)) }
    ensures err { OnErr result (out.new.items ≡ out.old.items) }
{
    out.reserve(number.len() + octets.len())?;
    out.extend_from_slice(number).unwrap();
    out.extend_from_slice(octets).unwrap();
    Ok(())
}

/// How many octets a piece has.
fn count_of(piece: &[u8]) -> usize
    ensures count { result ≡ length piece.now }
    ensures octets { IsOctets piece.now }
{
    piece.len()
}

/// How many octets the pieces have together.
pub fn length_of(pieces: &[&[u8]]) -> usize
    requires { length (joined pieces.now) < 2 ^ 64 }
    ensures count { result ≡ length (joined pieces.now) }
    ensures octets { AreOctets pieces.now }
{
    let mut count = 0;
    for piece in pieces {
        count += count_of(piece);
    }
    count
}

/// The octets of pieces, one after another, for which there is room. It takes no memory.
pub fn put_pieces(out: &mut Vec<u8>, pieces: &[&[u8]])
    requires { length out.old.items + length (joined pieces.now) ≤ vec_capacity out.old }
    ensures octets { out.new.items ≡ out.old.items ++ joined pieces.now }
    ensures room { vec_capacity out.old ≤ vec_capacity out.new }
{
    for piece in pieces {
        out.extend_from_slice(piece).unwrap();
    }
}
