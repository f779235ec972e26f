//! Optional parameters.

ghost use Rattle.std.specs.Prelude.{◌≡◌, ◌<◌, ◌≤◌, ◌+◌, ◌^◌, None, Some, [], ◌∷◌, ◌++◌, length, filter, IfOk, IsOk, OnOk, OnErr, MatchOption, ℕ, option_map};
ghost use Rattle.std.specs.Global.{Vec};
ghost use Rattle.pdu_fields.specs.Text.{AreOptional, tlv_octets, optional_octets, has_tag_among};
ghost use Rattle.pdu_fields.specs.Grammar.{optional_at};
ghost use Rattle.pdu_fields.specs.Tlv.{AreTlvs, tlvs_in, value_of};

use octet_fields::{put_pieces, tlv_at};
use std::alloc::{AllocError, Global};
use std::marker::Model;

/// The optional parameters of a PDU (SMPP 3.4, section 3.2.4.1), in their order: at most 7,000 octets, their tags and lengths
/// counted. They are kept as those octets, and seen as pairs of tag and value.
#[derive(Drop)]
pub struct Tlvs {
    octets: Vec<u8>,
}

impl Model for Tlvs {
    ghost use Rattle.std.specs.Prelude.{List, ℕ};
    ghost use Rattle.pdu_fields.specs.Tlv.{AreTlvs, tlvs_in};

    ghost Value = { List (ℕ × List ℕ) };

    ghost view = { λ list. tlvs_in list.octets.items };

    ghost invariant = { λ list. AreTlvs list.octets.items };
}

impl Tlvs {
    /// No optional parameter.
    pub fn empty(alloc: Global) -> Self
        ensures { result ≡ [] }
    {
        Tlvs {
            octets: Vec::new(alloc),
        }
    }

    /// The optional parameters that the octets are.
    pub fn of(alloc: Global, octets: &[u8]) -> Result<Self, AllocError>
        requires { IsOk (optional_at octets.now) }
        ensures { IfOk result (λ tlvs. optional_at octets.now ≡ Ok (tlvs, [])) }
    {
        let octets = Vec::from_slice(alloc, octets)?;
        Ok(Tlvs { octets })
    }

    /// Puts an optional parameter after the others. If there is no memory for it nothing changes.
    pub fn push(&mut self, tag: u16, value: &[u8]) -> Result<(), AllocError>
        requires { length (optional_octets self.old) + 4 + length value.now ≤ 7000 }
        ensures ok { OnOk result (self.new ≡ self.old ++ (tag, value.now) ∷ []) }
        ensures err { OnErr result (self.new ≡ self.old) }
    {
        put_tlv(&mut self.octets, tag, value)
    }

    /// Puts others after them. If there is no memory for that nothing changes.
    pub fn extend(&mut self, others: &Tlvs) -> Result<(), AllocError>
        requires { length (optional_octets self.old) + length (optional_octets others.now) ≤ 7000 }
        ensures ok { OnOk result (self.new ≡ self.old ++ others.now) }
        ensures err { OnErr result (self.new ≡ self.old) }
    {
        self.octets.extend_from_slice(others.octets())
    }

    /// Their octets: of each its tag, its length and its value.
    pub fn octets(&self) -> &[u8]
        ensures octets { result.now ≡ optional_octets self.now }
        ensures limits { AreOptional self.now }
    {
        &self.octets
    }

    /// The value of the first that has this tag.
    pub fn get(&self, tag: u16) -> Option<&[u8]>
        ensures { MatchOption result
            (value_of tag self.now ≡ None)
            (λ value. value_of tag self.now ≡ Some value.now) }
    {
        value_at(tag, &self.octets)
    }

    /// A copy of the value of the first that has this tag. It takes no memory if none has it.
    pub fn copy_of(&self, tag: u16) -> Result<Option<Vec<u8>>, AllocError>
        ensures value { IfOk result (λ copied. option_map (λ (octets : Vec ℕ). octets.items) copied ≡ value_of tag self.now) }
        ensures memory { value_of tag self.now ≡ None → IsOk result }
    {
        match self.get(tag) {
            Some(value) => Ok(Some(Vec::from_slice(*self.octets.allocator(), value)?)),
            None => Ok(None),
        }
    }

    /// The same optional parameters once more.
    pub fn copy(&self) -> Result<Self, AllocError>
        ensures { IfOk result (λ tlvs. tlvs ≡ self.now) }
    {
        let octets = self.octets.clone()?;
        Ok(Tlvs { octets })
    }

    /// Those that have one of these tags, in their order.
    pub fn with_tags(&self, tags: &[u16]) -> Result<Self, AllocError>
        ensures { IfOk result (λ kept. kept ≡ filter (has_tag_among tags.now) self.now) }
    {
        let octets = with_tags(*self.octets.allocator(), tags, &self.octets)?;
        Ok(Tlvs { octets })
    }
}

/// Optional parameters are equal that are as many, each with the tag and the value of the other.
impl PartialEq for Tlvs {
    ghost use Rattle.std.proofs.Common.{rules};
    ghost use Rattle.std.specs.Cmp.Rules.{comparing};
    ghost use Rattle.pdu_fields.specs.Text.{are_same_tlvs};

    ghost eq = { are_same_tlvs };

    ghost laws = { Prim.search (comparing, rules) };

    fn eq(&self, other: &Self) -> bool {
        self.octets == other.octets
    }
}

impl Eq for Tlvs {
    ghost use Rattle.std.proofs.Common.{rules};
    ghost use Rattle.std.specs.Cmp.Rules.{comparing};

    ghost laws = { Prim.search (comparing, rules) };
}

/// Appends an optional parameter.
fn put_tlv(out: &mut Vec<u8>, tag: u16, value: &[u8]) -> Result<(), AllocError>
    requires { length value.now < 2 ^ 16 }
    ensures ok { OnOk result (out.new.items ≡ out.old.items ++ tlv_octets (tag, value.now)) }
    ensures err { OnErr result (out.new.items ≡ out.old.items) }
{
    out.reserve(4 + value.len())?;
    let count = value.len() as u16;
    put_pieces(out, &[&tag.to_be_bytes(), &count.to_be_bytes(), value]);
    Ok(())
}

/// The value of the first of optional parameters that has this tag.
fn value_at(tag: u16, octets: &[u8]) -> Option<&[u8]>
    requires { AreTlvs octets.now }
    ensures { MatchOption result
        (value_of tag (tlvs_in octets.now) ≡ None)
        (λ value. value_of tag (tlvs_in octets.now) ≡ Some value.now) }
{
    let mut rest = octets;
    while let Some((first, value, after)) = tlv_at(rest) {
        if first == tag {
            return Some(value);
        }
        rest = after;
    }
    None
}

/// The octets of those optional parameters that have one of these tags.
fn with_tags(alloc: Global, tags: &[u16], octets: &[u8]) -> Result<Vec<u8>, AllocError>
    requires { AreTlvs octets.now }
    ensures { IfOk result (λ kept.
        kept.items ≡ optional_octets (filter (has_tag_among tags.now) (tlvs_in octets.now))) }
{
    let mut kept = Vec::new(alloc);
    let mut rest = octets;
    while let Some((tag, value, after)) = tlv_at(rest) {
        if tags.contains(&tag) {
            put_tlv(&mut kept, tag, value)?;
        }
        rest = after;
    }
    Ok(kept)
}
