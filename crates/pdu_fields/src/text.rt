//! Texts that keep their limits.

ghost use Rattle.std.specs.Prelude.{◌≡◌, ◌↔◌, [], List, ℕ, IsSome, IsTrue, IfSome, IfOk, OnErr};
ghost use Rattle.std.specs.Cmp.{partial_equiv_from_equiv};
ghost use Rattle.std.specs.Cmp.Lexicographic.{nat_list_eq_equiv};
ghost use Rattle.std.specs.Str.{bytes_eq};
ghost use Rattle.pdu_fields.specs.Text.{IsText, IsShortMessage};

use pdu_tables::limits;
use std::alloc::{AllocError, Global};
use std::marker::Model;

/// A C-octet string (SMPP 3.4, section 3.1): fewer than `LIMIT` octets, none of them zero. On the wire a zero
/// octet follows, which the limit counts.
#[derive(Drop)]
pub struct Text<const LIMIT: usize> {
    octets: Vec<u8>,
}

impl<const LIMIT: usize> Model for Text<LIMIT> {
    ghost Value = { List ℕ };

    ghost view = { λ text. text.octets.items };

    ghost invariant = { λ text. IsText LIMIT text.octets.items };
}

impl<const LIMIT: usize> Text<LIMIT> {
    /// The text of these octets; none if they are `LIMIT` or more, or one of them is zero. An `Err` is want of memory,
    /// which only a text needs.
    pub fn make(alloc: Global, octets: &[u8]) -> Result<Option<Self>, AllocError>
        ensures made { IfOk result (λ made. IsSome made ↔ IsText LIMIT octets.now) }
        ensures text { IfOk result (λ made. IfSome made (λ text. text ≡ octets.now)) }
        ensures memory { OnErr result (IsText LIMIT octets.now) }
    {
        if octets.len() >= LIMIT || octets.contains(&0) {
            return Ok(None);
        }
        Ok(Some(Self::of(alloc, octets)?))
    }

    /// The text of octets that are one.
    pub fn of(alloc: Global, octets: &[u8]) -> Result<Self, AllocError>
        requires { IsText LIMIT octets.now }
        ensures { IfOk result (λ text. text ≡ octets.now) }
    {
        let octets = Vec::from_slice(alloc, octets)?;
        Ok(Text { octets })
    }

    /// Its octets, without the zero octet that ends it on the wire.
    pub fn octets(&self) -> &[u8]
        ensures octets { result.now ≡ self.now }
        ensures text { IsText LIMIT self.now }
    {
        self.octets.as_slice()
    }

    /// Whether it has no octet.
    pub fn is_empty(&self) -> bool
        ensures { IsTrue result ↔ (self.now ≡ []) }
    {
        self.octets.is_empty()
    }

    /// The same text once more.
    pub fn copy(&self) -> Result<Self, AllocError>
        ensures { IfOk result (λ text. text ≡ self.now) }
    {
        Ok(Text {
            octets: self.octets.clone()?,
        })
    }
}

/// Texts are equal whose octets are.
impl<const LIMIT: usize> PartialEq for Text<LIMIT> {
    ghost eq = { bytes_eq };

    ghost laws = { partial_equiv_from_equiv nat_list_eq_equiv };

    fn eq(&self, other: &Self) -> bool {
        self.octets == other.octets
    }
}

impl<const LIMIT: usize> Eq for Text<LIMIT> {
    ghost laws = { nat_list_eq_equiv };
}

/// A short_message (SMPP 3.4, section 5.2.22): at most 254 octets of any value.
#[derive(Drop)]
pub struct ShortMessage {
    octets: Vec<u8>,
}

impl Model for ShortMessage {
    ghost Value = { List ℕ };

    ghost view = { λ message. message.octets.items };

    ghost invariant = { λ message. IsShortMessage message.octets.items };
}

impl ShortMessage {
    /// The short message of these octets; none if they are more than 254. An `Err` is want of memory, which only a short
    /// message needs.
    pub fn make(alloc: Global, octets: &[u8]) -> Result<Option<Self>, AllocError>
        ensures made { IfOk result (λ made. IsSome made ↔ IsShortMessage octets.now) }
        ensures text { IfOk result (λ made. IfSome made (λ message. message ≡ octets.now)) }
        ensures memory { OnErr result (IsShortMessage octets.now) }
    {
        if octets.len() > limits::SHORT_MESSAGE {
            return Ok(None);
        }
        Ok(Some(Self::of(alloc, octets)?))
    }

    /// The short message of octets that are few enough.
    pub fn of(alloc: Global, octets: &[u8]) -> Result<Self, AllocError>
        requires { IsShortMessage octets.now }
        ensures { IfOk result (λ message. message ≡ octets.now) }
    {
        let octets = Vec::from_slice(alloc, octets)?;
        Ok(ShortMessage { octets })
    }

    /// Its octets.
    pub fn octets(&self) -> &[u8]
        ensures octets { result.now ≡ self.now }
        ensures short { IsShortMessage self.now }
    {
        self.octets.as_slice()
    }

    /// Its octets, to be kept. It takes no memory.
    pub fn into_octets(self) -> Vec<u8>
        ensures octets { result.items ≡ self }
        ensures short { IsShortMessage self }
    {
        self.octets
    }

    /// The same message once more.
    pub fn copy(&self) -> Result<Self, AllocError>
        ensures { IfOk result (λ message. message ≡ self.now) }
    {
        let octets = self.octets.clone()?;
        Ok(ShortMessage { octets })
    }
}

/// Short messages are equal whose octets are.
impl PartialEq for ShortMessage {
    ghost eq = { bytes_eq };

    ghost laws = { partial_equiv_from_equiv nat_list_eq_equiv };

    fn eq(&self, other: &Self) -> bool {
        self.octets == other.octets
    }
}

impl Eq for ShortMessage {
    ghost laws = { nat_list_eq_equiv };
}
