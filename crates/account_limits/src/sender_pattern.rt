//! Which senders an account may name.

ghost use Rattle.std.specs.Prelude.{◌≡◌};
ghost use Rattle.std.specs.List.{list_any};
ghost use Rattle.account_limits.specs.Senders as spec;

use crate::sender_fault::SenderFault;
use std::alloc::Global;

/// The most octets of a source_addr, the zero at its end not counted (SMPP 3.4, section 5.2.8).
const MOST_OCTETS: usize = 20;

/// Which source_addr an account may name.
#[derive(Debug, Drop)]
pub enum SenderPattern {
    /// This one.
    Exact(Vec<u8>),
    /// Each one that begins so.
    Front(Vec<u8>),
}

impl SenderPattern {
    /// The pattern of a text: a source_addr, or its beginning and a star, as `49*`; at most 20 octets beside the star.
    pub fn parse(alloc: Global, text: &[u8]) -> Result<SenderPattern, SenderFault>
        ensures { spec.IsPatternOutcome text.now result }
    {
        let octets = octets_in(text);
        if octets.len() > MOST_OCTETS {
            return Err(SenderFault::TooLong);
        }
        if has_bad_octet(octets) {
            return Err(SenderFault::BadOctet);
        }
        let octets = Vec::from_slice(alloc, octets)?;
        if has_star(text) {
            return Ok(SenderPattern::Front(octets));
        }
        Ok(SenderPattern::Exact(octets))
    }

    /// Whether a source_addr is one of these, without the zero at its end.
    pub fn admits(&self, source: &[u8]) -> bool
        ensures { result ≡ spec.admits_source self.now source.now }
    {
        match self {
            SenderPattern::Exact(octets) => octets.as_slice() == source,
            SenderPattern::Front(octets) => source.starts_with(octets),
        }
    }
}

/// Whether a text ends with a star.
fn has_star(text: &[u8]) -> bool
    ensures { result ≡ spec.has_star text.now }
{
    match text {
        [.., last] => *last == b'*',
        [] => false,
    }
}

/// A text without the star at its end.
fn octets_in(text: &[u8]) -> &[u8]
    ensures { result.now ≡ spec.octets_in text.now }
{
    if has_star(text) {
        return &text[..text.len() - 1];
    }
    text
}

/// Whether an octet is zero or a star.
fn has_bad_octet(octets: &[u8]) -> bool
    ensures { result ≡ list_any spec.is_bad octets.now }
{
    octets.iter().any(|octet| *octet == 0 || *octet == b'*')
}
