//! The text of a message, with the optional parameters that are passed on.

ghost use Rattle.std.specs.Prelude.{◌≡◌, ◌≤◌, IfOk, IsOk, IsTrue, length};
ghost use Rattle.pdu_codec.specs.Grammar.{optional_at};
ghost use Rattle.pdu_codec.specs.Tlv.{tlvs_in};
ghost use Rattle.fate_chain.specs.Content.{IsContent, has_room, is_long, most_text};

use pdu_codec::Tlvs;
use std::alloc::{AllocError, Global};
use std::marker::Model;

/// How many octets a short_message has at most (SMPP 3.4, section 5.2.22).
const MOST_SHORT: usize = 254;

/// How many octets a text that is a message_payload and the optional parameters beside it have at most: the 7,000 of a PDU less those of its tag
/// and length.
const MOST_BESIDE: usize = 6996;

/// The text of a message, of at most 4,096 octets, and the optional parameters that are passed on with it, in their order. If the text is too long
/// for a short_message, there is room for it beside them in a PDU.
#[derive(Drop)]
pub struct Content {
    text: Vec<u8>,
    passed: Tlvs,
}

impl Model for Content {
    ghost use Rattle.fate_chain.specs.Content.{Content, IsContent};

    ghost Value = { Content };

    ghost view = { λ c. record { text = c.text.items; passed = c.passed } };

    ghost invariant = { λ c. IsContent c.text.items c.passed };
}

impl Content {
    /// This text and these parameters. It takes no memory.
    pub fn of(text: Vec<u8>, passed: Tlvs) -> Content
        requires { IsContent text.items passed }
        ensures text { result.text ≡ text.items }
        ensures passed { result.passed ≡ passed }
    {
        Content { text, passed }
    }

    /// This text, and the optional parameters that these octets are.
    #[tactic(auto, unfolding(pdu_fields::specs::Tlv::tlvs_in))]
    pub(crate) fn read(alloc: Global, text: &[u8], others: &[u8]) -> Result<Content, AllocError>
        requires most { length text.now ≤ most_text }
        requires beside { IsTrue (has_room text.now others.now) }
        requires optional { IsOk (optional_at others.now) }
        ensures text { IfOk result (λ content. content.text ≡ text.now) }
        ensures passed { IfOk result (λ content. content.passed ≡ tlvs_in others.now) }
    {
        let text = Vec::from_slice(alloc, text)?;
        let passed = Tlvs::of(alloc, others)?;
        Ok(Content::of(text, passed))
    }

    /// The text, of at most 4,096 octets.
    pub fn text(&self) -> &[u8]
        ensures text { result.now ≡ self.now.text }
        ensures limits { IsContent self.now.text self.now.passed }
    {
        self.text.as_slice()
    }

    /// The optional parameters that are passed on.
    pub fn passed(&self) -> &Tlvs
        ensures { result.now ≡ self.now.passed }
    {
        &self.passed
    }

    /// Whether the text is too long for a short_message.
    pub fn is_long(&self) -> bool
        ensures { result ≡ is_long self.now.text }
    {
        is_long(&self.text)
    }
}

/// Whether a text is too long for a short_message.
fn is_long(text: &[u8]) -> bool
    ensures { result ≡ is_long text.now }
{
    text.len() > MOST_SHORT
}

/// Whether there is room for a text beside the octets of optional parameters.
pub(crate) fn has_room(text: &[u8], others: &[u8]) -> bool
    ensures { result ≡ has_room text.now others.now }
{
    !is_long(text) || (others.len() <= MOST_BESIDE && text.len() <= MOST_BESIDE - others.len())
}
