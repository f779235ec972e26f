//! Where a deliver_sm goes out.

ghost use Rattle.std.specs.Prelude.{◌≡◌};

/// Where a deliver_sm was pushed: the number of the session, the sequence_number with which it is to be sent, and whether the ESME knows
/// optional parameters (SMPP 3.4, section 5.2.4). Only `Service::push` and `Service::next_receipt` make one.
#[derive(Clone, Copy, Debug, PartialEq, Eq)]
pub struct PushedOn {
    pub(crate) number: u8,
    pub(crate) sequence: u32,
    pub(crate) knows_optional: bool,
}

impl PushedOn {
    /// The number of the session.
    pub fn number(&self) -> u8
        ensures { result ≡ self.now.number }
    {
        self.number
    }

    /// The sequence_number.
    pub fn sequence(&self) -> u32
        ensures { result ≡ self.now.sequence }
    {
        self.sequence
    }

    /// Whether the ESME knows optional parameters.
    pub fn knows_optional(&self) -> bool
        ensures { result ≡ self.now.knows_optional }
    {
        self.knows_optional
    }
}
