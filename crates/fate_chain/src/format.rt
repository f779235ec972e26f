//! How the octets of a chain are laid out.

ghost use Rattle.std.specs.Prelude.{◌≡◌};
ghost use Rattle.fate_chain.specs.Bytes.{format_number, most_kind};

/// A format of the octets of chains. They begin with its number.
#[derive(Clone, Copy, Debug, PartialEq, Eq)]
pub enum Format {
    /// Format 1, which earlier programs wrote: one octet has the length of a text of a message, and no receipt is told.
    First,
    /// Format 2, in which chains are written: two octets have that length, and receipts are told.
    Second,
}

impl Format {
    /// Its number.
    pub fn number(self) -> u8
        ensures { result ≡ format_number self }
    {
        match self {
            Format::First => 1,
            Format::Second => 2,
        }
    }

    /// The highest number of a kind of decree.
    pub fn most_kind(self) -> u8
        ensures { result ≡ most_kind self }
    {
        match self {
            Format::First => 4,
            Format::Second => 5,
        }
    }
}
