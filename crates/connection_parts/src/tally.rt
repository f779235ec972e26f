//! Counts.

ghost use Rattle.std.specs.Prelude.{◌≡◌};
ghost use Rattle.connection_parts.specs.Tallies.{sum_of};

/// Counts of what went on at a node, which stay at their greatest value, 2^64 - 1.
#[derive(Clone, Copy, Debug, PartialEq, Eq)]
pub struct Tally {
    pub submits: u64,
    pub deliveries: u64,
    pub receipts: u64,
    pub refused: u64,
    /// Final states that were told, in answers and in receipts.
    pub fates: u64,
}

impl Tally {
    /// Nothing went on.
    pub fn zero() -> Tally
        ensures { result ≡ record { submits = 0; deliveries = 0; receipts = 0; refused = 0; fates = 0 } }
    {
        Tally {
            submits: 0,
            deliveries: 0,
            receipts: 0,
            refused: 0,
            fates: 0,
        }
    }

    /// The counts of both.
    pub fn plus(self, other: Tally) -> Tally
        ensures submits { result.submits ≡ sum_of self.submits other.submits }
        ensures deliveries { result.deliveries ≡ sum_of self.deliveries other.deliveries }
        ensures receipts { result.receipts ≡ sum_of self.receipts other.receipts }
        ensures refused { result.refused ≡ sum_of self.refused other.refused }
        ensures fates { result.fates ≡ sum_of self.fates other.fates }
    {
        Tally {
            submits: self.submits.saturating_add(other.submits),
            deliveries: self.deliveries.saturating_add(other.deliveries),
            receipts: self.receipts.saturating_add(other.receipts),
            refused: self.refused.saturating_add(other.refused),
            fates: self.fates.saturating_add(other.fates),
        }
    }
}
