//! What a node did with its attempts on one message.

ghost use Rattle.std.specs.Prelude.{◌≡◌, ◌≤◌, ◌==◌, ℕ, true, if◌then◌else◌};
ghost use Rattle.node_parts.specs.Attempting.{attempted_in, untried};

use fate_chain::MOST_DECREES;
use tick_rules::Attempted;

/// What a node did, in its incarnation, with its attempts on one message, by their places in the chain, 0 to 18.
#[derive(Clone, Copy, Debug)]
pub struct Attempts {
    each: [Attempted; MOST_DECREES],
}

impl Attempts {
    /// Nothing was done with any.
    pub fn none() -> Attempts
        ensures { (place : ℕ) → attempted_in result place ≡ untried }
    {
        Attempts {
            each: [Attempted {
                granted: false,
                closed: None,
            }; MOST_DECREES],
        }
    }

    /// What was done with the attempt at a place.
    pub fn at(&self, place: u8) -> Attempted
        ensures { result ≡ attempted_in self.now place }
    {
        match self.each.get(place as usize) {
            Some(attempted) => *attempted,
            None => Attempted {
                granted: false,
                closed: None,
            },
        }
    }

    /// Notes what was done with the attempt at a place.
    pub fn note(&mut self, place: u8, attempted: Attempted)
        requires { place ≤ 18 }
        ensures { (other : ℕ) → attempted_in self.new other ≡ (if other == place then attempted else attempted_in self.old other) }
    {
        self.each[place as usize] = attempted;
    }
}
