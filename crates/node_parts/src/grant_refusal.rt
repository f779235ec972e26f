//! Why an attempt is not granted.

ghost use Rattle.std.specs.Prelude.{◌≡◌};
ghost use Rattle.mc_model.specs.node.Grant.{refusal_number};
ghost use Rattle.node_parts.specs.Attempting.{refusal_of};

/// Why the attempt of a message is not granted at a node.
#[derive(Clone, Copy, Debug, PartialEq, Eq)]
pub enum GrantRefusal {
    /// 1: no chain of the message is known, or the one that is known does not end in an attempt.
    NotChosen,
    /// 2: the attempt is another node's.
    NotMine,
    /// 3: the node made it in another incarnation.
    OlderIncarnation,
    /// 4: it was granted in this incarnation.
    AlreadyGranted,
    /// 5: it was closed before it was granted.
    Closed,
}

impl GrantRefusal {
    /// Its number, 1 to 5.
    pub fn number(self) -> u8
        ensures { result ≡ refusal_number (refusal_of self) }
    {
        match self {
            GrantRefusal::NotChosen => 1,
            GrantRefusal::NotMine => 2,
            GrantRefusal::OlderIncarnation => 3,
            GrantRefusal::AlreadyGranted => 4,
            GrantRefusal::Closed => 5,
        }
    }
}
