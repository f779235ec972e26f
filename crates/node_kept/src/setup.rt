//! With what a node is set up.

ghost use Rattle.std.specs.Prelude.{◌≡◌, ◌↔◌, IfErr, IfOk, IsOk};
ghost use Rattle.mc_model.specs.message.Ids.{IsNode};
ghost use Rattle.mc_types.specs.declared.fault.TypeFault.TheVariants.{OutOfRange};
ghost use Rattle.node_kept.specs.Setups.{IsSetup, setup_with};

use mc_types::{LAST_SERIAL, MOST_NODES, NodeNo, TypeFault};
use std::marker::Model;

/// With what a node is set up.
#[derive(Clone, Copy, Debug, PartialEq, Eq)]
pub struct Setup {
    pub(crate) node: NodeNo,
    pub(crate) nodes: u8,
    pub(crate) first_serial: u32,
    pub(crate) default_validity: u32,
}

impl Model for Setup {
    ghost use Rattle.mc_model.specs.node.Setup.{Setup};
    ghost use Rattle.node_kept.specs.Setups.{IsSetup, setup_with};

    ghost Value = { Setup };

    ghost view = { λ s. setup_with s.node s.nodes s.first_serial s.default_validity };

    ghost invariant = { λ s. IsSetup (setup_with s.node s.nodes s.first_serial s.default_validity) };

    ghost inverse = { λ s. record {
      node = s.node;
      nodes = s.nodes;
      first_serial = s.first_serial;
      default_validity = s.default_validity;
    } };
}

impl Setup {
    /// The setup of a node with this number, of so many, where each incarnation begins with a message of this serial, and a message is
    /// valid for so many seconds that does not say it. OutOfRange exactly if the node is not one of them, they are not 1 to 9, or the
    /// serial is not 1 to 99,999.
    pub fn make(
        node: NodeNo,
        nodes: u8,
        first_serial: u32,
        default_validity: u32,
    ) -> Result<Setup, TypeFault>
        ensures made { IsOk result ↔ IsSetup (setup_with node nodes first_serial default_validity) }
        ensures value { IfOk result (λ setup. setup ≡ setup_with node nodes first_serial default_validity) }
        ensures fault { IfErr result (λ fault. fault ≡ OutOfRange) }
    {
        if node.number() > nodes
            || nodes > MOST_NODES
            || first_serial < 1
            || first_serial > LAST_SERIAL
        {
            return Err(TypeFault::OutOfRange);
        }
        Ok(Setup {
            node,
            nodes,
            first_serial,
            default_validity,
        })
    }

    /// The node.
    pub fn node(self) -> NodeNo
        ensures { result ≡ self.node }
    {
        self.node
    }

    /// What a proof takes of it: the node is one of nine at most, and there is such a serial. The call does nothing.
    pub fn bounds(self)
        ensures node { IsNode self.node }
        ensures setup { IsSetup self }
    {
        self.node.bounds();
    }
}
