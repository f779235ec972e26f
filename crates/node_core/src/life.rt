//! One incarnation of one node.

ghost use Rattle.std.specs.Prelude.{◌≡◌};

use mc_types::{Incarnation, NodeNo};

/// One incarnation of one node. It is made when a node opens, and can't be copied.
#[derive(Drop)]
pub struct Life {
    node: NodeNo,
    incarnation: Incarnation,
}

impl Life {
    /// The life of a node in an incarnation.
    pub(crate) fn of(node: NodeNo, incarnation: Incarnation) -> Life
        ensures node { result.node ≡ node }
        ensures incarnation { result.incarnation ≡ incarnation }
    {
        Life { node, incarnation }
    }

    /// The node.
    pub fn node(&self) -> NodeNo
        ensures { result ≡ self.now.node }
    {
        self.node
    }

    /// How often the node had started then, this time included.
    pub fn incarnation(&self) -> Incarnation
        ensures { result ≡ self.now.incarnation }
    {
        self.incarnation
    }
}
