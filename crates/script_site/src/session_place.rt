//! Where a session is.

use mc_types::NodeNo;

/// Where a session is: at which node, and its number there.
#[derive(Clone, Copy)]
pub struct SessionPlace {
    pub node: NodeNo,
    pub number: u8,
}
