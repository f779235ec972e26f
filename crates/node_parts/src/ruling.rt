//! What a tick decides on a message.

use fate_chain::Chain;

/// What a tick decides on a message: the chain for which a round is to start, and the place of the attempt that is given up, if one is.
#[derive(Drop)]
pub struct Ruling {
    pub chain: Chain,
    pub given_up: Option<u8>,
}
