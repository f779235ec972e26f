//! What a step makes of the requests that wait.

use fate_chain::Chain;
use mc_types::Moment;
use waiting_requests::Held;

/// What a step makes of the requests that wait.
#[derive(Drop)]
pub enum QueueChange {
    /// They stay as they are.
    Same,
    /// One more waits, after all others.
    Push(Box<Held>),
    /// One takes the place of the one of its ticket.
    Replace(Box<Held>),
    /// The one of this ticket waits no more.
    Remove(u64),
    /// Those of the message of this chain, which becomes known: what it settles is settled, and what has an answer then waits no more.
    Settle(Chain),
    /// Those that waited too long at this clock wait no more.
    Expire(Moment),
}
