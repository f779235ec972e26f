//! Until when nothing is due for a message.

ghost use Rattle.std.specs.Prelude.{◌≡◌, ◌<◌, false, min, IfSome, None, if◌then◌else◌};
ghost use Rattle.tick_rules.specs.declared.standpoint.Standpoint.{Standpoint as StandpointValue};
ghost use Rattle.tick_rules.specs.Dues.{IsDueBehind};
ghost use Rattle.tick_rules.specs.Waking.{IsUntilBehind, IsWaitBehind};

use crate::attempted::Attempted;
use crate::reached::Reached;
use crate::standpoint::Standpoint;
use fate_chain::{Author, Chain, Kind};
use mc_types::Moment;

/// How many seconds after a failure, times the attempts so far, the next attempt comes.
pub const RETRY_DELAY: u32 = 60;

/// The moment before which nothing is due for an author after a chain that is known, by what it did with the attempt in which the chain ends, and by
/// whether its target is up and an attempt may begin, while no cancel_sm waits that matches its message. None if something is due now. It takes no
/// memory.
pub fn until_due(
    author: Author,
    chain: &Chain,
    attempted: Attempted,
    reached: Reached,
) -> Option<Moment>
    ensures until { IsUntilBehind author attempted reached chain.now.decrees result }
    ensures nothing { IfSome result (λ until. (s : StandpointValue) → s.author ≡ author → s.clock < until →
        IsDueBehind s attempted false reached chain.now.decrees None) }
{
    let first = Standpoint {
        author,
        clock: Moment::least(),
    };
    if first.due(chain, attempted, false, reached).is_some() {
        return None;
    }
    Some(waits_until(chain, reached.begins))
}

/// The moment from which a message waits no longer, if it waits, and an attempt may begin or not.
fn waits_until(chain: &Chain, begins: bool) -> Moment
    ensures { IsWaitBehind begins chain.now.decrees result }
{
    let newest = chain.newest();
    let taken = chain.submission();
    taken.expiry.seconds();
    match newest.kind {
        Kind::Taken(_) => earlier_if(begins, taken.expiry, taken.schedule),
        Kind::Failed(_) => {
            let delay = RETRY_DELAY * chain.attempts() as u32;
            earlier_if(begins, taken.expiry, newest.moment.later(delay))
        }
        Kind::Attempt(_) | Kind::Fate(..) | Kind::Told => Moment::least().later(u32::MAX),
    }
}

/// A moment, or another one that is earlier, if that counts.
fn earlier_if(counts: bool, moment: Moment, other: Moment) -> Moment
    ensures { result ≡ (if counts then min moment other else moment) }
{
    if counts { moment.min(other) } else { moment }
}
