//! From when on the next attempt of a message is due.

ghost use Rattle.std.specs.Prelude.{◌≡◌};
ghost use Rattle.waiting_messages.specs.Attempts.{next_due};

use fate_chain::{Chain, Kind};
use mc_types::Moment;
use tick_rules::RETRY_DELAY;

/// From when on the next attempt of a message is due behind a chain; none if no attempt follows it.
pub(crate) fn next_due(chain: &Chain) -> Option<Moment>
    ensures { result ≡ next_due chain.now.decrees }
{
    let newest = chain.newest();
    let taken = chain.submission();
    match newest.kind {
        Kind::Taken(_) => Some(taken.schedule),
        Kind::Failed(_) => {
            let delay = RETRY_DELAY * u32::from(chain.attempts());
            Some(newest.moment.later(delay))
        }
        Kind::Attempt(_) | Kind::Fate(..) | Kind::Told => None,
    }
}
