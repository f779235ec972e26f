//! What a query_sm shows of a message.

ghost use Rattle.std.specs.Prelude.{◌≡◌};
ghost use Rattle.desk.specs.Desk.{final_moment, shown};

use crate::request::Answer;
use fate_chain::{Chain, Kind};
use mc_types::Moment;

/// What a query_sm is answered that may see the message of this chain.
pub fn shown(chain: &Chain) -> Answer
    ensures { result ≡ shown chain.now }
{
    let error = chain.error().min(255) as u8;
    Answer::Shown(chain.state(), final_moment(chain), error)
}

/// The moment of the final state of a chain, if it has one.
fn final_moment(chain: &Chain) -> Option<Moment>
    ensures { result ≡ final_moment chain.now.decrees }
{
    let newest = chain.newest_untold();
    match newest.kind {
        Kind::Fate(..) => Some(newest.moment),
        _ => None,
    }
}
