//! Which decree is due for a message.

ghost use Rattle.std.specs.Prelude.{◌≡◌, ◌↔◌, IsTrue, ℕ};
ghost use Rattle.fate_chain.specs.Kinds.{kind_of};
ghost use Rattle.delivery.specs.Due.{IsDue, IsIdleKind, MayBeDue};

use crate::due_decree::DueDecree;
use fate_chain::{Chain, Decree, ErrorCode, Kind};
use mc_types::Moment;

/// The decrees of the cases, of which the first that fits is due; none if no case does.
macro_rules! on_case {
    ($($case:expr => $due:expr;)*) => {
        $(if $case { Some($due) } else)* { None }
    };
}

/// What is due at a moment for a message that was taken, or whose last attempt failed: that it expires; else that it cannot be
/// delivered; else its next attempt, if its target is up. None if none of these may follow then, and while an attempt is open or the
/// message has a final state. The moment is the one that the decree would have, so it is not before the newest decree's. It takes no
/// memory.
pub fn due(chain: &Chain, now: Moment, up: bool) -> Option<DueDecree>
    ensures { IsDue chain.now.decrees now up result }
{
    let attempt = DueDecree::Attempt(next_attempt(chain));
    on_case! {
        may_be_due(chain, now, DueDecree::Expired) => DueDecree::Expired;
        may_be_due(chain, now, DueDecree::Undeliverable) => DueDecree::Undeliverable;
        up && may_be_due(chain, now, attempt) => attempt;
    }
}

/// The number of the next attempt, if there is one.
fn next_attempt(chain: &Chain) -> u8
    ensures { (moment number : ℕ) → MayBeDue chain.now.decrees moment (DueDecree.Attempt number) → number ≡ result }
{
    match chain.newest().kind {
        Kind::Taken(_) => 1,
        _ => chain.attempts() + 1,
    }
}

/// Whether the message waits, and this decree may follow now.
fn may_be_due(chain: &Chain, now: Moment, due: DueDecree) -> bool
    ensures { IsTrue result ↔ MayBeDue chain.now.decrees now due }
{
    let newest = chain.newest();
    is_idle(&newest.kind)
        && chain.permits(&Decree {
            author: newest.author,
            moment: now,
            kind: due.kind(ErrorCode::of(chain.error())),
        })
}

/// Whether the message was taken, or an attempt of it failed.
fn is_idle(kind: &Kind) -> bool
    ensures { IsTrue result ↔ IsIdleKind (kind_of kind.now) }
{
    matches!(kind, Kind::Taken(_) | Kind::Failed(_))
}
