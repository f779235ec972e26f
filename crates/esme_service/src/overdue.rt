//! What was pushed and waits too long for its answer.

ghost use Rattle.std.specs.Prelude.{[], ◌≡◌, ◌++◌, filter, IfOk, IsOk, OnOk};
ghost use Rattle.sessions.specs.Windows.{is_overdue};
ghost use Rattle.esme_service.specs.Pushes.{overdue_in, timely_in};

use mc_types::Moment;
use sessions::{Pushed, Session};
use std::alloc::{AllocError, Global};
use std::collections::BTreeMap;

/// What waits too long at a moment, by session.
pub(crate) fn overdue(
    alloc: Global,
    sessions: &BTreeMap<u8, Session>,
    now: Moment,
) -> Result<Vec<Pushed>, AllocError>
    ensures found { IfOk result (λ overdue. overdue.items ≡ overdue_in sessions.now.entries now) }
    ensures none { overdue_in sessions.now.entries now ≡ [] → IsOk result }
{
    let mut overdue = Vec::new(alloc);
    for (_number, session) in sessions {
        add_overdue(&mut overdue, session.pushed(), now)?;
    }
    Ok(overdue)
}

/// Adds what of one session waits too long.
fn add_overdue(overdue: &mut Vec<Pushed>, pushed: &[Pushed], now: Moment) -> Result<(), AllocError>
    ensures added { OnOk result (overdue.new.items ≡ overdue.old.items ++ filter (is_overdue now) pushed.now) }
    ensures none { filter (is_overdue now) pushed.now ≡ [] → IsOk result }
{
    for request in pushed {
        if request.is_overdue(now) {
            overdue.push(*request)?;
        }
    }
    Ok(())
}

/// It leaves the windows of its sessions.
pub(crate) fn let_go_overdue(sessions: &mut BTreeMap<u8, Session>, now: Moment)
    ensures { sessions.new.entries ≡ timely_in sessions.old.entries now }
{
    sessions.retain(|_, session| {
        session.let_go_overdue(now);
        true
    });
}
