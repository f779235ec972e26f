//! What is told of final states.

ghost use Rattle.std.specs.Prelude.{◌≡◌, ◌++◌, flat_map, map, OnOk};
ghost use Rattle.node_model.specs.Reported.{receipt_of};
ghost use Rattle.waiting_requests.specs.Replying.{reply_given};
ghost use Rattle.world.specs.Runs.{given_out};
ghost use Rattle.world_runs.specs.Statements.{stated_at, stated_of, stated_received, stated_replied};

use fate_chain::{Chain, Final};
use mc_types::MsgId;
use std::alloc::AllocError;
use std::marker::Model;
use waiting_requests::{Answer, Reply};
use world::Given;

/// A final state that was told of a message (SMPP 3.4, section 5.2.28): in a receipt, in a query_sm_resp, or by ESME_ROK to a cancel_sm, which
/// tells DELETED.
#[derive(Drop)]
pub struct Statement {
    pub id: MsgId,
    pub state: Final,
    /// The chain of this message by which it was told.
    pub chain: Chain,
    /// The place of the step that told it in the list of steps, from 0.
    pub step: usize,
}

impl Model for Statement {
    ghost use Rattle.std.specs.Prelude.{◌≡◌};
    ghost use Rattle.fate_chain.specs.Kinds.{final_of};
    ghost use Rattle.world_runs.specs.Statements.{Statement};

    ghost Value = { Statement };

    ghost view = { λ s. record { id = s.id; state = final_of s.state; chain = s.chain.decrees; step = s.step } };

    ghost invariant = { λ s. s.chain.id ≡ s.id };
}

/// Adds what a step told: by its replies, and then by its receipts. An `Err` is want of memory.
pub(crate) fn add_given(
    statements: &mut Vec<Statement>,
    step: usize,
    given: &Given,
) -> Result<(), AllocError>
    ensures { OnOk result (statements.new.items ≡ statements.old.items ++ stated_at step (given_out given.now)) }
{
    add_replies(statements, step, &given.replies)?;
    add_receipts(statements, step, &given.receipts)
}

/// Adds what the replies of a step told.
fn add_replies(
    statements: &mut Vec<Statement>,
    step: usize,
    replies: &[Reply],
) -> Result<(), AllocError>
    ensures { OnOk result (statements.new.items ≡ statements.old.items ++ flat_map (stated_replied step) (map reply_given replies.now)) }
{
    for reply in replies {
        if let Answer::Shown(chain) | Answer::Removed(chain) = reply.answer() {
            add_chain(statements, step, reply.id(), chain)?;
        }
    }
    Ok(())
}

/// Adds what the receipts of a step told.
fn add_receipts(
    statements: &mut Vec<Statement>,
    step: usize,
    receipts: &[Chain],
) -> Result<(), AllocError>
    ensures { OnOk result (statements.new.items ≡ statements.old.items ++ flat_map (stated_received step) (map receipt_of receipts.now)) }
{
    for chain in receipts {
        add_chain(statements, step, chain.id(), chain)?;
    }
    Ok(())
}

/// Adds what a chain tells of a message, if it ends in a final state.
fn add_chain(
    statements: &mut Vec<Statement>,
    step: usize,
    id: MsgId,
    chain: &Chain,
) -> Result<(), AllocError>
    requires { chain.now.id ≡ id }
    ensures { OnOk result (statements.new.items ≡ statements.old.items ++ stated_of step id chain.now.decrees) }
{
    let Some(state) = chain.fate() else {
        return Ok(());
    };
    statements.push(Statement {
        id,
        state,
        chain: chain.copy()?,
        step,
    })?;
    Ok(())
}
