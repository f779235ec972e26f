//! What was taken, shared by the copies of a chain.

ghost use Rattle.std.specs.Prelude.{◌≡◌, IfOk};

use crate::submission::Submission;
use std::alloc::{AllocError, Global};
use std::marker::Model;
use std::sync::Arc;

/// A submission that all copies of a chain share: what was taken never changes, so one of it is enough.
#[derive(Drop)]
pub struct SharedSubmission {
    shared: Arc<Submission, Global>,
}

impl Model for SharedSubmission {
    ghost use Rattle.std.specs.Arc.{arc_value};
    ghost use Rattle.mc_model.specs.message.Submission.{Submission};

    ghost Value = { Submission };

    ghost view = { λ s. arc_value s.shared };
}

impl SharedSubmission {
    /// One that nothing shares yet. An `Err` is want of memory.
    pub fn make(alloc: Global, submission: Submission) -> Result<SharedSubmission, AllocError>
        ensures { IfOk result (λ shared. shared ≡ submission) }
    {
        Ok(SharedSubmission {
            shared: Arc::new(alloc, submission)?,
        })
    }

    /// The same submission, for one more holder. It takes no memory; an `Err` is that there are 2^63 - 1 holders.
    pub(crate) fn share(&self) -> Result<SharedSubmission, AllocError>
        ensures { IfOk result (λ shared. shared ≡ self.now) }
    {
        Ok(SharedSubmission {
            shared: Arc::try_clone(&self.shared)?,
        })
    }

    /// What is shared.
    pub fn submission(&self) -> &Submission
        ensures { result.now ≡ self.now }
    {
        &self.shared
    }
}
