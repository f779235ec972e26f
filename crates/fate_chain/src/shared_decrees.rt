//! Decrees, shared by the copies of a chain.

ghost use Rattle.std.specs.Prelude.{◌≡◌, IfOk};

use crate::decree::Decree;
use std::alloc::{AllocError, Global};
use std::marker::Model;
use std::sync::Arc;

/// The decrees of a chain, the oldest first, which all its copies share: none of them ever changes, so one list is enough.
#[derive(Drop)]
pub struct SharedDecrees {
    shared: Arc<Vec<Decree>, Global>,
}

impl Model for SharedDecrees {
    ghost use Rattle.std.specs.Prelude.{List};
    ghost use Rattle.std.specs.Arc.{arc_value};
    ghost use Rattle.mc_model.specs.message.Decree.{Decree};

    ghost Value = { List Decree };

    ghost view = { λ s. (arc_value s.shared).items };
}

impl SharedDecrees {
    /// Those that nothing shares yet. An `Err` is want of memory.
    pub fn make(decrees: Vec<Decree>) -> Result<SharedDecrees, AllocError>
        ensures { IfOk result (λ shared. shared ≡ decrees.items) }
    {
        Ok(SharedDecrees {
            shared: Arc::new(*decrees.allocator(), decrees)?,
        })
    }

    /// The same decrees, for one more holder. It takes no memory; an `Err` is that there are 2^63 - 1 holders.
    pub fn share(&self) -> Result<SharedDecrees, AllocError>
        ensures { IfOk result (λ shared. shared ≡ self.now) }
    {
        Ok(SharedDecrees {
            shared: Arc::try_clone(&self.shared)?,
        })
    }

    /// What is shared.
    pub fn list(&self) -> &[Decree]
        ensures { result.now ≡ self.now }
    {
        &self.shared
    }

    /// Where its memory comes from.
    pub fn alloc(&self) -> Global {
        *self.shared.allocator()
    }
}
