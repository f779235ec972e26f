//! Steps that keep what was handed in.

use desk::Request;
use esme_site::{Steps, Taken};
use pdu_codec::SystemId;
use std::alloc::Global;

/// A place at which steps are taken.
pub struct Place(pub u8);

/// What was handed in: at which place, for which account, and whether it was a submit_sm.
#[derive(Drop)]
pub struct Handed {
    pub place: u8,
    pub account: SystemId,
    pub is_submit: bool,
}

/// Steps that give the same for each request, or refuse each with the same number, and keep what was handed in. Nothing is said of them to proofs.
#[derive(Drop)]
pub struct Counted {
    gives: Result<Taken, u8>,
    handed: Vec<Handed>,
}

impl Counted {
    pub fn none(alloc: Global, gives: Result<Taken, u8>) -> Counted {
        Counted {
            gives,
            handed: Vec::new(alloc),
        }
    }

    /// What was handed in, the oldest first.
    pub fn handed(&self) -> &[Handed] {
        &self.handed
    }
}

impl Steps<Place> for Counted {
    type Fault = u8;

    ghost took = { λ _ _ _ _ _ _. Unit {0} };

    ghost refused = { λ _ _ _. Unit {0} };

    fn request(&mut self, place: &Place, account: SystemId, request: Request) -> Result<Taken, u8> {
        let is_submit = matches!(&request, Request::Submit(..));
        drop(request);
        let _ = self.handed.push(Handed {
            place: place.0,
            account,
            is_submit,
        });
        self.gives
    }
}
