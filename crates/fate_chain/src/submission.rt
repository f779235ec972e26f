//! What was taken.

ghost use Rattle.std.specs.Prelude.{◌≡◌, ◌↔◌, IsTrue};
ghost use Rattle.mc_model.specs.message.Receipts.{AsksReceipt};
ghost use Rattle.fate_chain.specs.Kinds.{final_of};
ghost use Rattle.fate_chain.specs.Marks.{terms_of};
ghost use Rattle.fate_chain.specs.Submissions.{address_of};
ghost use Rattle.fate_chain.specs.Same.{SameHandling, SameParties};

use crate::content::Content;
use crate::decree::Final;
use crate::terms::Terms;
use mc_types::Moment;
use pdu_codec::{Address, ServiceType, SystemId, Tlvs};
use std::marker::Model;

/// What a submit_sm asked for, as it was taken (SMPP 3.4, section 4.4.1).
#[derive(Drop)]
pub struct Submission {
    /// The account that sent it.
    pub submitter: SystemId,
    /// The account that it goes to.
    pub target: SystemId,
    pub service_type: ServiceType,
    pub source: Address,
    pub destination: Address,
    pub esm_class: u8,
    pub protocol_id: u8,
    pub priority_flag: u8,
    pub registered_delivery: u8,
    pub data_coding: u8,
    /// The moment from which it is tried.
    pub schedule: Moment,
    /// The moment from which it is no longer tried.
    pub expiry: Moment,
    /// Its text, and the optional parameters that are passed on.
    pub content: Content,
}

impl Model for Submission {
    ghost use Rattle.mc_model.specs.message.Submission.{Submission};
    ghost use Rattle.fate_chain.specs.Submissions.{address_of};

    ghost Value = { Submission };

    ghost view = { λ s. record {
      submitter = s.submitter;
      target = s.target;
      service_type = s.service_type;
      source = address_of s.source;
      destination = address_of s.destination;
      esm_class = s.esm_class;
      protocol_id = s.protocol_id;
      priority_flag = s.priority_flag;
      registered_delivery = s.registered_delivery;
      data_coding = s.data_coding;
      schedule = s.schedule;
      expiry = s.expiry;
      text = s.content.text;
      passed = s.content.passed;
    } };
}

impl Submission {
    /// The terms on which it is taken.
    pub(crate) fn terms(&self) -> Terms
        ensures { result ≡ terms_of self.now }
    {
        Terms {
            schedule: self.schedule,
            expiry: self.expiry,
            registered_delivery: self.registered_delivery,
        }
    }

    /// Whether it asked for a receipt of this final state: of every one, or of every one but DELIVERED (SMPP 3.4, section 5.2.17).
    pub fn asks_receipt(&self, last: Final) -> bool
        ensures { IsTrue result ↔ AsksReceipt (final_of last) self.now }
    {
        self.terms().asks_receipt(last)
    }

    /// Whether it is the same as the other.
    pub(crate) fn is(&self, other: &Submission) -> bool
        ensures { IsTrue result ↔ (self.now ≡ other.now) }
    {
        self.has_parties_of(other)
            && self.is_handled_as(other)
            && self.content.text() == other.content.text()
            && are_same(self.content.passed(), other.content.passed())
    }

    /// Whether its accounts, its service_type and its addresses are those of the other.
    fn has_parties_of(&self, other: &Submission) -> bool
        ensures { IsTrue result ↔ SameParties self.now other.now }
    {
        self.submitter.octets() == other.submitter.octets()
            && self.target.octets() == other.target.octets()
            && self.service_type.octets() == other.service_type.octets()
            && is_same(&self.source, &other.source)
            && is_same(&self.destination, &other.destination)
    }

    /// Whether its numbers are those of the other.
    fn is_handled_as(&self, other: &Submission) -> bool
        ensures { IsTrue result ↔ SameHandling self.now other.now }
    {
        self.esm_class == other.esm_class
            && self.protocol_id == other.protocol_id
            && self.priority_flag == other.priority_flag
            && self.registered_delivery == other.registered_delivery
            && self.data_coding == other.data_coding
            && self.schedule == other.schedule
            && self.expiry == other.expiry
    }
}

/// Whether both addresses are the same.
fn is_same(one: &Address, other: &Address) -> bool
    ensures { IsTrue result ↔ (address_of one.now ≡ address_of other.now) }
{
    one.ton == other.ton && one.npi == other.npi && one.digits.octets() == other.digits.octets()
}

/// Whether both are the same optional parameters, in the same order.
fn are_same(one: &Tlvs, other: &Tlvs) -> bool
    ensures { IsTrue result ↔ (one.now ≡ other.now) }
{
    one.octets() == other.octets()
}
