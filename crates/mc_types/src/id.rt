//! Message ids.

ghost use Rattle.std.specs.Prelude.{◌≡◌, ◌↔◌, ℕ, List, IsTrue, IsOk, IfOk, IfErr, OnErr, IsErrOf, None, Some, true, false};
ghost use Rattle.std.specs.Fmt.{decimal};
ghost use Rattle.std.specs.List.{list_all};
ghost use Rattle.std.specs.Char.{is_ascii_digit};
ghost use Rattle.std.specs.Str.Parse.{digits_value};
ghost use Rattle.mc_model.specs.message.Ids.{IsId, IsSerial, id_of, node_of, incarnation_of, serial_of};
ghost use Rattle.mc_types.specs.declared.fault.TypeFault.TheVariants.{NotAnId, OutOfRange};
ghost use Rattle.mc_types.specs.Texts.{id_in, is_ten_digits};

use crate::fault::TypeFault;
use crate::number::{Incarnation, MOST_NODES, NodeNo};
use std::marker::Model;

/// The last serial of a message in an incarnation.
pub const LAST_SERIAL: u32 = 99999;

/// A message id (SMPP 3.4, section 5.2.23): the node that took the message, its incarnation then, and the message's
/// serial in that incarnation, 1 to 99999. Contracts see it as the number that its ten digits write.
#[derive(Clone, Copy, Debug, PartialEq, Eq, PartialOrd, Ord)]
pub struct MsgId {
    number: u64,
}

impl Model for MsgId {
    ghost Value = { ℕ };

    ghost view = { λ id. id.number };

    ghost invariant = { λ id. IsId id.number };

    ghost inverse = { λ number. record { number = number } };
}

impl MsgId {
    /// The id of the serial in the incarnation of the node; OutOfRange if the serial is not 1 to 99999.
    pub fn make(node: NodeNo, incarnation: Incarnation, serial: u32) -> Result<MsgId, TypeFault>
        ensures made { IsOk result ↔ IsSerial serial }
        ensures value { IfOk result (λ id. id ≡ id_of node incarnation serial) }
        ensures fault { IfErr result (λ fault. fault ≡ OutOfRange) }
    {
        if serial < 1 || serial > LAST_SERIAL {
            return Err(TypeFault::OutOfRange);
        }
        let node = node.number() as u64;
        let incarnation = incarnation.number() as u64;
        Ok(MsgId {
            number: 1000000000 * node + 100000 * incarnation + serial as u64,
        })
    }

    /// The id of this number; OutOfRange if its node, its incarnation or its serial is outside its range.
    pub fn of_number(number: u64) -> Result<MsgId, TypeFault>
        ensures made { IsOk result ↔ IsId number }
        ensures value { IfOk result (λ id. id ≡ number) }
        ensures fault { IfErr result (λ fault. fault ≡ OutOfRange) }
    {
        if !is_id(number) {
            return Err(TypeFault::OutOfRange);
        }
        Ok(MsgId { number })
    }

    /// The id that a text names. NotAnId if the text is not ten decimal digits; OutOfRange if it is, and its
    /// node, its incarnation or its serial is outside its range.
    #[tactic(auto, using(crate::proofs::Texts::named, crate::proofs::Texts::not_digits, crate::proofs::Texts::no_id))]
    pub fn read(text: &[u8]) -> Result<MsgId, TypeFault>
        ensures read { IfOk result (λ id. id_in text.now ≡ Some id) }
        ensures refused { OnErr result (id_in text.now ≡ None) }
        ensures spelled { IfOk result (λ id. text.now ≡ decimal id) }
        ensures only { (id : ℕ) → IsId id → text.now ≡ decimal id → result ≡ Ok id }
        ensures not_an_id { IsErrOf result NotAnId ↔ (is_ten_digits text.now ≡ false) }
    {
        if !is_ten_digits(text) {
            return Err(TypeFault::NotAnId);
        }
        let value = number_of(text);
        if !is_id(value) {
            return Err(TypeFault::OutOfRange);
        }
        Ok(MsgId { number: value })
    }

    /// Its text, the ten decimal digits of its number.
    pub fn text(self) -> [u8; 10]
        ensures text { result ≡ decimal self }
        ensures id { IsId self }
    {
        let mut digits = [b'0'; 10];
        let mut number = self.number;
        for place in (0..10).rev() {
            digits[place] = b'0' + (number % 10) as u8;
            number /= 10;
        }
        digits
    }

    /// Its number, of ten decimal digits.
    pub fn number(self) -> u64
        ensures value { result ≡ self }
        ensures id { IsId self }
    {
        self.number
    }

    /// What a proof takes of it: its number is one of an id. The call does nothing.
    pub fn bounds(self)
        ensures { IsId self }
    {}

    /// The node that took the message.
    pub fn node(self) -> NodeNo
        ensures { result ≡ node_of self }
    {
        NodeNo::of((self.number / 1000000000) as u8)
    }

    /// The incarnation of the node that took it.
    pub fn incarnation(self) -> Incarnation
        ensures { result ≡ incarnation_of self }
    {
        Incarnation::of((self.number / 100000 % 10000) as u16)
    }

    /// The serial in that incarnation, 1 to 99999.
    pub fn serial(self) -> u32
        ensures value { result ≡ serial_of self }
        ensures range { IsSerial result }
    {
        (self.number % 100000) as u32
    }
}

/// Whether the number is an id.
fn is_id(number: u64) -> bool
    ensures { IsTrue result ↔ IsId number }
{
    let node = number / 1000000000;
    let incarnation = number / 100000 % 10000;
    let serial = number % 100000;
    1 <= node && node <= MOST_NODES as u64 && 1 <= incarnation && 1 <= serial
}

/// Whether the text is ten decimal digits.
fn is_ten_digits(text: &[u8]) -> bool
    ensures { result ≡ is_ten_digits text.now }
{
    text.len() == 10 && are_digits(text)
}

/// Whether the text is decimal digits alone.
fn are_digits(text: &[u8]) -> bool
    ensures { result ≡ list_all is_ascii_digit text.now }
{
    text.iter().all(|octet| octet.is_ascii_digit())
}

/// The number that ten decimal digits write.
#[tactic(auto, using(crate::proofs::Digits::next_digit))]
fn number_of(text: &[u8]) -> u64
    requires { is_ten_digits text.now ≡ true }
    ensures { result ≡ digits_value 10 text.now }
{
    let mut number = 0;
    for digit in text {
        number = number * 10 + (*digit - b'0') as u64;
    }
    number
}

/// An id and its text name each other: a text names the id of which it is the ten decimal digits, and no other.
pub fn ids_are_their_texts()
    ensures { (text : List ℕ) (id : ℕ) → (id_in text ≡ Some id) ↔ (IsId id × (text ≡ decimal id)) }
{}
