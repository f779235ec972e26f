//! The accounts of ESMEs, and the binds that each may make.

ghost use Rattle.std.specs.Prelude.{◌≡◌, ◌↔◌, [], ◌∷◌, ◌++◌, IfOk, OnOk, OnErr, IsSome, Err};
ghost use Rattle.std.specs.Option.{option_copied};
ghost use Rattle.accounts.specs.Accounts.{account_of, allows, bind_refusal};
ghost use Rattle.accounts.specs.declared.fault.AccountsFault.TheVariants as faults;

use crate::fault::AccountsFault;
use crate::role::Role;
use pdu_codec::{Bind, Password, SystemId};
use pdu_tables::Status;
use std::alloc::Global;
use std::marker::Model;

/// An account, by which an ESME binds.
#[derive(Drop)]
pub struct Account {
    /// system_id (SMPP 3.4, section 5.2.1).
    pub system_id: SystemId,
    /// password (section 5.2.2).
    pub password: Password,
    /// Whether it may submit.
    pub transmit: bool,
    /// Whether it may be delivered to.
    pub receive: bool,
}

impl Account {
    /// Whether it may bind in this role: as a transmitter if it may submit, as a receiver if it may be delivered to, as a
    /// transceiver if both.
    pub fn allows(&self, role: Role) -> bool
        ensures { result ≡ allows self.now role }
    {
        match role {
            Role::Transmitter => self.transmit,
            Role::Receiver => self.receive,
            Role::Transceiver => self.transmit && self.receive,
        }
    }
}

/// Accounts, in the order in which they were added, no two with one system_id.
#[derive(Drop)]
pub struct Accounts {
    accounts: Vec<Account>,
}

impl Model for Accounts {
    ghost use Rattle.std.specs.Prelude.{List};
    ghost use Rattle.accounts.specs.Accounts.{AreApart};
    ghost use Rattle.accounts.specs.declared.account.Account.{Account};

    ghost Value = { List Account };

    ghost view = { λ accounts. accounts.accounts.items };

    ghost invariant = { λ accounts. AreApart accounts.accounts.items };
}

impl Accounts {
    /// No accounts. It takes no memory.
    pub fn make(alloc: Global) -> Accounts
        ensures { result ≡ [] }
    {
        Accounts {
            accounts: Vec::new(alloc),
        }
    }

    /// Adds an account after the others. It is `Repeated` if the system_id has an account already, and `Memory` if it has not
    /// and memory is wanting; then nothing is changed.
    pub fn add(&mut self, account: Account) -> Result<(), AccountsFault>
        ensures ok { OnOk result (self.new ≡ self.old ++ account ∷ []) }
        ensures repeated { (result ≡ Err faults.Repeated) ↔ IsSome (account_of self.old account.system_id) }
        ensures err { OnErr result (self.new ≡ self.old) }
    {
        if found(&self.accounts, account.system_id.octets()).is_some() {
            return Err(AccountsFault::Repeated);
        }
        self.accounts.push(account)?;
        Ok(())
    }

    /// The account of this system_id, if there is one. It takes no memory.
    pub fn find(&self, system_id: &[u8]) -> Option<&Account>
        ensures { option_copied result ≡ account_of self.now system_id.now }
    {
        found(&self.accounts, system_id)
    }

    /// The status with which a bind is refused, if it is: the first that fits of `InvalidSystemId`, if no account has the
    /// system_id, `InvalidPassword`, if the account has another password, and `BindFailed`, if it does not allow the role.
    /// It takes no memory.
    pub fn bind_refusal(&self, role: Role, bind: &Bind) -> Option<Status>
        ensures { result ≡ bind_refusal (account_of self.now bind.now.system_id) role bind.now }
    {
        let Some(account) = self.find(bind.system_id.octets()) else {
            return Some(Status::InvalidSystemId);
        };
        if account.password != bind.password {
            return Some(Status::InvalidPassword);
        }
        if !account.allows(role) {
            return Some(Status::BindFailed);
        }
        None
    }
}

/// The first account of this system_id.
fn found<'a>(accounts: &'a [Account], system_id: &[u8]) -> Option<&'a Account>
    ensures { option_copied result ≡ account_of accounts.now system_id.now }
{
    accounts
        .iter()
        .find(|account| account.system_id.octets() == system_id)
}
