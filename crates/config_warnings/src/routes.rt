//! What is said of routes, and hardly meant.

ghost use Rattle.std.specs.Prelude.{◌≡◌};
ghost use Rattle.config_warnings.specs.Routes as spec;

use accounts::Accounts;

/// Whether there is an account of this name, and it may not receive: messages to it are never delivered.
pub fn is_deaf(accounts: &Accounts, name: &str) -> bool
    ensures { result ≡ spec.is_deaf accounts.now name.now }
{
    match accounts.find(name.as_bytes()) {
        Some(account) => !account.receive,
        None => false,
    }
}
