//! An account with its limits.

ghost use Rattle.std.specs.Prelude.{◌≡◌};
ghost use Rattle.std.specs.Option.{option_copied};
ghost use Rattle.config_limits.specs.Limited.{limits_in};

use account_limits::Limits;

/// An account, and what it is limited to.
#[derive(Drop)]
pub struct LimitedAccount {
    /// Its system_id.
    pub system_id: Vec<u8>,
    pub limits: Limits,
}

/// The limits of the first of some accounts that has a system_id, if one has. It takes no memory.
pub fn limits_of<'a>(accounts: &'a [LimitedAccount], system_id: &[u8]) -> Option<&'a Limits>
    ensures { option_copied result ≡ limits_in system_id.now accounts.now }
{
    match first_of(accounts, system_id) {
        Some(account) => Some(&account.limits),
        None => None,
    }
}

ghost use Rattle.config_limits.specs.Limited.{account_in};

/// The first of some accounts that has a system_id.
fn first_of<'a>(accounts: &'a [LimitedAccount], system_id: &[u8]) -> Option<&'a LimitedAccount>
    ensures { option_copied result ≡ account_in system_id.now accounts.now }
{
    accounts
        .iter()
        .find(|account| account.system_id.as_slice() == system_id)
}
