//! An account among others.

ghost use Rattle.std.specs.Prelude.{◌≡◌};
ghost use Rattle.waiting_messages.specs.Accounts.{is_among};

use pdu_codec::SystemId;

/// Whether an account is one of these.
pub(crate) fn is_among(accounts: &[SystemId], account: &SystemId) -> bool
    ensures { result ≡ is_among account.now accounts.now }
{
    accounts.iter().any(|other| other == account)
}
