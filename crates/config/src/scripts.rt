//! The configuration of a script.

ghost use Rattle.std.specs.Prelude.{◌≡◌, [], ◌∷◌, ◌++◌, None, false, true, IfOk, OnOk};
ghost use Rattle.accounts.specs.Accounts.{account_of};
ghost use Rattle.accounts.specs.Routes.{has_route};
ghost use Rattle.octet_fields.specs.Texts.{IsText};
ghost use Rattle.config.specs.Scripts.{IsOfScripts, script_accounts, script_routes};

use crate::config::{Config, DEFAULT_VALIDITY};
use accounts::{Account, Accounts, AccountsFault, Route, Routes};
use pdu_codec::Text;
use std::alloc::{AllocError, Global};

impl Config {
    /// The configuration of a script: the system_id `CENTRE`; the accounts `sme1` with the password `pw1` and `sme2` with `pw2`,
    /// each with both rights; what begins with a 2 goes to `sme2`, and all else to `sme1`. No node listens.
    pub fn of_scripts(alloc: Global) -> Result<Config, AllocError>
        ensures { IfOk result IsOfScripts }
    {
        let accounts = accounts_of_scripts(alloc)?;
        let routes = routes_of_scripts(alloc)?;
        Ok(Config {
            system_id: Text::of(alloc, b"CENTRE")?,
            default_validity: DEFAULT_VALIDITY,
            first_serial: 1,
            stop_after: 0,
            nodes: Vec::new(alloc),
            accounts,
            routes,
        })
    }
}

/// The accounts of a script.
fn accounts_of_scripts(alloc: Global) -> Result<Accounts, AllocError>
    ensures { IfOk result (λ accounts. accounts ≡ script_accounts) }
{
    let mut accounts = Accounts::make(alloc);
    add_account(&mut accounts, account(alloc, b"sme1", b"pw1")?)?;
    add_account(&mut accounts, account(alloc, b"sme2", b"pw2")?)?;
    Ok(accounts)
}

/// An account with both rights.
fn account(alloc: Global, system_id: &[u8], password: &[u8]) -> Result<Account, AllocError>
    requires system_id { IsText 16 system_id.now }
    requires password { IsText 9 password.now }
    ensures { IfOk result (λ account. account ≡ record { system_id = system_id.now; password = password.now; transmit = true; receive = true }) }
{
    let system_id = Text::of(alloc, system_id)?;
    let password = Text::of(alloc, password)?;
    Ok(Account {
        system_id,
        password,
        transmit: true,
        receive: true,
    })
}

/// Adds an account of a new name.
fn add_account(accounts: &mut Accounts, account: Account) -> Result<(), AllocError>
    requires { account_of accounts.old account.system_id ≡ None }
    ensures { OnOk result (accounts.new ≡ accounts.old ++ account ∷ []) }
{
    match accounts.add(account) {
        Ok(()) => Ok(()),
        Err(AccountsFault::Repeated) => unreachable!(),
        Err(AccountsFault::Memory) => Err(AllocError),
    }
}

/// The routes of a script.
fn routes_of_scripts(alloc: Global) -> Result<Routes, AllocError>
    ensures { IfOk result (λ routes. routes ≡ script_routes) }
{
    let mut routes = Routes::make(alloc);
    add_route(&mut routes, route(alloc, b"2", b"sme2")?)?;
    add_route(&mut routes, route(alloc, b"", b"sme1")?)?;
    Ok(routes)
}

/// A route.
fn route(alloc: Global, prefix: &[u8], account: &[u8]) -> Result<Route, AllocError>
    requires prefix { IsText 21 prefix.now }
    requires account { IsText 16 account.now }
    ensures { IfOk result (λ route. route ≡ record { prefix = prefix.now; account = account.now }) }
{
    let prefix = Text::of(alloc, prefix)?;
    let account = Text::of(alloc, account)?;
    Ok(Route { prefix, account })
}

/// Adds a route of a new prefix.
fn add_route(routes: &mut Routes, route: Route) -> Result<(), AllocError>
    requires { has_route routes.old route.prefix ≡ false }
    ensures { OnOk result (routes.new ≡ routes.old ++ route ∷ []) }
{
    match routes.add(route) {
        Ok(()) => Ok(()),
        Err(AccountsFault::Repeated) => unreachable!(),
        Err(AccountsFault::Memory) => Err(AllocError),
    }
}
