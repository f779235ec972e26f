//! Routes, from the digits of a destination to an account.

ghost use Rattle.std.specs.Prelude.{◌≡◌, ◌↔◌, [], ◌∷◌, ◌++◌, OnOk, OnErr, IsTrue, Err};
ghost use Rattle.std.specs.Option.{option_copied};
ghost use Rattle.accounts.specs.Routes.{better, has_route, is_front, route_of, target_of};
ghost use Rattle.accounts.specs.declared.fault.AccountsFault.TheVariants as faults;

use crate::fault::AccountsFault;
use pdu_codec::{AddressDigits, SystemId};
use std::alloc::Global;
use std::marker::Model;

/// A route: what goes to a destination with this prefix goes to this account.
#[derive(Drop)]
pub struct Route {
    /// The first digits of the destination_addr (SMPP 3.4, section 5.2.9). The empty prefix is one of every destination.
    pub prefix: AddressDigits,
    /// The system_id of the account.
    pub account: SystemId,
}

/// Routes, in the order in which they were added, no two with one prefix.
#[derive(Drop)]
pub struct Routes {
    routes: Vec<Route>,
}

impl Model for Routes {
    ghost use Rattle.std.specs.Prelude.{List};
    ghost use Rattle.accounts.specs.Routes.{AreDistinct};
    ghost use Rattle.accounts.specs.declared.route.Route.{Route};

    ghost Value = { List Route };

    ghost view = { λ routes. routes.routes.items };

    ghost invariant = { λ routes. AreDistinct routes.routes.items };
}

impl Routes {
    /// No routes. It takes no memory.
    pub fn make(alloc: Global) -> Routes
        ensures { result ≡ [] }
    {
        Routes {
            routes: Vec::new(alloc),
        }
    }

    /// Adds a route after the others. It is `Repeated` if the prefix has a route already, and `Memory` if it has not and memory
    /// is wanting; then nothing is changed.
    pub fn add(&mut self, route: Route) -> Result<(), AccountsFault>
        ensures ok { OnOk result (self.new ≡ self.old ++ route ∷ []) }
        ensures repeated { (result ≡ Err faults.Repeated) ↔ IsTrue (has_route self.old route.prefix) }
        ensures err { OnErr result (self.new ≡ self.old) }
    {
        if has_route(&self.routes, &route.prefix) {
            return Err(AccountsFault::Repeated);
        }
        self.routes.push(route)?;
        Ok(())
    }

    /// The account to which the route leads whose prefix is the longest of those that the destination begins with, if any
    /// is. It takes no memory.
    pub fn target(&self, destination: &[u8]) -> Option<&SystemId>
        ensures { option_copied result ≡ target_of self.now destination.now }
    {
        let route = longest(&self.routes, destination)?;
        Some(&route.account)
    }
}

/// Whether a route has this prefix.
fn has_route(routes: &[Route], prefix: &AddressDigits) -> bool
    ensures { result ≡ has_route routes.now prefix.now }
{
    routes.iter().any(|route| route.prefix == *prefix)
}

/// The route of the longest prefix of a destination.
fn longest<'a>(routes: &'a [Route], destination: &[u8]) -> Option<&'a Route>
    ensures { option_copied result ≡ route_of routes.now destination.now }
{
    let mut best = None;
    for route in routes {
        best = better_of(best, route, destination);
    }
    best
}

/// Of the best route so far and one more that of the longer prefix, if the destination begins with it.
fn better_of<'a>(best: Option<&'a Route>, route: &'a Route, destination: &[u8]) -> Option<&'a Route>
    ensures { option_copied result ≡ better (option_copied best.entry) route.now destination.now }
{
    if !destination.starts_with(route.prefix.octets()) {
        return best;
    }
    let Some(before) = best else {
        return Some(route);
    };
    if before.prefix.octets().len() < route.prefix.octets().len() {
        return Some(route);
    }
    Some(before)
}
