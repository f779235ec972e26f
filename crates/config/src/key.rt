//! The keys of a configuration.

ghost use Rattle.std.specs.Prelude.{◌≡◌};
ghost use Rattle.config.specs.Keys.{is_needed, is_unique, name_of, part_of};

use std::fmt;

/// What the tables are in which a key stands.
#[derive(Clone, Copy, Debug, PartialEq, Eq)]
pub enum Part {
    /// The table of the whole text.
    Whole,
    /// The tables of `node`.
    Nodes,
    /// The tables of `account`.
    Accounts,
    /// The tables of `route`.
    Routes,
}

/// A key of a configuration.
#[derive(Clone, Copy, Debug, PartialEq, Eq)]
pub enum Key {
    SystemId,
    DefaultValidity,
    FirstSerial,
    StopAfter,
    Node,
    Account,
    Route,
    NodeNumber,
    NodeListen,
    NodeStore,
    AccountSystemId,
    AccountPassword,
    AccountTransmit,
    AccountReceive,
    RoutePrefix,
    RouteAccount,
}

/// All keys.
pub(crate) const KEYS: [Key; 16] = [
    Key::SystemId,
    Key::DefaultValidity,
    Key::FirstSerial,
    Key::StopAfter,
    Key::Node,
    Key::Account,
    Key::Route,
    Key::NodeNumber,
    Key::NodeListen,
    Key::NodeStore,
    Key::AccountSystemId,
    Key::AccountPassword,
    Key::AccountTransmit,
    Key::AccountReceive,
    Key::RoutePrefix,
    Key::RouteAccount,
];

impl Key {
    /// In which tables it stands.
    pub fn part(self) -> Part
        ensures { result ≡ part_of self }
    {
        match self {
            Key::SystemId
            | Key::DefaultValidity
            | Key::FirstSerial
            | Key::StopAfter
            | Key::Node
            | Key::Account
            | Key::Route => Part::Whole,
            Key::NodeNumber | Key::NodeListen | Key::NodeStore => Part::Nodes,
            Key::AccountSystemId
            | Key::AccountPassword
            | Key::AccountTransmit
            | Key::AccountReceive => Part::Accounts,
            Key::RoutePrefix | Key::RouteAccount => Part::Routes,
        }
    }

    /// Its name in such a table.
    pub fn name(self) -> &'static str
        ensures { result.now ≡ name_of self }
    {
        match self {
            Key::SystemId | Key::AccountSystemId => "system_id",
            Key::DefaultValidity => "default_validity",
            Key::FirstSerial => "first_serial",
            Key::StopAfter => "stop_after",
            Key::Node => "node",
            Key::Account | Key::RouteAccount => "account",
            Key::Route => "route",
            Key::NodeNumber => "number",
            Key::NodeListen => "listen",
            Key::NodeStore => "store",
            Key::AccountPassword => "password",
            Key::AccountTransmit => "transmit",
            Key::AccountReceive => "receive",
            Key::RoutePrefix => "prefix",
        }
    }

    /// Whether each such table must have it.
    pub fn is_needed(self) -> bool
        ensures { result ≡ is_needed self }
    {
        !matches!(
            self,
            Key::DefaultValidity
                | Key::FirstSerial
                | Key::StopAfter
                | Key::Account
                | Key::Route
                | Key::NodeStore
        )
    }

    /// Whether no two such tables may have one value of it.
    pub fn is_unique(self) -> bool
        ensures { result ≡ is_unique self }
    {
        matches!(
            self,
            Key::NodeNumber | Key::AccountSystemId | Key::RoutePrefix
        )
    }
}

/// The name, after that of its tables and a dot.
impl fmt::Display for Key {
    fn fmt<W: fmt::Write>(&self, f: &mut fmt::Formatter<W>) -> fmt::Result {
        match self.part() {
            Part::Whole => {}
            Part::Nodes => f.write_str("node.")?,
            Part::Accounts => f.write_str("account.")?,
            Part::Routes => f.write_str("route.")?,
        }
        f.write_str(self.name())
    }
}
