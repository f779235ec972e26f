//! The tables of a configuration, and the names that mean something in each.

ghost use Rattle.std.specs.Prelude.{◌≡◌, true};
ghost use Rattle.config.specs.Keys.{name_of, part_of};
ghost use Rattle.config.specs.OwnKeys.{own_name};
ghost use Rattle.config.specs.declared.key.Key.{Key};
ghost use Rattle.config.specs.declared.own_key.OwnKey.{OwnKey};
ghost use Rattle.config_warnings.specs.Sections.{is_known, section_of};
ghost use Rattle.config_warnings.specs.declared.section.Section.TheVariants as sections;

/// Which tables of a configuration.
#[derive(Clone, Copy, Debug, PartialEq, Eq)]
pub enum Section {
    /// The table of the whole text.
    Whole,
    /// The tables of `node`.
    Nodes,
    /// The tables of `account`.
    Accounts,
    /// The tables of `route`.
    Routes,
    /// The table `own`.
    Own,
}

/// All sections.
pub(crate) const SECTIONS: [Section; 5] = [
    Section::Whole,
    Section::Nodes,
    Section::Accounts,
    Section::Routes,
    Section::Own,
];

impl Section {
    /// Whether a name means something in its tables.
    pub fn knows(self, name: &str) -> bool
        ensures { result ≡ is_known self name.now }
    {
        match self {
            Section::Whole => is_of_whole(name),
            Section::Nodes => name == "number" || name == "listen" || name == "store",
            Section::Accounts => {
                name == "system_id" || name == "password" || name == "transmit" || name == "receive"
            }
            Section::Routes => name == "prefix" || name == "account",
            Section::Own => is_of_own(name),
        }
    }
}

/// Whether a name means something in the table of the whole text.
fn is_of_whole(name: &str) -> bool
    ensures { result ≡ is_known sections.Whole name.now }
{
    name == "system_id"
        || name == "default_validity"
        || name == "first_serial"
        || name == "stop_after"
        || name == "node"
        || name == "account"
        || name == "route"
        || name == "own"
}

/// Whether a name means something in the table `own`.
fn is_of_own(name: &str) -> bool
    ensures { result ≡ is_known sections.Own name.now }
{
    name == "idle_seconds"
        || name == "bind_seconds"
        || name == "write_seconds"
        || name == "linger_seconds"
        || name == "sessions"
        || name == "part_entries"
        || name == "full"
        || name == "status"
}

/// No key that a configuration may have is one that means nothing.
pub fn each_key_is_known()
    ensures keys { (key : Key) → is_known (section_of (part_of key)) (name_of key) ≡ true }
    ensures own { (key : OwnKey) → is_known sections.Own (own_name key) ≡ true }
{}
