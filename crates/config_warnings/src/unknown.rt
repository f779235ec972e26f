//! The names in a table that mean nothing there.

ghost use Rattle.std.specs.Prelude.{◌≡◌, map, IfOk};
ghost use Rattle.toml.specs.View.{view};
ghost use Rattle.config_warnings.specs.Unknown.{unknown_in};

use crate::section::Section;
use std::alloc::{AllocError, Global};
use toml::Value;

/// The names in a table of a section that mean nothing there, in ascending order; none of what is no table. An `Err` is want of memory.
pub fn unknown_names<'a>(
    alloc: Global,
    section: Section,
    table: &'a Value,
) -> Result<Vec<&'a str>, AllocError>
    ensures { IfOk result (λ names. map (λ name. name.now) names.items ≡ unknown_in section (view table.now)) }
{
    let mut names = Vec::new(alloc);
    let Some(entries) = table.as_table() else {
        return Ok(names);
    };
    for (name, _value) in entries {
        if !section.knows(name.as_str()) {
            names.push(name.as_str())?;
        }
    }
    Ok(names)
}
