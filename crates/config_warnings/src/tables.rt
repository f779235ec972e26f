//! The tables of the sections of a document.

ghost use Rattle.std.specs.Prelude.{◌≡◌, map, option_to_list};
ghost use Rattle.toml.specs.Data.{get};
ghost use Rattle.toml.specs.View.{view};
ghost use Rattle.config.specs.Config as config_spec;
ghost use Rattle.config.specs.Rows as rows;
ghost use Rattle.config_warnings.specs.Sections.{tables_of};

use crate::section::Section;
use std::slice;
use toml::Value;

/// The tables of a section in a document, in the order of the text: the document, what is in an array of it, or what stands under `own`. It takes no memory.
pub fn tables_in(document: &Value, section: Section) -> &[Value]
    ensures { map view result.now ≡ tables_of section (view document.now) }
{
    match section {
        Section::Whole => slice::from_ref(document),
        Section::Nodes => within(document, "node"),
        Section::Accounts => within(document, "account"),
        Section::Routes => within(document, "route"),
        Section::Own => beneath(document, "own"),
    }
}

/// The elements of the array under a name; none if there is no array.
fn within<'a>(document: &'a Value, name: &str) -> &'a [Value]
    ensures { map view result.now ≡ rows.within name.now (view document.now) }
{
    let Some(value) = document.get(name) else {
        return &[];
    };
    match value.as_array() {
        Some(elements) => elements.as_slice(),
        None => &[],
    }
}

/// What stands under a name; nothing if nothing does.
fn beneath<'a>(document: &'a Value, name: &str) -> &'a [Value]
    ensures { map view result.now ≡ option_to_list (get name.now (view document.now)) }
{
    match document.get(name) {
        Some(value) => slice::from_ref(value),
        None => &[],
    }
}

/// The text under a name of a table; empty if there is none. It takes no memory.
pub fn text_at<'a>(table: &'a Value, name: &str) -> &'a str
    ensures { result.now ≡ config_spec.text_at name.now (view table.now) }
{
    let Some(value) = table.get(name) else {
        return "";
    };
    match value.as_str() {
        Some(text) => text,
        None => "",
    }
}
