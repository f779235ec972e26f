//! What stands in the table of an account.

ghost use Rattle.std.specs.Prelude.{◌≡◌, map};
ghost use Rattle.toml.specs.View.{view};
ghost use Rattle.config.specs.Rows as rows;
ghost use Rattle.config.specs.declared.key.Part.TheVariants.{Accounts};
ghost use Rattle.config.specs.Config.{text_at};
ghost use Rattle.config_limits.specs.Reading.{elements};

use toml::Value;

/// The tables of accounts of a document.
pub(crate) fn account_rows(document: &Value) -> &[Value]
    ensures { map view result.now ≡ rows.rows_of (view document.now) Accounts }
{
    match document.get("account") {
        Some(value) => elements_of(value),
        None => &[],
    }
}

/// The elements of a value that is an array; else none.
pub(crate) fn elements_of(value: &Value) -> &[Value]
    ensures { map view result.now ≡ elements (view value.now) }
{
    match value.as_array() {
        Some(elements) => elements.as_slice(),
        None => &[],
    }
}

/// A number that is not negative.
pub(crate) fn as_number(value: &Value) -> Option<u64>
    ensures { result ≡ rows.as_number (view value.now) }
{
    match value.as_integer() {
        Some(number) if number >= 0 => Some(number as u64),
        _ => None,
    }
}

/// The text under a name; empty if there is none.
pub(crate) fn text_at<'a>(row: &'a Value, name: &str) -> &'a str
    ensures { result.now ≡ text_at name.now (view row.now) }
{
    match row.get(name) {
        Some(value) => value.as_str().unwrap_or(""),
        None => "",
    }
}
