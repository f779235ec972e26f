//! Texts of a configuration as they can be shown.

use std::fmt;

/// A text of a configuration as it is shown: as it is, if all of it is visible ASCII, and else in quotes, with escapes.
#[derive(Clone, Copy)]
pub struct Shown<'a>(pub &'a str);

impl fmt::Display for Shown<'_> {
    fn fmt<W: fmt::Write>(&self, f: &mut fmt::Formatter<W>) -> fmt::Result {
        let text = self.0;
        if text
            .as_bytes()
            .iter()
            .all(|octet| b' ' < *octet && *octet < 127)
        {
            f.write_str(text)
        } else {
            write!(f, "{text:?}")
        }
    }
}
