//! Which program it is.

/// The program, and its version: the date with which `CHANGELOG.md` begins, which `tools/check` compares.
pub const PROGRAM: &str = "centre 2026-12-02 of Tomveul, SMPP 3.4";
