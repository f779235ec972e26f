//! What the arguments of the program ask for.

ghost use Rattle.std.specs.Prelude.{◌≡◌, false, map};
ghost use Rattle.std.specs.String.{string_bytes};
ghost use Rattle.serve_runner.specs.Arguments.{alone, asked_by, checks_from, is_help, is_option, plain, serves_from, with_file, with_option};

/// How a server is to be run, behind its file.
#[derive(Clone, Copy, Debug, PartialEq, Eq)]
pub struct Options {
    /// `--quiet`: with no lines but those that must be told.
    pub is_quiet: bool,
    /// `--until-eof`: until standard input ends.
    pub is_until_end: bool,
}

/// What the arguments of the program ask for. The file of Serve and Check is the second of them.
#[derive(Clone, Copy, Debug, PartialEq, Eq)]
pub enum Asked {
    /// `script`: to run a script from standard input.
    Script,
    /// `serve FILE`: to serve by the configuration in a file.
    Serve(Options),
    /// `check FILE`: to say what the configuration in a file means, or why it is none; true with `--strict`: a warning is a fault.
    Check(bool),
    /// `--help`, `-h` or `help`, or the first two in place of a file: to say how the program is called.
    Help,
    /// `--version`: to say which program it is.
    Version,
    /// An option stands in place of the file.
    NoFile,
    /// Behind a file the word of this place, from 0, is no option of what it is asked for.
    Strange(usize),
    /// Nothing that there is.
    Unknown,
}

/// What these arguments ask for, behind the program's name. It takes no memory.
pub fn asked_by(arguments: &[String]) -> Asked
    ensures { result ≡ asked_by (map string_bytes arguments.now) }
{
    match arguments {
        [] => Asked::Unknown,
        [word] => alone(word.as_str()),
        [word, file, options @ ..] => with_file(word.as_str(), file.as_str(), options),
    }
}

/// What a word alone asks for.
fn alone(word: &str) -> Asked
    ensures { result ≡ alone word.now }
{
    if word == "script" {
        Asked::Script
    } else if is_help(word) || word == "help" {
        Asked::Help
    } else if word == "--version" {
        Asked::Version
    } else {
        Asked::Unknown
    }
}

/// Whether a word asks for help.
fn is_help(word: &str) -> bool
    ensures { result ≡ is_help word.now }
{
    word == "--help" || word == "-h"
}

/// Whether a word is an option of whatever word.
fn is_option(word: &str) -> bool
    ensures { result ≡ is_option word.now }
{
    word == "--quiet" || word == "--until-eof" || word == "--strict"
}

/// What a word asks for that a file follows, and these options.
fn with_file(word: &str, file: &str, options: &[String]) -> Asked
    ensures { result ≡ with_file word.now file.now (map string_bytes options.now) }
{
    if word != "serve" && word != "check" {
        Asked::Unknown
    } else if is_help(file) {
        Asked::Help
    } else if is_option(file) {
        Asked::NoFile
    } else if word == "serve" {
        served_with(options)
    } else {
        checked_with(options)
    }
}

/// Serving with these options, if each word is one.
fn served_with(words: &[String]) -> Asked
    ensures { result ≡ serves_from plain 0 (map string_bytes words.now) }
{
    let mut options = Options {
        is_quiet: false,
        is_until_end: false,
    };
    for (place, word) in words.iter().enumerate() {
        match with_option(options, word.as_str()) {
            Some(more) => options = more,
            None => return Asked::Strange(place),
        }
    }
    Asked::Serve(options)
}

/// The options with one more, if the word is one.
fn with_option(options: Options, word: &str) -> Option<Options>
    ensures { result ≡ with_option options word.now }
{
    if word == "--quiet" {
        Some(Options {
            is_quiet: true,
            ..options
        })
    } else if word == "--until-eof" {
        Some(Options {
            is_until_end: true,
            ..options
        })
    } else {
        None
    }
}

/// Checking with these options, if each word is one.
fn checked_with(words: &[String]) -> Asked
    ensures { result ≡ checks_from false 0 (map string_bytes words.now) }
{
    let mut is_strict = false;
    for (place, word) in words.iter().enumerate() {
        if word.as_str() != "--strict" {
            return Asked::Strange(place);
        }
        is_strict = true;
    }
    Asked::Check(is_strict)
}
