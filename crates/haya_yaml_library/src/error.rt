//! Why a text is no library, and how that is shown.
ghost use Rattle.std.specs.Prelude.{Some};
ghost use Rattle.haya_yaml_library.specs.Messages.{error_text};

use crate::words::words;
use haya_json::ReadError;
use haya_yaml::error::Fault;
use std::fmt;

/// Why a text is no library.
#[derive(Debug, Drop)]
pub enum YamlReadError {
    /// The text says no value.
    NotYaml(Fault),
    /// The value that it says is no library. The number is that of the line, from 1 on, where the
    /// key of the refused value appears, or there is none.
    Refused(Option<usize>, ReadError),
    /// An allocation failed, which says nothing of the text.
    OutOfMemory,
}

impl fmt::Display for YamlReadError {
    ghost output = { λ e. Some (error_text e) };

    /// What is wrong, behind its place: a position in the text and what to write there, as in
    /// `line 3, column 10: nested key: put a value with a colon in quotes`, or the line and the
    /// JSON Pointer (RFC 6901) of a refused value, `line 7: /klein2009: expected an object`.
    fn fmt<W: fmt::Write>(&self, f: &mut fmt::Formatter<W>) -> fmt::Result {
        match self {
            YamlReadError::NotYaml(fault) => {
                let Fault { kind, line, column } = *fault;
                write!(f, "line {line}, column {column}: {}", words(kind))
            }
            YamlReadError::Refused(Some(line), error) => write!(f, "line {line}: {error}"),
            YamlReadError::Refused(None, error) => write!(f, "{error}"),
            YamlReadError::OutOfMemory => f.write_str("out of memory"),
        }
    }
}

impl std::error::Error for YamlReadError {}
