//! Why a text is no library, and how that is shown.
ghost use Rattle.std.specs.Prelude.{◌≡◌, Some};
ghost use Rattle.haya_bibtex.specs.Messages.{error_text, kind_text};

use haya_bibtex_text::{Fault, FaultKind};
use std::fmt;

/// Why a text is no library.
#[derive(Debug, Drop)]
pub enum BibtexReadError {
    /// The text isn't by the grammar: its first fault.
    NotBibtex(Fault),
    /// An allocation failed, which says nothing of the text.
    OutOfMemory,
}

impl fmt::Display for BibtexReadError {
    ghost output = { λ e. Some (error_text e) };

    /// What is wrong, behind its place in the text, as in
    /// `line 3, column 10: no comma: expected a comma or the closing bracket`.
    fn fmt<W: fmt::Write>(&self, f: &mut fmt::Formatter<W>) -> fmt::Result {
        match self {
            BibtexReadError::NotBibtex(fault) => {
                let Fault { kind, line, column } = *fault;
                write!(f, "line {line}, column {column}: {}", words(kind))
            }
            BibtexReadError::OutOfMemory => f.write_str("out of memory"),
        }
    }
}

impl std::error::Error for BibtexReadError {}

// What is wrong, and what belongs there.
fn words(kind: FaultKind) -> &'static str
    ensures { result.now ≡ kind_text kind }
{
    match kind {
        FaultKind::Key => "no key: an entry begins with its key",
        FaultKind::Comma => "no comma: expected a comma or the closing bracket",
        FaultKind::Name => "no name: expected a field or the closing bracket",
        FaultKind::Equals => "no equals sign: expected = behind the name of a field",
        FaultKind::Value => "no value: put a text in braces or quotation marks",
        FaultKind::Brace => "brace: this closes no brace",
        FaultKind::Open => "open: the end of this entry or text is missing",
        FaultKind::Strings => "strings: they would stand for more than 64 times the text",
    }
}
