//! Why a text is no library, or a line no entry, and how that is shown.
ghost use Rattle.std.specs.Prelude.{Some, map, string_bytes};
ghost use Rattle.haya_json.specs.Messages.{element_error_text, error_text, line_error_text};
ghost use Rattle.haya_json.specs.Messages.{pointer, pointer_char};
ghost use Rattle.haya_json.specs.Messages.{pointer_name, pointer_step, why_text};
ghost use Rattle.haya_json.specs.Refusal.{step_view};

use crate::fault::{Step, Why};
use crate::position::Position;
use std::fmt;

/// Why a text is no library.
#[derive(Debug, Drop)]
pub enum ReadError {
    /// The text is no JSON, or it nests more than 128 deep. The position is that of the first token
    /// that can't stand there, or the end of the text.
    NotJson(Position),
    /// An object in it has a member twice. The position is that of the second one's name.
    NameTwice(Position),
    /// The value at the end of these steps is refused.
    Refused(Vec<Step>, Why),
    /// An allocation failed, which says nothing of the text.
    OutOfMemory,
}

impl fmt::Display for ReadError {
    ghost output = { λ e. Some (error_text e) };

    /// What is wrong, behind its place: a position in the text, `line 3, column 7: invalid JSON`, or
    /// that of a refused value as a JSON Pointer (RFC 6901),
    /// `/klein2009/parent/1/date: no date`.
    fn fmt<W: fmt::Write>(&self, f: &mut fmt::Formatter<W>) -> fmt::Result {
        match self {
            ReadError::NotJson(position) => write!(f, "{position}: invalid JSON"),
            ReadError::NameTwice(position) => write!(f, "{position}: duplicate member"),
            ReadError::Refused(path, why) => write!(f, "{}: {why}", Pointer(path)),
            ReadError::OutOfMemory => f.write_str("out of memory"),
        }
    }
}

impl std::error::Error for ReadError {}

/// Why a line of a text is no entry.
#[derive(Debug, Drop)]
pub struct JsonLineError {
    /// The number of the line, from 1 on.
    pub line: usize,
    /// What is wrong with it. A position is one in the line alone, and so its line is 1.
    pub error: ReadError,
}

impl fmt::Display for JsonLineError {
    ghost output = { λ e. Some (line_error_text e) };

    /// What is wrong, behind its place in the text: `line 3, column 7: invalid JSON`, or
    /// `line 3: /entry/date: no date`.
    fn fmt<W: fmt::Write>(&self, f: &mut fmt::Formatter<W>) -> fmt::Result {
        let line = self.line;
        match &self.error {
            ReadError::NotJson(position) => {
                let position = Position { line, ..*position };
                write!(f, "{position}: invalid JSON")
            }
            ReadError::NameTwice(position) => {
                let position = Position { line, ..*position };
                write!(f, "{position}: duplicate member")
            }
            error => write!(f, "line {line}: {error}"),
        }
    }
}

impl std::error::Error for JsonLineError {}

/// Why an element of a text, an item or a member, is no entry.
#[derive(Debug, Drop)]
pub struct ElementError {
    /// The number of the element, from 1 on.
    pub number: usize,
    /// What is wrong with it. A position is one in the element alone.
    pub error: ReadError,
}

impl fmt::Display for ElementError {
    ghost output = { λ e. Some (element_error_text e) };

    /// What is wrong, behind its place in the text: `element 3, line 1, column 7: invalid JSON`, or
    /// `/klein2009: expected an object`.
    fn fmt<W: fmt::Write>(&self, f: &mut fmt::Formatter<W>) -> fmt::Result {
        match &self.error {
            ReadError::NotJson(_) | ReadError::NameTwice(_) => {
                write!(f, "element {}, {}", self.number, self.error)
            }
            error => write!(f, "{error}"),
        }
    }
}

impl std::error::Error for ElementError {}

impl fmt::Display for Why {
    ghost output = { λ why. Some (why_text why) };

    /// What was expected, or what the text was not read as.
    fn fmt<W: fmt::Write>(&self, f: &mut fmt::Formatter<W>) -> fmt::Result {
        match self {
            Why::NotObject => f.write_str("expected an object"),
            Why::NotEntries => f.write_str("expected an entry or a list of entries"),
            Why::NotList => f.write_str("expected a list"),
            Why::NotText => f.write_str("expected a text"),
            Why::NotTruth => f.write_str("expected true or false"),
            Why::NotWhole => f.write_str("expected a whole number"),
            Why::Missing => f.write_str("missing"),
            Why::Twice => f.write_str("given twice"),
            Why::UnknownType => f.write_str("unknown type"),
            Why::UnknownRole => f.write_str("unknown role"),
            Why::NotChunks => f.write_str("a brace closes no group"),
            Why::NotPerson => f.write_str("no person"),
            Why::NotDate => f.write_str("no date"),
            Why::NotNumber => f.write_str("no number"),
            Why::NotDuration => f.write_str("no duration"),
        }
    }
}

// The JSON Pointer of a path.
#[derive(Drop)]
struct Pointer<'a>(&'a Vec<Step>);

impl fmt::Display for Pointer<'_> {
    ghost output = { λ p. Some (pointer (map step_view p.0.now.items)) };

    fn fmt<W: fmt::Write>(&self, f: &mut fmt::Formatter<W>) -> fmt::Result {
        for step in self.0 {
            write!(f, "{step}")?;
        }
        Ok(())
    }
}

impl fmt::Display for Step {
    ghost output = { λ step. Some (pointer_step (step_view step)) };

    /// The step as a part of a JSON Pointer, behind a slash.
    fn fmt<W: fmt::Write>(&self, f: &mut fmt::Formatter<W>) -> fmt::Result {
        match self {
            Step::Name(name) => write!(f, "/{}", PointerName(name)),
            Step::Place(place) => write!(f, "/{place}"),
        }
    }
}

// A name in a JSON Pointer: `~0` for a tilde, and `~1` for a slash.
#[derive(Drop)]
struct PointerName<'a>(&'a String);

impl fmt::Display for PointerName<'_> {
    ghost output = { λ name. Some (pointer_name (string_bytes name.0.now)) };

    fn fmt<W: fmt::Write>(&self, f: &mut fmt::Formatter<W>) -> fmt::Result {
        for c in self.0.as_str().chars() {
            write!(f, "{}", PointerChar(c))?;
        }
        Ok(())
    }
}

// A character of such a name.
#[derive(Clone, Copy)]
struct PointerChar(char);

impl fmt::Display for PointerChar {
    ghost output = { λ c. Some (pointer_char c.0) };

    fn fmt<W: fmt::Write>(&self, f: &mut fmt::Formatter<W>) -> fmt::Result {
        match self.0 {
            '~' => write!(f, "~0"),
            '/' => write!(f, "~1"),
            c => write!(f, "{c}"),
        }
    }
}
