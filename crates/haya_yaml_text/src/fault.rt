//! Why a text says no value, and where.
use std::alloc::{AllocError, AllocFailed};

/// Why a text says no value.
#[derive(Clone, Copy, Debug, Drop, PartialEq, Eq)]
pub enum FaultKind {
    /// A character that no text in YAML may have.
    ControlCharacter,
    /// A directive that isn't read.
    Directive,
    /// More than one document.
    SecondDocument,
    /// A tab where only spaces may indent.
    Tab,
    /// A line that no entry takes.
    Indent,
    /// A line of a map without a key.
    NoKey,
    /// A colon that ends a key in a value.
    NestedKey,
    /// A colon without a key.
    EmptyKey,
    /// A key behind `?`.
    ExplicitKey,
    /// A name that a map has twice.
    DuplicateKey,
    /// The key `<<`.
    MergeKey,
    /// A key in braces that goes on over lines.
    KeyOverLines,
    /// A key and a value in square brackets.
    Pair,
    /// An anchor, `&`.
    Anchor,
    /// An alias, `*`.
    Alias,
    /// A tag, `!`.
    Tag,
    /// Another sign that begins no value.
    Indicator,
    /// A quote or a bracket without its end.
    Unclosed,
    /// An escape that means nothing.
    Escape,
    /// Something between brackets that can't stand there.
    Flow,
    /// Something behind the end of a value.
    Behind,
    /// Signs that can't stand behind `|` or `>`.
    Header,
    /// A line of spaces before the text of a block scalar that is longer than its indent.
    Blank,
    /// A list or map inside 128 others.
    TooDeep,
}

impl FaultKind {
    /// The name of the fault, as `docs/yaml.md` lists it.
    pub fn name(self) -> &'static str {
        match self {
            FaultKind::ControlCharacter => "control character",
            FaultKind::Directive => "directive",
            FaultKind::SecondDocument => "second document",
            FaultKind::Tab => "tab",
            FaultKind::Indent => "indent",
            FaultKind::NoKey => "no key",
            FaultKind::NestedKey => "nested key",
            FaultKind::EmptyKey => "empty key",
            FaultKind::ExplicitKey => "explicit key",
            FaultKind::DuplicateKey => "duplicate key",
            FaultKind::MergeKey => "merge key",
            FaultKind::KeyOverLines => "key over lines",
            FaultKind::Pair => "pair",
            FaultKind::Anchor => "anchor",
            FaultKind::Alias => "alias",
            FaultKind::Tag => "tag",
            FaultKind::Indicator => "indicator",
            FaultKind::Unclosed => "unclosed",
            FaultKind::Escape => "escape",
            FaultKind::Flow => "flow",
            FaultKind::Behind => "behind",
            FaultKind::Header => "header",
            FaultKind::Blank => "blank",
            FaultKind::TooDeep => "too deep",
        }
    }
}

/// A fault, and where it is.
#[derive(Clone, Copy, Debug, Drop, PartialEq, Eq)]
pub struct Refusal {
    /// What is wrong.
    pub kind: FaultKind,
    /// The number of its line among those that are read, from 1 on, or 0 in a text that has its own
    /// lines.
    pub line: usize,
    /// How many bytes are left there, of the line or of that text.
    pub left: usize,
}

impl Refusal {
    /// A fault in a text that has its own lines, where this is left of it.
    pub fn here(kind: FaultKind, rest: &str) -> ReadError {
        Refusal::at(kind, rest.len())
    }

    /// A fault in a text that has its own lines, where so many bytes are left of it.
    pub fn at(kind: FaultKind, left: usize) -> ReadError {
        ReadError::Refused(Refusal {
            kind,
            line: 0,
            left,
        })
    }
}

/// Why nothing is read.
#[derive(Clone, Copy, Debug, Drop, PartialEq, Eq)]
pub enum ReadError {
    /// The text says no value.
    Refused(Refusal),
    /// There was no memory.
    OutOfMemory,
}

impl From<AllocError> for ReadError {
    ghost use Rattle.haya_yaml_text.specs.declared.fault.ReadError.TheVariants.{OutOfMemory};
    ghost use Rattle.std.specs.Prelude.{◌≡◌};

    ghost from_gives = { λ _ e. e ≡ OutOfMemory };

    fn from(_refused: AllocError) -> ReadError {
        ReadError::OutOfMemory
    }
}

impl<T: Drop> From<AllocFailed<T>> for ReadError {
    ghost use Rattle.haya_yaml_text.specs.declared.fault.ReadError.TheVariants.{OutOfMemory};
    ghost use Rattle.std.specs.Prelude.{◌≡◌};

    ghost from_gives = { λ _ e. e ≡ OutOfMemory };

    fn from(_refused: AllocFailed<T>) -> ReadError {
        ReadError::OutOfMemory
    }
}
