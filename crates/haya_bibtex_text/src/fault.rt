//! Why a text isn't read, and where.
ghost use Rattle.std.specs.Prelude.{◌≡◌};
ghost use Rattle.haya_bibtex_text.specs.declared.fault.Stop.TheVariants as stop;

use std::alloc::{AllocError, AllocFailed};

/// What is wrong.
#[derive(Clone, Copy, Debug, Drop)]
pub enum FaultKind {
    /// An entry without a key.
    Key,
    /// Neither a comma nor the closing bracket behind a key or a value.
    Comma,
    /// Neither a name, nor a comma, nor the closing bracket where a field should begin.
    Name,
    /// No `=` behind the name of a field.
    Equals,
    /// No piece of a value where one should begin.
    Value,
    /// A `}` that closes no brace.
    Brace,
    /// A piece or an entry that isn't ended.
    Open,
    /// A name of a string with which all strings of the text would stand for too many characters:
    /// more than 64 for each character of the text, and 65,536 besides. Strings that are made of
    /// others, as `@string{b = a # a}`, could stand for more than any memory has.
    Strings,
}

impl FaultKind {
    ghost use Rattle.std.specs.Prelude.{◌≡◌};
    ghost use Rattle.haya_bibtex_text.specs.FaultNames.{fault_name};

    /// The name of the fault, in a word.
    pub fn name(self) -> &'static str
        ensures { result.now ≡ fault_name self }
    {
        match self {
            FaultKind::Key => "key",
            FaultKind::Comma => "comma",
            FaultKind::Name => "name",
            FaultKind::Equals => "equals",
            FaultKind::Value => "value",
            FaultKind::Brace => "brace",
            FaultKind::Open => "open",
            FaultKind::Strings => "strings",
        }
    }
}

/// A fault, and where it is.
#[derive(Clone, Copy, Debug, Drop)]
pub struct Fault {
    /// What is wrong.
    pub kind: FaultKind,
    /// The number of its line, from 1 on. A line feed alone ends a line.
    pub line: usize,
    /// The number of its character in the line, from 1 on.
    pub column: usize,
}

/// Why a text isn't read.
#[derive(Clone, Copy, Drop)]
pub enum ReadError {
    /// It has a fault, and this is the first.
    Refused(Fault),
    /// There was no memory.
    OutOfMemory,
}

impl From<AllocError> for ReadError {
    ghost use Rattle.std.specs.Prelude.{◌≡◌};
    ghost use Rattle.haya_bibtex_text.specs.declared.fault.ReadError.TheVariants.{OutOfMemory};

    ghost from_gives = { λ _ e. e ≡ OutOfMemory };

    fn from(_error: AllocError) -> ReadError {
        ReadError::OutOfMemory
    }
}

/// A fault, and how many characters of the text are left from its place on.
#[derive(Clone, Copy, Drop)]
pub(crate) struct Refusal {
    pub(crate) kind: FaultKind,
    pub(crate) left: usize,
}

/// Why reading stops.
#[derive(Clone, Copy, Drop)]
pub(crate) enum Stop {
    /// At a fault.
    Refused(Refusal),
    /// There was no memory.
    OutOfMemory,
}

/// A stop at a fault.
pub(crate) fn stop_at(kind: FaultKind, left: usize) -> Stop
    ensures { result ≡ stop.Refused (record { kind = kind; left = left }) }
{
    Stop::Refused(Refusal { kind, left })
}

impl From<AllocError> for Stop {
    ghost use Rattle.std.specs.Prelude.{◌≡◌};
    ghost use Rattle.haya_bibtex_text.specs.declared.fault.Stop.TheVariants.{OutOfMemory};

    ghost from_gives = { λ _ e. e ≡ OutOfMemory };

    fn from(_error: AllocError) -> Stop {
        Stop::OutOfMemory
    }
}

impl<T: Drop> From<AllocFailed<T>> for Stop {
    ghost use Rattle.std.specs.Prelude.{◌≡◌};
    ghost use Rattle.haya_bibtex_text.specs.declared.fault.Stop.TheVariants.{OutOfMemory};

    ghost from_gives = { λ _ e. e ≡ OutOfMemory };

    fn from(_error: AllocFailed<T>) -> Stop {
        Stop::OutOfMemory
    }
}
