//! What is wrong with a line.
ghost use Rattle.std.specs.Prelude.{◌≡◌};

use haya_text::OutOfMemory;
use std::alloc::{AllocError, AllocFailed};
use thiserror::Error;

/// What is wrong with a line.
#[derive(Clone, Copy, Debug, PartialEq, Eq, Error)]
pub enum LineError {
    /// Fewer than three items, a field without `=`, or a role and a person without `:`.
    #[error("shape")]
    Shape,
    /// No depth of 0 to 500, or one that is no place for an entry.
    #[error("depth")]
    Depth,
    /// The name of no type.
    #[error("type")]
    UnknownType,
    /// The name of no field.
    #[error("field")]
    UnknownField,
    /// A value that isn't read as its field's type.
    #[error("value")]
    RefusedValue,
    /// An allocation failed, which says nothing of the line.
    #[error("out of memory")]
    OutOfMemory,
}

impl From<OutOfMemory> for LineError {
    ghost use Rattle.haya_lines.specs.declared.error.LineError.TheVariants.{OutOfMemory};

    ghost from_gives = { λ _ e. e ≡ OutOfMemory };

    fn from(_error: OutOfMemory) -> LineError {
        LineError::OutOfMemory
    }
}

impl From<AllocError> for LineError {
    ghost use Rattle.haya_lines.specs.declared.error.LineError.TheVariants.{OutOfMemory};

    ghost from_gives = { λ _ e. e ≡ OutOfMemory };

    fn from(_error: AllocError) -> LineError {
        LineError::OutOfMemory
    }
}

impl<T: Drop> From<AllocFailed<T>> for LineError {
    ghost use Rattle.haya_lines.specs.declared.error.LineError.TheVariants.{OutOfMemory};

    ghost from_gives = { λ _ e. e ≡ OutOfMemory };

    fn from(_error: AllocFailed<T>) -> LineError {
        LineError::OutOfMemory
    }
}
