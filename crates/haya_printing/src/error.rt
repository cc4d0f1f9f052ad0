//! Why an entry isn't printed as lines.
ghost use Rattle.std.specs.Prelude.{◌≡◌};

use haya_text::OutOfMemory;
use std::alloc::{AllocError, AllocFailed};
use thiserror::Error;

/// Why an entry isn't printed as lines.
#[derive(Debug, Drop, PartialEq, Eq, Error)]
pub enum LinesError {
    /// The entry can't be printed in lines: of it or of an ancestor, which has this key, the field
    /// with this name has a value that no text in a line reads as. The name is `key` where it is
    /// the key that no line has, and `parent` where ancestors are deeper than lines go.
    #[error("`{0}` can't be printed in lines: {1}")]
    NotPrintable(String, &'static str),
    /// An allocation failed, which says nothing of the entry.
    #[error("out of memory")]
    OutOfMemory,
}

impl From<OutOfMemory> for LinesError {
    ghost use Rattle.haya_printing.specs.declared.error.LinesError.TheVariants.{OutOfMemory};

    ghost from_gives = { λ _ e. e ≡ OutOfMemory };

    fn from(_error: OutOfMemory) -> LinesError {
        LinesError::OutOfMemory
    }
}

impl From<AllocError> for LinesError {
    ghost use Rattle.haya_printing.specs.declared.error.LinesError.TheVariants.{OutOfMemory};

    ghost from_gives = { λ _ e. e ≡ OutOfMemory };

    fn from(_error: AllocError) -> LinesError {
        LinesError::OutOfMemory
    }
}

impl<T: Drop> From<AllocFailed<T>> for LinesError {
    ghost use Rattle.haya_printing.specs.declared.error.LinesError.TheVariants.{OutOfMemory};

    ghost from_gives = { λ _ e. e ≡ OutOfMemory };

    fn from(_error: AllocFailed<T>) -> LinesError {
        LinesError::OutOfMemory
    }
}
