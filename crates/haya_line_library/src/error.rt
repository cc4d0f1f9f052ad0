//! Why a text describes no library.
ghost use Rattle.std.specs.Prelude.{◌≡◌, ◌≢◌};
ghost use Rattle.haya_line_library.specs.declared.error.InputError.TheVariants.{Line};

use haya_lines::LineError;
use haya_text::OutOfMemory;
use std::alloc::{AllocError, AllocFailed};
use thiserror::Error;

/// Why a text describes no library.
#[derive(Clone, Copy, Debug, PartialEq, Eq, Error)]
pub enum InputError {
    /// The line with this number, from 1 on, is the first with a fault.
    #[error("line {0}: {1}")]
    Line(usize, LineError),
    /// An allocation failed, which says nothing of the text.
    #[error("out of memory")]
    OutOfMemory,
}

impl InputError {
    /// The fault of the line with this number. Out of memory is none of the line's.
    pub(crate) fn of_line(number: usize, fault: LineError) -> InputError
        ensures memory { fault ≡ LineError.OutOfMemory → result ≡ InputError.OutOfMemory }
        ensures line { fault ≢ LineError.OutOfMemory → result ≡ Line number fault }
    {
        match fault {
            LineError::OutOfMemory => InputError::OutOfMemory,
            _ => InputError::Line(number, fault),
        }
    }
}

impl From<OutOfMemory> for InputError {
    ghost use Rattle.haya_line_library.specs.declared.error.InputError.TheVariants.{OutOfMemory};

    ghost from_gives = { λ _ e. e ≡ OutOfMemory };

    fn from(_error: OutOfMemory) -> InputError {
        InputError::OutOfMemory
    }
}

impl From<AllocError> for InputError {
    ghost use Rattle.haya_line_library.specs.declared.error.InputError.TheVariants.{OutOfMemory};

    ghost from_gives = { λ _ e. e ≡ OutOfMemory };

    fn from(_error: AllocError) -> InputError {
        InputError::OutOfMemory
    }
}

impl<T: Drop> From<AllocFailed<T>> for InputError {
    ghost use Rattle.haya_line_library.specs.declared.error.InputError.TheVariants.{OutOfMemory};

    ghost from_gives = { λ _ e. e ≡ OutOfMemory };

    fn from(_error: AllocFailed<T>) -> InputError {
        InputError::OutOfMemory
    }
}
