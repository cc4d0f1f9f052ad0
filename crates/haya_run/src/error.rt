//! Why the program ends with another status than 0.
ghost use Rattle.std.specs.Prelude.{◌≡◌, ◌≢◌};
ghost use Rattle.haya_run.specs.declared.error.RunError.TheVariants.{Usage};

use haya_line_library::InputError;
use haya_line_stream::WriteError;
use hayagriva::{OutOfMemory, SelectorError};
use std::alloc::{AllocError, AllocFailed};
use std::io;
use thiserror::Error;

/// Why the program prints no hits, or not all of them.
#[derive(Debug, Drop, PartialEq, Eq, Error)]
pub enum RunError {
    /// There isn't exactly one argument, or one isn't UTF-8.
    #[error("usage: hayagriva_query SELECTOR")]
    Usage,
    /// The input's end can't be reached.
    #[error("cannot read")]
    CannotRead,
    /// The input isn't UTF-8.
    #[error("not text")]
    NotText,
    /// The input describes no library.
    #[error("{0}")]
    Input(InputError),
    /// The argument is no selector.
    #[error("{0}")]
    Selector(SelectorError),
    /// A line can't be printed.
    #[error("cannot write")]
    CannotWrite,
    /// An allocation failed.
    #[error("out of memory")]
    OutOfMemory,
}

impl RunError {
    /// The status that the process is to end with: 2 where the arguments are wrong, otherwise 1.
    pub fn status(&self) -> u8
        ensures usage { self.now ≡ Usage → result ≡ 2 }
        ensures other { self.now ≢ Usage → result ≡ 1 }
    {
        match self {
            RunError::Usage => 2,
            _ => 1,
        }
    }
}

impl From<InputError> for RunError {
    ghost use Rattle.haya_line_library.specs.declared.error.InputError.TheVariants as error;
    ghost use Rattle.haya_run.specs.declared.error.RunError.TheVariants.{Input, OutOfMemory};

    ghost from_gives = { λ s e. (s ≡ error.OutOfMemory → e ≡ OutOfMemory)
        × (s ≢ error.OutOfMemory → e ≡ Input s) };

    fn from(error: InputError) -> RunError {
        match error {
            InputError::OutOfMemory => RunError::OutOfMemory,
            _ => RunError::Input(error),
        }
    }
}

impl From<SelectorError> for RunError {
    ghost use Rattle.hayagriva.specs.declared.SelectorError.TheVariants as error;
    ghost use Rattle.haya_run.specs.declared.error.RunError.TheVariants.{OutOfMemory, Selector};

    ghost from_gives = { λ s e. (s ≡ error.OutOfMemory → e ≡ OutOfMemory)
        × (s ≢ error.OutOfMemory → e ≡ Selector s) };

    fn from(error: SelectorError) -> RunError {
        match error {
            SelectorError::OutOfMemory => RunError::OutOfMemory,
            _ => RunError::Selector(error),
        }
    }
}

impl From<io::Error> for RunError {
    ghost use Rattle.std.specs.IoError.{error_kind};
    ghost use Rattle.std.specs.declared.io.ErrorKind.TheVariants as kind;
    ghost use Rattle.haya_run.specs.declared.error.RunError.TheVariants.{CannotRead, OutOfMemory};

    ghost from_gives = { λ s e. (error_kind s ≡ kind.OutOfMemory → e ≡ OutOfMemory)
        × (error_kind s ≢ kind.OutOfMemory → e ≡ CannotRead) };

    fn from(error: io::Error) -> RunError {
        match error.kind() {
            io::ErrorKind::OutOfMemory => RunError::OutOfMemory,
            _ => RunError::CannotRead,
        }
    }
}

impl From<WriteError> for RunError {
    ghost use Rattle.haya_run.specs.declared.error.RunError.TheVariants.{CannotWrite};

    ghost from_gives = { λ _ e. e ≡ CannotWrite };

    fn from(_fault: WriteError) -> RunError {
        RunError::CannotWrite
    }
}

impl From<OutOfMemory> for RunError {
    ghost use Rattle.haya_run.specs.declared.error.RunError.TheVariants.{OutOfMemory};

    ghost from_gives = { λ _ e. e ≡ OutOfMemory };

    fn from(_error: OutOfMemory) -> RunError {
        RunError::OutOfMemory
    }
}

impl From<AllocError> for RunError {
    ghost use Rattle.haya_run.specs.declared.error.RunError.TheVariants.{OutOfMemory};

    ghost from_gives = { λ _ e. e ≡ OutOfMemory };

    fn from(_error: AllocError) -> RunError {
        RunError::OutOfMemory
    }
}

impl<T: Drop> From<AllocFailed<T>> for RunError {
    ghost use Rattle.haya_run.specs.declared.error.RunError.TheVariants.{OutOfMemory};

    ghost from_gives = { λ _ e. e ≡ OutOfMemory };

    fn from(_error: AllocFailed<T>) -> RunError {
        RunError::OutOfMemory
    }
}
