//! Why not all of a text is answered.
use std::alloc::AllocError;
use std::io;

/// Why a text isn't written to its end.
#[derive(Clone, Copy, Debug, Drop, PartialEq, Eq)]
pub enum WriteError {
    /// Nobody reads what is written.
    Closed,
    /// A write failed otherwise.
    CannotWrite,
}

/// Why not all of a text is answered. `E` is why its answerer refuses a line, or its end.
#[derive(Debug, Drop)]
pub enum StreamError<E> {
    /// The input's end can't be reached.
    CannotRead(io::Error),
    /// The next line isn't UTF-8.
    NotText,
    /// The next line, or the end, is refused.
    Refused(E),
    /// What is printed can't be written.
    CannotWrite(WriteError),
    /// An allocation failed.
    OutOfMemory,
}

impl<E> From<AllocError> for StreamError<E> {
    ghost use Rattle.std.specs.Prelude.{◌≡◌};
    ghost use Rattle.haya_line_stream.specs.declared.error.StreamError.TheVariants.{OutOfMemory};

    ghost from_gives = { λ _ e. e ≡ OutOfMemory };

    fn from(_error: AllocError) -> StreamError<E> {
        StreamError::OutOfMemory
    }
}
