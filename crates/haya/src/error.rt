//! Why the process ends with status 2 before anything is asked.
use std::alloc::{AllocError, AllocFailed};
use std::io;
use thiserror::Error;

/// Why there is nothing to ask.
#[derive(Debug, Drop, Error)]
pub enum StartError {
    /// An argument isn't UTF-8, or the arguments can't be had.
    #[error("an argument is not text")]
    NoWords,
    /// No keys for the library's map can be drawn.
    #[error("no random keys")]
    NoKeys,
    /// What `--list` prints can't be printed.
    #[error("cannot write")]
    CannotWrite,
    /// An allocation failed.
    #[error("out of memory")]
    OutOfMemory,
}

impl StartError {
    /// Why the arguments can't be had, where this is the error.
    pub fn of_words(error: &io::Error) -> StartError {
        match error.kind() {
            io::ErrorKind::OutOfMemory => StartError::OutOfMemory,
            _ => StartError::NoWords,
        }
    }
}

impl From<AllocError> for StartError {
    fn from(_error: AllocError) -> StartError {
        StartError::OutOfMemory
    }
}

impl<T: Drop> From<AllocFailed<T>> for StartError {
    fn from(_error: AllocFailed<T>) -> StartError {
        StartError::OutOfMemory
    }
}
