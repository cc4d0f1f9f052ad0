//! Why a reader answers no value, and the error of a failed allocation.
ghost use Rattle.std.specs.Prelude.{◌≡◌, Bool, true};

use std::alloc::{AllocError, AllocFailed};
use thiserror::Error;

/// Why a reader answers no value.
pub trait ReadFault: Drop {
    // Whether the fault is out of memory, and so says nothing of the text.
    ghost out_of_memory: { Self → Bool };

    /// Whether an allocation failed: then the fault says nothing of the text.
    fn is_out_of_memory(&self) -> bool
        ensures { result ≡ out_of_memory self.now };
}

/// An allocation failed: there was no memory for it.
#[derive(Clone, Copy, Debug, PartialEq, Eq, Error)]
#[error("out of memory")]
pub struct OutOfMemory;

impl ReadFault for OutOfMemory {
    ghost out_of_memory = { λ _. true };

    fn is_out_of_memory(&self) -> bool {
        true
    }
}

impl From<AllocError> for OutOfMemory {
    fn from(_error: AllocError) -> OutOfMemory {
        OutOfMemory
    }
}

impl<T: Drop> From<AllocFailed<T>> for OutOfMemory {
    fn from(_error: AllocFailed<T>) -> OutOfMemory {
        OutOfMemory
    }
}
