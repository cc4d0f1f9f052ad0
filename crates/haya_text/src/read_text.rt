//! Values that are read from a text.
ghost use Rattle.std.specs.Prelude.{◌≡◌, ℕ, List, false, Option, Some, None, IfOk, IfErr};

use crate::ReadFault;
use std::alloc::Global;

/// A value that is read from a text, where its reader takes memory.
pub trait ReadText: Sized {
    /// Why no value is read.
    type Fault: ReadFault;

    // What a value is to its readers: two values that are equal by value have the same.
    ghost Value: { Type 0 };

    ghost value: { Self → Value };

    // What the bytes of a text read as, if they read as a value.
    ghost reads: { List ℕ → Option Value };

    /// The value that the whole text reads as. A fault other than out of memory says that it reads
    /// as none.
    fn from_str(alloc: Global, text: &str) -> Result<Self, Self::Fault>
        ensures ok { IfOk result (λ v. reads text.now ≡ Some (value v)) }
        ensures fault { IfErr result
            (λ e. Self.Fault.out_of_memory e ≡ false → reads text.now ≡ None) };
}
