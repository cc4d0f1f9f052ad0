//! Reads values that are typed or a text.
ghost use Rattle.std.specs.Prelude.{◌≡◌, Some, IfOk};
ghost use Rattle.haya_values.specs.MaybeTyped.{TypedOrText, maybe_typed_view, typed_or_text};

use crate::MaybeTyped;
use haya_text::{OutOfMemory, ReadFault, ReadText};
use std::alloc::Global;

impl<T: ReadText> ReadText for MaybeTyped<T> {
    type Fault = OutOfMemory;

    ghost Value = { TypedOrText T.Value };

    ghost value = { maybe_typed_view T.value };

    ghost reads = { λ text. Some (typed_or_text (T.reads text) text) };

    /// The value of the type that the text writes, otherwise the text itself. A failed allocation
    /// says nothing of the text, which is then not answered in place of a value.
    fn from_str(alloc: Global, text: &str) -> Result<MaybeTyped<T>, OutOfMemory>
        ensures { IfOk result (λ read.
            maybe_typed_view T.value read ≡ typed_or_text (T.reads text.now) text.now) }
    {
        match T::from_str(alloc, text) {
            Ok(value) => Ok(MaybeTyped::Typed(value)),
            Err(fault) if fault.is_out_of_memory() => Err(OutOfMemory),
            Err(_) => Ok(MaybeTyped::String(String::from_str(alloc, text)?)),
        }
    }
}
