//! Copies of values that are typed or a text.
ghost use Rattle.std.specs.Prelude.{◌≡◌, IfOk};
ghost use Rattle.haya_values.specs.MaybeTyped.{TypedOrText, maybe_typed_view};

use crate::MaybeTyped;
use haya_text::{OutOfMemory, TryClone};
use std::alloc::Global;

impl<T: TryClone> MaybeTyped<T> {
    /// A copy, equal to this value.
    pub fn try_clone(&self, alloc: Global) -> Result<MaybeTyped<T>, OutOfMemory>
        ensures { IfOk result (λ copy.
            maybe_typed_view T.view copy ≡ maybe_typed_view T.view self.now) }
    {
        match self {
            MaybeTyped::Typed(value) => Ok(MaybeTyped::Typed(value.try_clone(alloc)?)),
            MaybeTyped::String(text) => Ok(MaybeTyped::String(text.try_clone(alloc)?)),
        }
    }
}

impl<T: TryClone> TryClone for MaybeTyped<T> {
    ghost View = { TypedOrText T.View };

    ghost view = { maybe_typed_view T.view };

    fn try_clone(&self, alloc: Global) -> Result<MaybeTyped<T>, OutOfMemory> {
        self.try_clone(alloc)
    }
}
