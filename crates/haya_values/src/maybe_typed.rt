//! Values of a type, or texts where no value of it is written.
ghost use Rattle.std.specs.Prelude.{◌≡◌, ◌↔◌, Some, None, option_map, string_bytes, IfOk, IfSome};
ghost use Rattle.std.specs.Prelude.{IsOk};
ghost use Rattle.std.specs.Cow.{cow_str_bytes, IsOwnedStr};
ghost use Rattle.haya_values.specs.MaybeTyped.{as_typed, maybe_typed_view, IsTyped, shown};
ghost use Rattle.haya_values.specs.declared.maybe_typed.MaybeTyped.TheVariants.{Typed};

mod copies;
mod order;
mod reading;

use haya_text::OutOfMemory;
use std::alloc::Global;
use std::borrow::CowStr;
use std::fmt;

/// A value of a type, or a text in its place: `5th` as the number that it is, `a few` as it stands.
#[derive(Debug, Drop, PartialEq, Eq, Hash)]
pub enum MaybeTyped<T> {
    /// A value of the type.
    Typed(T),
    /// A text in place of one.
    String(String),
}

impl<T> MaybeTyped<T> {
    /// The typed value, if it is one.
    pub fn as_typed(&self) -> Option<&T>
        ensures { option_map (λ v. v.now) result ≡ as_typed (maybe_typed_view (λ v. v) self.now) }
    {
        match self {
            MaybeTyped::Typed(value) => Some(value),
            MaybeTyped::String(_) => None,
        }
    }

    /// The same with the typed value borrowed, which takes no memory. A text is copied. The answer
    /// is `OutOfMemory` where an allocation for the copy fails.
    pub fn to_cow(&self, alloc: Global) -> Result<MaybeTyped<&T>, OutOfMemory>
        ensures same { IfOk result (λ cow.
            maybe_typed_view (λ v. v.now) cow ≡ maybe_typed_view (λ v. v) self.now) }
        ensures typed { IsTyped self.now → IsOk result }
    {
        match self {
            MaybeTyped::Typed(value) => Ok(MaybeTyped::Typed(value)),
            MaybeTyped::String(text) => Ok(MaybeTyped::String(String::from_str(alloc, text)?)),
        }
    }
}

impl<T: fmt::Display> MaybeTyped<T> {
    /// What Display prints: the print of the typed value, owned, or the text, borrowed, which takes
    /// no memory.
    pub fn to_str(&self, alloc: Global) -> Result<CowStr<'_>, OutOfMemory>
        ensures text { IfOk result (λ s.
            IfSome (shown T.output self.now) (λ text. cow_str_bytes s ≡ text)) }
        ensures owned { IfOk result (λ s. IsOwnedStr s ↔ IsTyped self.now) }
        ensures borrowed { ¬ IsTyped self.now → IsOk result }
    {
        match self {
            MaybeTyped::Typed(value) => Ok(CowStr::Owned(format!(in alloc; "{value}")?)),
            MaybeTyped::String(text) => Ok(CowStr::Borrowed(text)),
        }
    }
}

impl<T: fmt::Display> fmt::Display for MaybeTyped<T> {
    ghost output = { shown T.output };

    /// The typed value as it prints itself, or the text.
    fn fmt<W: fmt::Write>(&self, f: &mut fmt::Formatter<W>) -> fmt::Result {
        match self {
            MaybeTyped::Typed(value) => write!(f, "{value}"),
            MaybeTyped::String(text) => write!(f, "{text}"),
        }
    }
}

impl<T> From<T> for MaybeTyped<T> {
    ghost from_gives = { λ value typed. typed ≡ Typed value };

    /// The value as a typed one.
    fn from(value: T) -> MaybeTyped<T> {
        MaybeTyped::Typed(value)
    }
}
