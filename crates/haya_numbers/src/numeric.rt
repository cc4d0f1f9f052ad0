//! Numbers with affixes, and sets of numbers.
mod back;
mod calls;
mod delimiter;
mod form;
mod iter;
mod printing;
mod reading;
mod round_trip;

pub use form::{GrammarGender, NumberForm, Ordinals};
use haya_text::{OutOfMemory, ReadFault};
pub use iter::NumIterator;
pub(crate) use round_trip::Exact;
use std::alloc::{AllocError, AllocFailed};
use thiserror::Error;

/// A number or a set of numbers, perhaps with a text before and one after it.
#[derive(Debug, Drop, PartialEq, Eq, Hash)]
pub struct Numeric {
    /// The number, or the numbers.
    pub value: NumericValue,
    /// The text before it.
    pub prefix: Option<Box<String>>,
    /// The text after it.
    pub suffix: Option<Box<String>>,
}

/// One number, or a set of numbers, each with the delimiter that follows it.
#[derive(Debug, Drop, PartialEq, Eq, Hash)]
pub enum NumericValue {
    /// One number.
    Number(i32),
    /// Numbers, and what stands behind each.
    Set(Vec<(i32, Option<NumericDelimiter>)>),
}

/// What stands between two numbers of a set.
#[derive(Clone, Copy, Debug, PartialEq, Eq, Hash)]
pub enum NumericDelimiter {
    /// A comma, printed with a blank behind it.
    Comma,
    /// An ampersand, printed between blanks.
    Ampersand,
    /// A hyphen, printed as an en dash.
    Hyphen,
}

/// Why a text was not read as a number or as a delimiter.
#[derive(Clone, Copy, Debug, PartialEq, Eq, Error)]
pub enum NumericError {
    /// No number stands where there has to be one, or it is too great.
    #[error("no number")]
    NoNumber,
    /// Something follows the suffix.
    #[error("unexpected characters after the suffix")]
    UnexpectedCharactersAfterPostfix,
    /// The text is no delimiter.
    #[error("not a delimiter")]
    NotADelimiter,
    /// There is no text that could be a delimiter.
    #[error("no delimiter")]
    MissingDelimiter,
    /// An allocation failed, which says nothing of the text.
    #[error("out of memory")]
    OutOfMemory,
}

impl From<OutOfMemory> for NumericError {
    ghost use Rattle.std.specs.Prelude.{◌≡◌};
    ghost use Rattle.haya_numbers.specs.declared.numeric.NumericError.TheVariants as error;

    ghost from_gives = { λ _ e. e ≡ error.OutOfMemory };

    fn from(_error: OutOfMemory) -> NumericError {
        NumericError::OutOfMemory
    }
}

impl From<AllocError> for NumericError {
    ghost use Rattle.std.specs.Prelude.{◌≡◌};
    ghost use Rattle.haya_numbers.specs.declared.numeric.NumericError.TheVariants as error;

    ghost from_gives = { λ _ e. e ≡ error.OutOfMemory };

    fn from(_error: AllocError) -> NumericError {
        NumericError::OutOfMemory
    }
}

impl<T: Drop> From<AllocFailed<T>> for NumericError {
    ghost use Rattle.std.specs.Prelude.{◌≡◌};
    ghost use Rattle.haya_numbers.specs.declared.numeric.NumericError.TheVariants as error;

    ghost from_gives = { λ _ e. e ≡ error.OutOfMemory };

    fn from(_error: AllocFailed<T>) -> NumericError {
        NumericError::OutOfMemory
    }
}

impl ReadFault for NumericError {
    ghost use Rattle.haya_numbers.specs.Numeric.{is_memory};

    ghost out_of_memory = { is_memory };

    fn is_out_of_memory(&self) -> bool {
        matches!(self, NumericError::OutOfMemory)
    }
}
