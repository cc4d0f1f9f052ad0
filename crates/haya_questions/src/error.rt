//! Why a text is no place or no test.
ghost use Rattle.std.specs.Prelude.{◌≡◌};

use haya_text::OutOfMemory;
use std::alloc::{AllocError, AllocFailed};
use thiserror::Error;

/// Why a text is no place.
#[derive(Debug, Drop, PartialEq, Eq, Error)]
pub enum PlaceError {
    /// No field and no role has this name, nor is it `key` or `type`.
    #[error("unknown field `{0}`")]
    UnknownField(String),
    /// An allocation failed, which says nothing of the text.
    #[error("out of memory")]
    OutOfMemory,
}

impl From<AllocError> for PlaceError {
    ghost use Rattle.haya_questions.specs.declared.error.PlaceError.TheVariants.{OutOfMemory};

    ghost from_gives = { λ _ e. e ≡ OutOfMemory };

    fn from(_error: AllocError) -> PlaceError {
        PlaceError::OutOfMemory
    }
}

/// Why a text is no test.
#[derive(Debug, Drop, PartialEq, Eq, Error)]
pub enum TestError {
    /// No operator is in the text.
    #[error("no operator: write a place, one of = != ~ !~ < <= > >=, and a text")]
    NoOperator,
    /// No field and no role has the place's name, nor is it `key` or `type`.
    #[error("unknown field `{0}`")]
    UnknownField(String),
    /// The text behind the operator begins with a quote, and is no text in quotes.
    #[error("a text in quotes has \\\" and \\\\ in it, and ends with the quote")]
    Quotes,
    /// There is no text behind the operator.
    #[error("no text behind the operator")]
    EmptyText,
    /// What has this name has no order.
    #[error("`{0}` has no order, as date, issue, chapter, volume, edition, volume-total, \
         page-total, page-range, runtime and time-range have")]
    NoOrder(String),
    /// The values of the place are dates, and this text is none.
    #[error("`{0}` is no date")]
    NotADate(String),
    /// The values of the place are numbers or pages, and this text is no whole number.
    #[error("`{0}` is no whole number")]
    NotANumber(String),
    /// The values of the place are durations, and this text is none.
    #[error("`{0}` is no duration")]
    NotADuration(String),
    /// An allocation failed, which says nothing of the text.
    #[error("out of memory")]
    OutOfMemory,
}

impl From<OutOfMemory> for TestError {
    ghost use Rattle.haya_questions.specs.declared.error.TestError.TheVariants.{OutOfMemory};

    ghost from_gives = { λ _ e. e ≡ OutOfMemory };

    fn from(_error: OutOfMemory) -> TestError {
        TestError::OutOfMemory
    }
}

impl From<AllocError> for TestError {
    ghost use Rattle.haya_questions.specs.declared.error.TestError.TheVariants.{OutOfMemory};

    ghost from_gives = { λ _ e. e ≡ OutOfMemory };

    fn from(_error: AllocError) -> TestError {
        TestError::OutOfMemory
    }
}

impl<T: Drop> From<AllocFailed<T>> for TestError {
    ghost use Rattle.haya_questions.specs.declared.error.TestError.TheVariants.{OutOfMemory};

    ghost from_gives = { λ _ e. e ≡ OutOfMemory };

    fn from(_error: AllocFailed<T>) -> TestError {
        TestError::OutOfMemory
    }
}
