//! Pages and page ranges.
mod back;
mod conversions;
mod cuts;
mod order;
mod pieces;
mod printing;
mod reading;
mod round_trip;

use crate::{Numeric, NumericError};
use haya_text::ReadFault;
pub use pieces::{PagePieces, split_pages};
use std::alloc::{AllocError, AllocFailed};
use thiserror::Error;

/// Pages and ranges of pages, with what separates them.
#[derive(Debug, Drop, PartialEq, Eq, Hash)]
pub struct PageRanges {
    /// The pages, ranges and separators in the order of the text.
    pub ranges: Vec<PageRangesPart>,
}

/// A page, a range of pages, or what separates two of these.
#[derive(Debug, Drop, PartialEq, Eq, Hash)]
pub enum PageRangesPart {
    /// An ampersand between two pages or ranges.
    Ampersand,
    /// A comma between two pages or ranges.
    Comma,
    /// A range whose hyphen was written behind a backslash.
    EscapedRange(Numeric, Numeric),
    /// One page.
    SinglePage(Numeric),
    /// A range, from its first page to its last.
    Range(Numeric, Numeric),
}

/// Why a text was not read as pages.
#[derive(Clone, Copy, Debug, PartialEq, Eq, Error)]
pub enum PageRangesPartErr {
    /// A part has more than two halves.
    #[error("more than two halves of a range")]
    Malformed,
    /// A part has no text.
    #[error("an empty part")]
    Empty,
    /// A page, or the start or the end of a range, is no number. No reader gives it with
    /// `NumericError::OutOfMemory`.
    #[error("{0}")]
    NumericErr(NumericError),
    /// An allocation failed, which says nothing of the text.
    #[error("out of memory")]
    OutOfMemory,
}

/// Why a number was not made a page.
#[derive(Clone, Copy, Debug, PartialEq, Eq, Error)]
pub enum PageNumberError {
    /// It is below the least or above the greatest `i32`.
    #[error("a page number out of range")]
    OutOfRange,
    /// An allocation failed.
    #[error("out of memory")]
    OutOfMemory,
}

impl PageRanges {
    ghost use Rattle.std.specs.Prelude.{◌≡◌, ◌↔◌, IsTrue, option_map, slice_get};
    ghost use Rattle.std.specs.List.{filter_map};
    ghost use Rattle.haya_numbers.specs.Numeric.{numeric_view};
    ghost use Rattle.haya_numbers.specs.Pages.{parts, part_start, part_view, ArePlural};

    /// These parts.
    pub fn new(ranges: Vec<PageRangesPart>) -> PageRanges
        ensures { result.ranges ≡ ranges }
    {
        PageRanges { ranges }
    }

    /// The start of the first part that has one.
    pub fn first(&self) -> Option<&Numeric>
        ensures { option_map (λ n. numeric_view n.now) result ≡
            slice_get (filter_map part_start (parts self.now)) 0 }
    {
        for part in &self.ranges {
            let start = part.start();
            if start.is_some() {
                return start;
            }
        }
        None
    }

    /// Whether there is more than one page: some range has an end that differs from its start, or
    /// there are two pages or ranges.
    pub fn is_plural(&self) -> bool
        ensures { IsTrue result ↔ ArePlural (parts self.now) }
    {
        let mut count = 0usize;
        for part in &self.ranges {
            if part.has_two_ends() {
                return true;
            }
            if part.start().is_some() {
                count = count.saturating_add(1);
            }
        }
        count > 1
    }
}

impl PageRangesPart {
    ghost use Rattle.std.specs.Prelude.{◌≡◌, ◌↔◌, IsTrue, option_map};
    ghost use Rattle.haya_numbers.specs.Numeric.{numeric_view};
    ghost use Rattle.haya_numbers.specs.Pages.{part_end, part_start, part_view, HasTwoEnds};

    /// The page, or the start of the range. A separator has none.
    pub fn start(&self) -> Option<&Numeric>
        ensures { option_map (λ n. numeric_view n.now) result ≡ part_start (part_view self.now) }
    {
        match self {
            PageRangesPart::Ampersand | PageRangesPart::Comma => None,
            PageRangesPart::SinglePage(page) => Some(page),
            PageRangesPart::EscapedRange(start, _) | PageRangesPart::Range(start, _) => Some(start),
        }
    }

    /// The end of the range. Only a range has one.
    pub fn end(&self) -> Option<&Numeric>
        ensures { option_map (λ n. numeric_view n.now) result ≡ part_end (part_view self.now) }
    {
        match self {
            PageRangesPart::EscapedRange(_, end) | PageRangesPart::Range(_, end) => Some(end),
            PageRangesPart::Ampersand | PageRangesPart::Comma | PageRangesPart::SinglePage(_) => {
                None
            }
        }
    }

    // Whether this is a range whose end differs from its start.
    fn has_two_ends(&self) -> bool
        ensures { IsTrue result ↔ HasTwoEnds (part_view self.now) }
    {
        match (self.start(), self.end()) {
            (Some(start), Some(end)) => start != end,
            _ => false,
        }
    }
}

impl From<NumericError> for PageRangesPartErr {
    ghost use Rattle.std.specs.Prelude.{◌≡◌};
    ghost use Rattle.haya_numbers.specs.Pages.{fault_of};

    ghost from_gives = { λ e f. f ≡ fault_of e };

    /// Out of memory is that of the part, any other fault is a number's.
    fn from(error: NumericError) -> PageRangesPartErr
        ensures { result ≡ fault_of error }
    {
        match error {
            NumericError::OutOfMemory => PageRangesPartErr::OutOfMemory,
            error => PageRangesPartErr::NumericErr(error),
        }
    }
}

impl From<AllocError> for PageRangesPartErr {
    ghost use Rattle.std.specs.Prelude.{◌≡◌};
    ghost use Rattle.haya_numbers.specs.declared.page.PageRangesPartErr.TheVariants as fault;

    ghost from_gives = { λ _ e. e ≡ fault.OutOfMemory };

    fn from(_error: AllocError) -> PageRangesPartErr {
        PageRangesPartErr::OutOfMemory
    }
}

impl<T: Drop> From<AllocFailed<T>> for PageRangesPartErr {
    ghost use Rattle.std.specs.Prelude.{◌≡◌};
    ghost use Rattle.haya_numbers.specs.declared.page.PageRangesPartErr.TheVariants as fault;

    ghost from_gives = { λ _ e. e ≡ fault.OutOfMemory };

    fn from(_error: AllocFailed<T>) -> PageRangesPartErr {
        PageRangesPartErr::OutOfMemory
    }
}

impl<T: Drop> From<AllocFailed<T>> for PageNumberError {
    ghost use Rattle.std.specs.Prelude.{◌≡◌};
    ghost use Rattle.haya_numbers.specs.declared.page.PageNumberError.TheVariants as fault;

    ghost from_gives = { λ _ e. e ≡ fault.OutOfMemory };

    fn from(_error: AllocFailed<T>) -> PageNumberError {
        PageNumberError::OutOfMemory
    }
}

impl ReadFault for PageRangesPartErr {
    ghost use Rattle.haya_numbers.specs.Pages.{is_part_memory};

    ghost out_of_memory = { is_part_memory };

    fn is_out_of_memory(&self) -> bool {
        match self {
            PageRangesPartErr::OutOfMemory => true,
            PageRangesPartErr::NumericErr(error) => error.is_out_of_memory(),
            PageRangesPartErr::Malformed | PageRangesPartErr::Empty => false,
        }
    }
}
