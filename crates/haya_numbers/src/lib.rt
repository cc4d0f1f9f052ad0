//! Numbers with affixes, sets of numbers, and page ranges.
//!
//! ```
//! let volume = Numeric::from_str(alloc, "3, 5")?;
//! let pages = PageRanges::from_str(alloc, "12-15, 20")?;
//! let several = pages.is_plural();
//! println!(rt; "{volume}: {pages}")?;
//! ```
#![tactic(auto)]

mod characters;
pub mod laws;
mod numeric;
mod page;

pub use numeric::{
    GrammarGender, NumIterator, NumberForm, Numeric, NumericDelimiter, NumericError, NumericValue,
    Ordinals,
};
pub use page::{
    PageNumberError, PagePieces, PageRanges, PageRangesPart, PageRangesPartErr, split_pages,
};
