//! A literature library, and queries that pick its entries by selectors.
//!
//! ```
//! let mut library = Library::with_hash_keys(alloc, HashKeys::random(&rt)?);
//! library.insert(entry)?;
//! for hit in library.query(alloc, "article > p:periodical", &mut Steps::new())? {
//!     println!(rt; "{}", hit.entry.key())?;
//! }
//! ```
#![tactic(auto)]

mod hash_keys;
pub mod laws;
mod library;
mod query;

pub use hash_keys::HashKeys;
pub use haya_assignment::{Assignment, least_assignment};
pub use haya_entry::{Entry, Steps};
pub use haya_selectors::{
    BoundSelect, CompiledSelector, PreparedSelector, Selector, SelectorError,
};
pub use haya_text::{OutOfMemory, ReadFault, ReadText};
pub use library::{Entries, IntoEntries, Keys, Library};
pub use query::{Hit, Query};

/// The values that entries are made of.
pub mod types {
    pub use haya_entry::{EntryType, FieldName, SerialNumber, UnknownField, UnknownType};
    pub use haya_numbers::{
        GrammarGender, NumIterator, NumberForm, Numeric, NumericDelimiter, NumericError,
        NumericValue, Ordinals, PageNumberError, PagePieces, PageRanges, PageRangesPart,
        PageRangesPartErr, split_pages,
    };
    pub use haya_people::{Person, PersonError, PersonRole, PersonsWithRoles, is_sorted_table};
    pub use haya_text::{
        ChunkKind, ChunkedReadError, ChunkedStrParseError, ChunkedString, FoldError,
        FoldableChunkedString, FoldableKind, FoldableStringChunk, FormatString, LongShortForm,
        StringChunk, TryClone,
    };
    pub use haya_time::{Date, DateError, Duration, DurationError, DurationRange, Season};
    pub use haya_values::{MaybeTyped, OneOrMany, OneOrManyIter, Publisher, QualifiedUrl};
}
