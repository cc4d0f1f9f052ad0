//! Texts of a literature library: what the readers of values share, and copies that may run out of
//! memory.
//!
//! ```
//! let title = ChunkedString::from_str(alloc, "The {DNA} of $x^2$")?;
//! let shown = title.to_str(alloc)?;         // The DNA of x^2
//! let text = title.to_serialized(alloc)?;   // The {DNA} of $x^2$
//! let field = FormatString::with_value(alloc, text)?;
//! ```
#![tactic(auto)]

pub mod chars;
pub mod cursor;
mod fault;
pub mod laws;
mod read_text;
mod strings;
mod try_clone;

pub use fault::{OutOfMemory, ReadFault};
pub use read_text::ReadText;
pub use strings::{
    ChunkKind, ChunkedReadError, ChunkedStrParseError, ChunkedString, FoldError,
    FoldableChunkedString, FoldableKind, FoldableStringChunk, FormatString, LongShortForm,
    StringChunk,
};
pub use try_clone::TryClone;
