//! Texts in chunks: plain text, text that keeps its case, and math.
mod chunk;
mod chunked;
mod foldable;
mod format;
mod kind;
mod printing;
mod reading;

pub use chunk::StringChunk;
pub use chunked::ChunkedString;
pub use foldable::{FoldError, FoldableChunkedString, FoldableStringChunk};
pub use format::{FormatString, LongShortForm};
pub use kind::{ChunkKind, FoldableKind};
pub use reading::{ChunkedReadError, ChunkedStrParseError};
