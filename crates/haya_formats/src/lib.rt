//! The formats that a library's text may have, and which of them, or what else, a text begins like.
//!
//! ```
//! let mut block = [0u8; MARKED_BLOCK];
//! let len = read_block(&mut input, &mut block)?;            // so many bytes as tell the format
//! let bytes = without_mark(&block[..len]);
//! if let Some(foreign) = foreign_for(None, bytes) { .. }    // UTF-16, an archive, a spreadsheet
//! let format = format_for(alloc, None, bytes)?;             // Format::CslJson(ItemKey::CitationKey)
//! ```
#![tactic(auto)]

mod bibtex;
mod block;
mod first_line;
mod foreign;
mod foreign_text;
mod foreign_words;
mod format;
pub mod laws;

pub use block::{FIRST_BLOCK, MARKED_BLOCK, SIGNATURE_LEN, read_block, without_mark};
pub use foreign::{Foreign, ForeignInput, STANDARD_INPUT, foreign_of};
pub use foreign_text::{foreign_for, likeness, likeness_for};
pub use format::{Format, format_for, format_of};
