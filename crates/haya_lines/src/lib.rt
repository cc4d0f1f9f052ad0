//! Entries from lines of text: a depth, a key, a type, and fields `name=value`, with a tab between
//! two.
//!
//! ```
//! let (depth, entry) = read_line(alloc, "0\tklein\tbook\ttitle=Trees", 0)?;
//! println!(rt; "{depth} {}", entry.key())?;
//! ```
#![tactic(auto)]

mod error;
mod field;
mod items;
pub mod laws;
mod line;

pub use error::LineError;
pub use field::read_fields;
pub use items::{Items, split_line};
pub use line::{Head, read_head, read_line};
