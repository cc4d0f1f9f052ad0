//! A library from its text: a line an entry, and behind it its parents, one level deeper.
//!
//! ```
//! let library = read_library(alloc, HashKeys::random(&rt)?, text)?;
//! println!(rt; "{} entries", library.len())?;
//! ```
#![tactic(auto)]

mod error;
pub mod laws;
mod library_text;
mod open_entries;
mod repeat;

pub use error::InputError;
pub use library_text::{read_library, read_library_with_repeats};
pub use open_entries::OpenEntries;
pub use repeat::Repeat;
