//! Entries of a literature library: trees of works with their fields.
//!
//! ```
//! let mut article = Entry::new(alloc, "klein2009", EntryType::Article)?;
//! article.set_title(FormatString::with_value(alloc, title)?);
//! article.parents.push(journal)?;
//! let date = article.date_any();            // its own, or that of the nearest ancestor with one
//! let url = article.map(|entry| entry.url());
//! ```
#![tactic(auto)]

mod entry;
mod field_name;
pub mod laws;
mod serial_number;
mod steps;
mod types;

pub use entry::Entry;
pub use field_name::{FieldName, UnknownField};
pub use serial_number::SerialNumber;
pub use steps::Steps;
pub use types::{EntryType, UnknownType};
