//! Libraries in CSL-JSON, as reference managers export them.
//!
//! ```
//! let (library, notes) = read_csl_json(alloc, ItemKey::CitationKey, text)?;
//! println!(rt; "{} entries", library.len())?;
//! ```
#![tactic(auto)]

mod dates;
mod draft;
mod fields;
mod item_key;
mod item_lines;
mod items;
mod kinds;
pub mod laws;
mod libraries;
mod markup;
mod members;
mod names;
mod numbers;
mod said;
mod serials;
mod taken;
mod texts;
mod turns;

pub use item_key::ItemKey;
pub use item_lines::read_item_line;
pub use libraries::{read_csl_json, read_csl_json_with_hash_keys};
pub use taken::{EntryTaker, take_csl_entries};
