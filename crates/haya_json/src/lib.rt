//! Libraries in JSON: hayagriva's own file format.
//!
//! ```
//! let (library, notes) = read_library(alloc, text)?;
//! println!(rt; "{} entries", library.len())?;
//! let json = to_json_pretty(alloc, &library)?;
//! ```
#![tactic(auto)]

mod alone;
mod entries;
mod error;
mod fault;
mod fields;
mod from_json;
mod ignored;
mod json_lines;
pub mod laws;
mod libraries;
mod lost_parts;
mod losts;
mod member_lines;
mod members;
mod nesting;
mod notes;
mod parse_errors;
mod position;
pub mod reading;
mod reading_back;
mod shown;
mod told;
mod unique;
mod values;
mod writing;

pub use error::{ElementError, JsonLineError, ReadError};
pub use fault::{Step, Why};
pub use ignored::{Ignored, IgnoredNames};
pub use json_lines::{read_entry_line, read_json_lines};
pub use libraries::{read_library, read_library_with_hash_keys};
pub use member_lines::read_member_line;
pub use notes::{LINES, Loss, Lost, Note, Notes};
pub use position::Position;
pub use reading_back::reads_back;
pub use writing::{lay_out, to_json, to_json_pretty, write_entry};
