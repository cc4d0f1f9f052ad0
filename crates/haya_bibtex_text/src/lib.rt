//! The grammar of `.bib` files: the entries of a text, with their fields as texts.
//!
//! ```
//! let read = read_bibliography(alloc, "@book{b, title = {A} # { B}, year = 1999}")?;
//! for entry in &read.entries {
//!     println!(rt; "{} has {} fields", entry.key, entry.fields.len())?;
//! }
//! ```
#![tactic(auto)]

mod blanks;
mod classes;
mod collected;
mod definitions;
mod entry;
mod fault;
mod fields;
mod groups;
mod items;
mod kept;
pub mod laws;
mod names;
mod opening;
mod pieces;
mod position;
mod predefined;
mod reader;
mod resolved;
mod texts;
mod values;

pub use entry::{Bibliography, Entry, Field, PassedOver};
pub use fault::{Fault, FaultKind, ReadError};
pub use reader::read_bibliography;
