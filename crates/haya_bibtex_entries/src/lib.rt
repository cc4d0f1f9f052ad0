//! Entries of `.bib` files: what each says, by its type and its fields.
//!
//! ```
//! for entry in &library_entries(alloc, entries)?.entries {
//!     let read = read_entry(alloc, entry)?;
//!     println!(rt; "{} says a {:?}", entry.key, read.entry.entry_type())?;
//! }
//! ```
#![tactic(auto)]

mod containers;
mod dates;
mod draft;
mod kinds;
mod numbers;
mod people;
mod places;
mod publishers;
mod reading;
mod rows;
mod rules;
mod serials;
mod sources;
mod texts;
mod titles;
mod values;

pub use reading::{Reading, read_entry};
