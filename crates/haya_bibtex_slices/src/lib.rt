//! The items of a `.bib` text as slices of it, and entries printed as they are in it.
//!
//! ```
//! let Some(items) = items_of(alloc, &[text])? else { return Ok(None) };
//! let text = picked_text(alloc, keys, items.as_slice(), hits)?; // strings, entries, their parents
//! ```
#![tactic(auto)]

mod item;
mod joining;
pub mod laws;
mod picking;
mod place;
mod printing;
mod slices;

pub use item::{BibtexItem, EntryKeys};
pub use printing::picked_text;
pub use slices::{item_slices, items_of};
