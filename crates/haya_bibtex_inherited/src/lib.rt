//! Inheritance between the entries of a `.bib` file: the entries of its library with their own
//! fields and those that they inherit.
#![tactic(auto)]

mod changes;
mod field;
mod library;
mod names;
mod order;
mod reference;
mod search;
mod source;

pub use field::FieldRef;
pub use library::{EntryRef, LibraryEntries, library_entries};
pub use reference::{Link, Reference};
