//! Hits printed: a line each, of the entry's key and of those that its names are bound to.
//!
//! ```
//! let mut text = String::new(alloc);
//! push_line(alloc, &mut text, hit)?;        // its key, and each name with the key that it has
//! let names = bindings(alloc, hit)?;        // in the order of the names
//! ```
#![tactic(auto)]

pub mod laws;
mod line;
mod names;
mod shown;

pub use line::{push_escaped_line, push_line};
pub use names::bindings;
