//! The elements of a text in JSON, an element a line, as the text is read.
//!
//! ```
//! let mut lines = ElementLines::new(reader, Brackets::Square);
//! let bytes = read_all(alloc, &mut lines, &mut counter)?; // an element a line
//! ```
#![tactic(auto)]

mod kept;
pub mod laws;
mod lines;
mod place;

pub use lines::ElementLines;
pub use place::{Brackets, Mode, Place};
