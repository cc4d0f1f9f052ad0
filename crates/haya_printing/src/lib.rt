//! Entries printed as lines of text, as `haya_line_library` reads them.
//!
//! ```
//! let lines = entry_lines(alloc, entry)?;   // or which value lines can't say
//! let printable = printable_lines(alloc, entry)?;
//! println!(rt; "{}", printable.text)?;      // the same, with what was left out told
//! ```
#![tactic(auto)]

mod error;
mod fields;
mod items;
pub mod laws;
mod left_out;
mod lines;
mod parts;
mod printable;
mod texts;
mod unsaid;

pub use error::LinesError;
pub use left_out::{LeftOut, Part};
pub use lines::entry_lines;
pub use printable::{PrintableLines, printable_lines};
