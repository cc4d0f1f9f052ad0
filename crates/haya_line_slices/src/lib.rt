//! The entries of a text in lines, as slices of it.
//!
//! ```
//! let slices = entry_slices(alloc, "0\ta\tbook\n0\tb\tweb\n1\tc\tblog\n")?; // the first line, and the others
//! let mut coming = EntryParts::new();                          // the same of a text as it is read
//! answer_parts(alloc, &mut coming, &mut answerer, &mut input, &mut out)?;
//! ```
#![tactic(auto)]

mod begins;
mod coming;
pub mod laws;
mod printing;
mod reading;
mod slices;

pub use coming::EntryParts;
pub use printing::{entries_text, push_entry};
pub use reading::read_entry_lines;
pub use slices::entry_slices;
