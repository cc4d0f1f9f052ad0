//! Libraries from `.bib` files, as LaTeX's users have them.
//!
//! ```
//! let (library, notes) = read_bibtex(alloc, text)?;
//! println!(rt; "{} entries", library.len())?;
//! ```
#![tactic(auto)]

mod error;
mod libraries;
mod notes;
mod spelled;

pub use error::BibtexReadError;
pub use libraries::{read_bibtex, read_bibtex_with_hash_keys};
