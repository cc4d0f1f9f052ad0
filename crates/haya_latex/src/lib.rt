//! The text of a value in LaTeX: its characters, each of a kind, and the commands that aren't
//! known.
//!
//! ```
//! let title = read_text(alloc, "The {DNA} of \\emph{Mus}")?;
//! for run in &title.runs {
//!     println!(rt; "{:?}: {}", run.kind, run.text)?; // Normal: The, Verbatim: DNA, ..
//! }
//! let names = read_names(alloc, "Knuth, Donald and others")?;
//! ```
#![tactic(auto)]

mod commands;
mod formulas;
mod kinds;
mod readers;
mod runs;
mod scans;
mod simple;
mod text;
mod tokens;

pub use kinds::Kind;
pub use runs::Run;
pub use text::{Names, Text, read_names, read_text, says_itself};
