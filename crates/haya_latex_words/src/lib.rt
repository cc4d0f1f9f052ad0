//! The commands of LaTeX that appear in the text of a value, and the letters that accents compose
//! with.
#![tactic(auto)]

mod accent;
mod command;
mod letters;
mod tables;

pub use accent::{Accent, dotted};
pub use command::{Meaning, meaning_of};
