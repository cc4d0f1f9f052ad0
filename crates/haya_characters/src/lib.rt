//! Texts as lists of characters, and back.
//!
//! ```
//! let characters = chars_of(alloc, "Çeşme")?;
//! let text = string_of(alloc, &characters.as_slice()[1..])?;
//! println!(rt; "{text}")?; // eşme
//! ```
#![tactic(auto)]

mod lists;
mod texts;

pub use lists::{chars_of, write_chars};
pub use texts::{push_chars, string_of};
