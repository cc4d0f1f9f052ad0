//! The members of a map in YAML, as slices of its text.
//!
//! ```
//! let slices = member_slices(alloc, "# one\na: 1\nb: 2\n")?; // `# one\na: 1\n` and `b: 2\n`
//! let text = joined_members(alloc, &["b: 2", "a: 1\n"])?;     // `b: 2\na: 1\n`
//! ```
#![tactic(auto)]

mod dividing;
mod joining;
pub mod laws;
mod lines;
mod saying;
mod slices;

pub use joining::joined_members;
pub use saying::says_members;
pub use slices::member_slices;
