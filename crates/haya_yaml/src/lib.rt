//! YAML, read to JSON.
//!
//! ```
//! let json = to_json(alloc, "title: On Trees\npages: 12\n")?;
//! // {"title":"On Trees","pages":12}
//! ```
#![tactic(auto)]

mod block;
mod controls;
mod document;
pub mod error;
mod feeds;
pub mod laws;
mod line;
pub mod literal;
mod names;
mod own;
pub mod reader;
pub mod spans;
pub mod value;
