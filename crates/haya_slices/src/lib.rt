//! The elements of a text in JSON, as slices of it.
//!
//! ```
//! let slices = element_slices(alloc, Brackets::Square, "[1, {\"a\": 2}]")?; // `1` and `{"a": 2}`
//! ```
#![tactic(auto)]

mod coming;
mod element;
pub mod laws;
mod nested;
mod printing;
mod signs;
mod slices;
mod white;

pub use coming::{Coming, Complete, Search};
pub use printing::{list_text, push_element, push_end};
pub use slices::element_slices;
pub use white::white_len;
