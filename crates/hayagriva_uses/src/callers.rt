//! The callers that the documents of the crates show, each under the name of its crate.
pub mod entry;
pub mod file_format;
pub mod input;
pub mod numbers;
pub mod people;
pub mod selectors;
pub mod text;
pub mod time;
pub mod values;
