//! Libraries in YAML: hayagriva's own file format, as people write it.
//!
//! ```
//! let (library, notes) = read_yaml(alloc, text)?;
//! let yaml = to_yaml(alloc, json)?;         // of what haya_json::to_json prints
//! ```
#![tactic(auto)]

mod block_style;
mod error;
pub mod laws;
mod libraries;
mod scalars;
mod steps;
mod words;
mod writing;

pub use error::YamlReadError;
pub use libraries::{read_yaml, read_yaml_with_hash_keys};
pub use writing::to_yaml;
