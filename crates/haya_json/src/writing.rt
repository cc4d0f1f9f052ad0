//! Libraries printed as JSON.
mod dates;
mod entries;
mod fields;
mod libraries;
mod numbers;
mod people;
mod pretty;
mod sources;
mod texts;

pub use entries::write_entry;
pub use libraries::to_json;
pub use pretty::{lay_out, to_json_pretty};
