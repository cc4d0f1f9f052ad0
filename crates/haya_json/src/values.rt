//! The values of fields, as JSON says them.
mod dates;
mod durations;
mod numbers;
mod people;
mod serials;
mod sources;
mod texts;

pub use numbers::{read_typed, whole_read};
