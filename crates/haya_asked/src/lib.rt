//! What is asked of the hits of a selector: which of them are wanted, in which order, one of those
//! that share values or all that do, how many, and their table.
#![tactic(auto)]

mod columns;
mod duplicates;
pub mod laws;
mod lists;
mod questions;
mod seen;
mod uniques;
mod values;

pub use columns::Columns;
pub use duplicates::duplicate_hits;
pub use lists::{parse_places, parse_sort_keys};
pub use questions::{Questions, Repeats, passes};
pub use uniques::unique_hits;
