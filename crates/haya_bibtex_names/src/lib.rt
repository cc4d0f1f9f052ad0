//! Lists of names in `.bib` files: the persons of a text.
#![tactic(auto)]

mod extended;
mod lists;
mod parts;
mod plain;
mod signs;
mod words;

pub use lists::{Persons, read_persons};
