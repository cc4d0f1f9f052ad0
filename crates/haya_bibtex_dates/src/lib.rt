//! Dates in `.bib` files: the date of a text, and that of an entry by its year, month and day.
#![tactic(auto)]

mod calendar;
mod clock;
mod digits;
mod entries;
mod forms;
mod months;
mod years;

pub use entries::{DateTexts, EntryDate, entry_date};
pub use forms::read_date;
