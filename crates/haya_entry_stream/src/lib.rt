//! The entries that a text lists, answered one after another as the text is read, and let go.
#![tactic(auto)]

mod elements;
mod entry_answerer;
mod entry_lines;
mod entry_reader;
mod error;
mod lent;
mod lines;

pub use elements::answer_elements;
pub use entry_answerer::EntryAnswerer;
pub use entry_lines::answer_entry_lines;
pub use entry_reader::EntryReader;
pub use error::{EntryError, ListError, Stopped};
pub use lines::answer_lines;
