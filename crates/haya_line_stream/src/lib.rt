//! Answers a text line by line, as it is read: any reader, any writer, and no more memory than the
//! longest line and what is printed of a block.
#![tactic(auto)]

mod answerer;
mod error;
mod input;
mod line_end;
mod stream;
mod writing;

pub use answerer::Answerer;
pub use error::{StreamError, WriteError};
pub use input::{ByteCounter, read_all};
pub use stream::{answer_all, answer_line};
pub use writing::{write_all, write_text};
