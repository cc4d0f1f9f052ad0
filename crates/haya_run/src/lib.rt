//! What the program `hayagriva_query` does, but for its words and its streams: it reads a library,
//! asks it, and prints the hits as they come.
//!
//! ```
//! let status = run(alloc, &words, &mut input, &mut out, &mut err);
//! // of the words `hayagriva_query article`, with a library in lines as the input
//! ```
#![tactic(auto)]

mod error;
pub mod laws;
mod printing;
mod running;

pub use error::RunError;
pub use running::{run, run_given};
