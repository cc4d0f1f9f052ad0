//! The elements of inputs whose entries are picked, printed as they are in them as the inputs are
//! read.
//!
//! ```
//! let mut asker = SourceAsker::new(alloc, keys, asking);
//! ask_elements(&mut asker, &mut input, &mut out)?; // each hit's element, as it comes
//! end_elements(&asker, &mut out)?;                 // what is behind them
//! ```
#![tactic(auto)]

mod asker;
mod asking;
mod error;
mod kind;
pub mod laws;
mod printing;
mod reading;
mod streaming;

pub use asker::SourceAsker;
pub use asking::{Asking, Shown};
pub use error::PartError;
pub use kind::StreamedKind;
pub use streaming::{ask_elements, end_elements};
