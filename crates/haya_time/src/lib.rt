//! Dates and durations of a literature library.
//!
//! ```
//! let date = "2010-05-17".parse::<Date>()?;
//! let year = date.display_year(alloc)?;     // 2010
//! let runtime = "01:30:00".parse::<Duration>()?;
//! println!(rt; "{date}, {runtime}")?;
//! ```
#![tactic(auto)]

mod date;
mod duration;
pub mod laws;
mod text;

pub use date::{Date, DateError, Season};
pub use duration::{Duration, DurationError, DurationRange};
