//! Members that are each given a position of their own, of those where they are accepted: the
//! least way to do so, or members that are too many for their positions.
//!
//! ```
//! // Which parent each member has, where the table says which of them hold at which.
//! let mut steps = Steps::new();
//! let found = least_assignment(alloc, &table, parents, &mut steps)?;
//! ```
#![tactic(auto)]

mod alike;
mod assignment;
mod greedy;
pub mod laws;
mod order;
mod place;
mod ranks;
mod search;

pub use assignment::{Assignment, least_assignment};
