//! Questions of values over hits: the values at a place of a hit, tests that hits have to pass,
//! hits in order, and tables of them.
//!
//! ```
//! let test = Test::parse(alloc, "date >= 2010")?;
//! if test.holds(alloc, hit)? {
//!     let titles = values(alloc, hit, &Place::parse(alloc, "p.title")?)?;
//! }
//! ```
#![tactic(auto)]

mod at_place;
mod case_aside;
mod columns;
mod error;
mod fields;
mod kind;
pub mod laws;
mod orders;
mod place;
mod rank;
mod shown;
mod sort_key;
mod sorting;
mod test;
mod test_text;
mod value;

pub use at_place::values;
pub use columns::{Table, columns_text, push_columns, push_header};
pub use error::{PlaceError, TestError};
pub use place::{Part, Place};
pub use sort_key::SortKey;
pub use sorting::sort_hits;
pub use test::{Operator, Test, Wanted};
