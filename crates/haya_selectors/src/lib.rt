//! Selectors: which entries are meant, and what their parts are called.
//!
//! ```
//! let selector = Selector::parse(alloc, "article[doi] > p:periodical")?;
//! if selector.matches(alloc, entry)? {
//!     let journal = selector.bound(alloc, entry, "p")?;
//! }
//! ```
#![tactic(auto)]

mod apply;
mod bindings;
mod bound_select;
mod compiled;
mod debug;
mod equal;
mod evaluate;
pub mod laws;
mod leaves;
mod names;
mod node;
mod nodes;
mod parse;
mod places;
mod prepared;
mod selector;
mod side;
mod simple;
mod token;
mod tries;
mod try_clone;

pub use bound_select::BoundSelect;
pub use prepared::{CompiledSelector, PreparedSelector};
pub use selector::{Selector, SelectorError};
