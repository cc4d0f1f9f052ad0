//! The parts of a text, answered one after another as the text is read, each as it is in it.
//!
//! ```
//! let mut items = ListParts::<InSquare>::new();
//! answer_parts(alloc, &mut items, &mut answerer, &mut input, &mut out)?; // item by item
//! ```
#![tactic(auto)]

mod divider;
mod enclosed;
mod line_parts;
mod list_parts;
mod parts;

pub use divider::{Divider, Last, Next, Split};
pub use enclosed::{Enclosed, InCurly, InSquare};
pub use line_parts::{LineParts, line_end, without_return};
pub use list_parts::ListParts;
pub use parts::answer_parts;
