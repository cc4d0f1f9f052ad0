//! The elements of a library's text, as they are in it: what a library's entries were read from.
//!
//! ```
//! let parts = elements(alloc, ElementKind::JsonLines, text)?;          // a slice of the text each
//! let mut places = Places::new(alloc, keys);
//! places.add(alloc, ElementKind::JsonLines, parts, &library)?;         // under the entries' keys
//! let part = places.part("noether");                                   // as it is in the text
//! ```
#![tactic(auto)]

mod dividing;
mod keyed;
mod kind;
pub mod laws;
mod order;
mod places;
mod printing;

pub use dividing::elements;
pub use keyed::element_key;
pub use kind::ElementKind;
pub use order::parts_in_order;
pub use places::Places;
pub use printing::printed_text;
