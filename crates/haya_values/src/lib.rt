//! Values that are typed or a text, addresses on the web, publishers, and one or many of a value.
//!
//! ```
//! let volume = MaybeTyped::<Numeric>::from_str(alloc, "Spring")?;
//! let number = volume.as_typed();           // none: a text
//! let url = QualifiedUrl::new(address, None);
//! let publisher = Publisher::new(Some(name), None);
//! ```
#![tactic(auto)]

pub mod laws;
mod maybe_typed;
mod one_or_many;
mod publisher;
mod url;

pub use maybe_typed::MaybeTyped;
pub use one_or_many::{OneOrMany, OneOrManyIter};
pub use publisher::Publisher;
pub use url::QualifiedUrl;
