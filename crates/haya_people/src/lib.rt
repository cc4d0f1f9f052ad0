//! Names of the people of a literature library: their parts, forms and orders.
//!
//! ```
//! let person = Person::from_str(alloc, "van der Kooy, Jr., Ruben")?;
//! let listed = person.name_first(alloc, true, false)?;
//! let signed = person.given_first(alloc, false)?;
//! ```
#![tactic(auto)]

mod first_name;
mod forms;
mod initials;
pub mod laws;
mod order;
mod particles;
mod person;
mod reading;
mod role;
mod table;

pub use person::{Person, PersonError};
pub use role::{PersonRole, PersonsWithRoles};
pub use table::is_sorted_table;
