//! What a program in another language asks of a library: entries and their ancestors by number, the
//! hits of a selector with what its names stand for, fields as texts, and persons, dates and
//! numbers.
//!
//! ```
//! let hit = next_hit(alloc, &library, &selector, 0)?;         // the first entry that it picks
//! let parent = parent_of(alloc, &library, &id, 0)?;           // the number of its first parent
//! let text = field_text(alloc, entry, "title", TextForm::Short)?;
//! ```
#![tactic(auto)]

mod entries;
mod entry_id;
mod field_numbers;
mod field_texts;
mod hits;
mod in_order;
mod names;
mod persons;
mod text_form;
mod type_names;

pub use entries::{entry_at, entry_of_key, parent_of};
pub use entry_id::EntryId;
pub use field_numbers::{field_date, field_number, page_range_at, page_ranges_len};
pub use field_texts::field_text;
pub use hits::{Found, bound_id, next_hit, step_of};
pub use names::names_of;
pub use persons::{Credit, credit_at, credits_len};
pub use text_form::TextForm;
pub use type_names::type_name;
