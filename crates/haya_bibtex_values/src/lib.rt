//! Values of fields in `.bib` files: texts that are taken as they stand, DOIs, addresses and pages.
#![tactic(auto)]

mod addresses;
mod archives;
mod fronts;
mod pages;
mod standing;

pub use addresses::{doi_in, is_address};
pub use archives::{arxiv_number, is_of_arxiv};
pub use pages::single_hyphens;
pub use standing::{as_it_stands, stands_as_it_is};
