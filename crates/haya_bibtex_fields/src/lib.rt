//! Values of fields in `.bib` files: texts in chunks, titles with their short forms, numbers, pages,
//! languages, genres, serial numbers and addresses.
//!
//! ```
//! let title = read_title(alloc, "The {DNA} of \\foo{Mus}")?;
//! // title.value: The, Normal; DNA, Verbatim; of Mus, Normal. title.unknown: foo
//! let pages = read_pages(alloc, "1--9")?; // Some(MaybeTyped::Typed(1-9))
//! ```
#![tactic(auto)]

mod addresses;
mod eprints;
mod genres;
mod languages;
mod numbers;
mod reading;
mod serials;
mod tables;
mod texts;
mod titles;

pub use addresses::{read_address, read_doi, read_standing, read_url};
pub use eprints::{Eprint, read_eprint};
pub use genres::{genre_named, read_genre, read_series};
pub use languages::{read_language, read_variant};
pub use numbers::{read_number, read_pages};
pub use reading::Reading;
pub use serials::{Serial, read_serial};
pub use texts::{formatted_if_any, read_formatted, read_plain, read_title, title_if_any};
pub use titles::{
    TitleTexts, join, read_joined, read_note, read_short_title, read_whole_title, with_short,
};
