//! DOIs and addresses, which are taken as they stand.
ghost use Rattle.std.specs.Prelude.{◌≡◌, IfOk, option_map, string_bytes};
ghost use Rattle.haya_values.specs.Url.{url_view};
ghost use Rattle.haya_bibtex_fields.specs.Addresses.{address_in, doi_in, standing_in, url_in};

use crate::texts::unless_empty_text;
use haya_bibtex_values::{as_it_stands, doi_in, is_address};
use haya_text::OutOfMemory;
use haya_time::Date;
use haya_values::QualifiedUrl;
use std::alloc::Global;

/// A text as it stands, unless nothing is left of it.
pub fn read_standing(alloc: Global, text: &str) -> Result<Option<String>, OutOfMemory>
    ensures { IfOk result (λ t. option_map string_bytes t ≡ standing_in text.now) }
{
    let standing = as_it_stands(alloc, text)?;
    Ok(unless_empty_text(standing))
}

/// A DOI, without what people write in front of it. Nothing where nothing is left.
pub fn read_doi(alloc: Global, text: &str) -> Result<Option<String>, OutOfMemory>
    ensures { IfOk result (λ t. option_map string_bytes t ≡ doi_in text.now) }
{
    let standing = as_it_stands(alloc, text)?;
    let doi = doi_in(alloc, standing.as_str())?;
    Ok(unless_empty_text(doi))
}

/// The address on the web that a text is, as it stands, if it is one.
pub fn read_address(alloc: Global, text: &str) -> Result<Option<String>, OutOfMemory>
    ensures { IfOk result (λ t. option_map string_bytes t ≡ address_in text.now) }
{
    let standing = as_it_stands(alloc, text)?;
    if is_address(alloc, standing.as_str())? {
        Ok(Some(standing))
    } else {
        Ok(None)
    }
}

/// The address of a field `url`, as it stands, whatever it is, with the date of the visit. Nothing
/// where nothing is left of the text.
pub fn read_url(
    alloc: Global,
    text: &str,
    visit_date: Option<Date>,
) -> Result<Option<QualifiedUrl>, OutOfMemory>
    ensures { IfOk result (λ u. option_map url_view u ≡ url_in text.now visit_date) }
{
    match read_standing(alloc, text)? {
        Some(address) => Ok(Some(QualifiedUrl::new(address, visit_date))),
        None => Ok(None),
    }
}
