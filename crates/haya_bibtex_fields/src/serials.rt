//! Serial numbers.
ghost use Rattle.std.specs.Prelude.{◌≡◌, IfOk, map, option_and_then, option_map, string_bytes};
ghost use Rattle.haya_bibtex_fields.specs.FieldTexts.{unknown_in};
ghost use Rattle.haya_bibtex_fields.specs.Serials.{arxiv_bytes, serial_in, serial_of, serial_view};

use crate::reading::Reading;
use crate::texts::{read_plain, unless_empty_text};
use haya_bibtex_values::{arxiv_number, is_of_arxiv};
use haya_text::OutOfMemory;
use std::alloc::Global;

/// The number of a report, or of another work that isn't part of a series.
#[derive(Drop)]
pub enum Serial {
    /// A number of arXiv, without `arXiv:` in front.
    Arxiv(String),
    /// Any other number.
    Other(String),
}

// A number of arXiv, unless nothing is left of it.
pub(crate) fn number_of_arxiv(alloc: Global, text: &str) -> Result<Option<String>, OutOfMemory>
    ensures { IfOk result (λ t. option_map string_bytes t ≡ arxiv_bytes text.now) }
{
    let number = arxiv_number(alloc, text)?;
    Ok(unless_empty_text(number))
}

// What a number is.
fn serial_of(alloc: Global, text: String) -> Result<Option<Serial>, OutOfMemory>
    ensures { IfOk result (λ s. option_map serial_view s ≡ serial_of (string_bytes text)) }
{
    if !is_of_arxiv(alloc, text.as_str())? {
        return Ok(Some(Serial::Other(text)));
    }
    match number_of_arxiv(alloc, text.as_str())? {
        Some(number) => Ok(Some(Serial::Arxiv(number))),
        None => Ok(None),
    }
}

/// The number of a work that isn't part of a series: of arXiv, if it begins with `arXiv:`. Nothing
/// where nothing is left of the text.
pub fn read_serial(alloc: Global, text: &str) -> Result<Reading<Serial>, OutOfMemory>
    ensures value { IfOk result (λ r. option_map serial_view r.value ≡ serial_in text.now) }
    ensures unknown { IfOk result (λ r. map string_bytes r.unknown.items ≡ unknown_in text.now) }
{
    let Reading { value, unknown } = read_plain(alloc, text)?;
    let value = match value {
        Some(plain) => serial_of(alloc, plain)?,
        None => None,
    };
    Ok(Reading { value, unknown })
}
