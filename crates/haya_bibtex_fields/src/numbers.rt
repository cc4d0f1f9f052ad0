//! Numbers and pages.
ghost use Rattle.std.specs.Prelude.{◌≡◌, IfOk, map, option_map, string_bytes};
ghost use Rattle.haya_numbers.specs.Numeric.{numeric_view};
ghost use Rattle.haya_numbers.specs.Pages.{parts};
ghost use Rattle.haya_values.specs.MaybeTyped.{maybe_typed_view};
ghost use Rattle.haya_bibtex_fields.specs.FieldTexts.{unknown_in};
ghost use Rattle.haya_bibtex_fields.specs.Numbers.{number_in, pages_in};

use crate::reading::Reading;
use crate::texts::{is_itself, read_plain};
use haya_bibtex_values::single_hyphens;
use haya_numbers::{Numeric, PageRanges};
use haya_text::{OutOfMemory, ReadText};
use haya_values::MaybeTyped;
use std::alloc::Global;

/// The number that a text writes, as a volume or an edition, otherwise the text. A field that has to
/// be a number, as that of the volumes in all, is one that isn't read where this is a text.
pub fn read_number(alloc: Global, text: &str) -> Result<Reading<MaybeTyped<Numeric>>, OutOfMemory>
    ensures value { IfOk result (λ r.
        option_map (maybe_typed_view numeric_view) r.value ≡ number_in text.now) }
    ensures unknown { IfOk result (λ r. map string_bytes r.unknown.items ≡ unknown_in text.now) }
{
    if is_itself(text) {
        let number = MaybeTyped::from_str(alloc, text)?;
        return Ok(Reading {
            value: Some(number),
            unknown: Vec::new(alloc),
        });
    }
    let Reading { value, unknown } = read_plain(alloc, text)?;
    let Some(plain) = value else {
        return Ok(Reading {
            value: None,
            unknown,
        });
    };
    let number = MaybeTyped::from_str(alloc, plain.as_str())?;
    Ok(Reading {
        value: Some(number),
        unknown,
    })
}

/// The pages that a text writes, with one hyphen for each run of hyphens, dashes and minus signs,
/// otherwise the text with these hyphens.
pub fn read_pages(alloc: Global, text: &str) -> Result<Reading<MaybeTyped<PageRanges>>, OutOfMemory>
    ensures value { IfOk result (λ r.
        option_map (maybe_typed_view parts) r.value ≡ pages_in text.now) }
    ensures unknown { IfOk result (λ r. map string_bytes r.unknown.items ≡ unknown_in text.now) }
{
    let Reading { value, unknown } = read_plain(alloc, text)?;
    let Some(plain) = value else {
        return Ok(Reading {
            value: None,
            unknown,
        });
    };
    let hyphens = single_hyphens(alloc, plain.as_str())?;
    let pages = MaybeTyped::from_str(alloc, hyphens.as_str())?;
    Ok(Reading {
        value: Some(pages),
        unknown,
    })
}
