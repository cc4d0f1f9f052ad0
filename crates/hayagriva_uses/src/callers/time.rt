//! The caller of `crates/haya_time/CALLING.md`.
ghost use Rattle.std.specs.Prelude.{◌≡◌, IfOk, false, option_map, string_bytes, true};
ghost use Rattle.std.specs.Result.{result_ok};
ghost use Rattle.std.specs.Str.{chars};
ghost use Rattle.haya_time.specs.DatePrinted.{year_text};
ghost use Rattle.haya_time.specs.DateReading.{date_read};

use haya_text::OutOfMemory;
use haya_time::Date;
use std::alloc::Global;

/// The year of a date's text, as `44 BCE`, where the text is a date.
pub fn shown_year(alloc: Global, text: &str) -> Result<Option<String>, OutOfMemory>
    ensures { IfOk result (λ year. option_map string_bytes year
        ≡ option_map (λ d. year_text true false false false d.year)
        (result_ok (date_read (chars text.now)))) }
{
    match text.parse::<Date>() {
        Ok(date) => Ok(Some(date.display_year(alloc)?)),
        Err(_) => Ok(None),
    }
}
