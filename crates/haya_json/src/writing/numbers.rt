//! Numbers, pages and times.
ghost use Rattle.std.specs.Prelude.{◌≡◌};
ghost use Rattle.haya_numbers.specs.Pages.{parts};
ghost use Rattle.haya_json.specs.Printed.{below_zero, page_below_zero};

use crate::members::ToJson;
use haya_numbers::{Numeric, PageRanges, PageRangesPart};
use haya_text::OutOfMemory;
use haya_time::{Duration, DurationRange};
use haya_values::MaybeTyped;
use json::Writer;
use std::alloc::Global;

impl ToJson for Numeric {
    ghost use Rattle.haya_numbers.specs.Numeric.{NumericView, numeric_view};
    ghost use Rattle.haya_json.specs.Printed.{number_json};

    ghost View = { NumericView };

    ghost view = { numeric_view };

    ghost json = { number_json };

    /// A number where it is one without affixes, otherwise the text from which it is read again.
    #[tactic(auto, unfolding(crate::specs::Printed::number_json))]
    fn write_json(&self, alloc: Global, out: &mut Writer) -> Result<(), OutOfMemory> {
        match self.single_number() {
            Some(number) => number.write_json(alloc, out),
            None => {
                let text = self.round_trip_text(alloc)?;
                Ok(out.string(text.as_str())?)
            }
        }
    }
}

impl ToJson for MaybeTyped<Numeric> {
    ghost use Rattle.haya_numbers.specs.Numeric.{NumericView, numeric_view};
    ghost use Rattle.haya_values.specs.MaybeTyped.{TypedOrText, maybe_typed_view};
    ghost use Rattle.haya_json.specs.Printed.{number_or_text_json};

    ghost View = { TypedOrText NumericView };

    ghost view = { maybe_typed_view numeric_view };

    ghost json = { number_or_text_json };

    /// The number, or the text.
    #[tactic(auto, unfolding(crate::specs::Printed::number_or_text_json))]
    fn write_json(&self, alloc: Global, out: &mut Writer) -> Result<(), OutOfMemory> {
        match self {
            MaybeTyped::Typed(number) => number.write_json(alloc, out),
            MaybeTyped::String(text) => Ok(out.string(text.as_str())?),
        }
    }
}

impl ToJson for MaybeTyped<PageRanges> {
    ghost use Rattle.std.specs.Prelude.{List};
    ghost use Rattle.haya_numbers.specs.Pages.{PartView, parts};
    ghost use Rattle.haya_values.specs.MaybeTyped.{TypedOrText, maybe_typed_view};
    ghost use Rattle.haya_json.specs.Printed.{pages_json};

    ghost View = { TypedOrText (List PartView) };

    ghost view = { maybe_typed_view parts };

    ghost json = { pages_json };

    /// The text from which the pages are read again, the number of a page below 0, or the text.
    #[tactic(auto, unfolding(crate::specs::Printed::pages_json))]
    fn write_json(&self, alloc: Global, out: &mut Writer) -> Result<(), OutOfMemory> {
        let pages = match self {
            MaybeTyped::Typed(pages) => pages,
            MaybeTyped::String(text) => return Ok(out.string(text.as_str())?),
        };
        match page_below_zero(pages) {
            Some(number) => number.write_json(alloc, out),
            None => {
                let text = pages.round_trip_text(alloc)?;
                Ok(out.string(text.as_str())?)
            }
        }
    }
}

// The number of one page alone that is below 0.
fn page_below_zero(pages: &PageRanges) -> Option<i32>
    ensures { result ≡ page_below_zero (parts pages.now) }
{
    match pages.ranges.as_slice() {
        [PageRangesPart::SinglePage(page)] => below_zero(page.single_number()),
        _ => None,
    }
}

// The number where it is below 0.
fn below_zero(number: Option<i32>) -> Option<i32>
    ensures { result ≡ below_zero number }
{
    match number {
        Some(number) if number < 0 => Some(number),
        _ => None,
    }
}

impl ToJson for MaybeTyped<Duration> {
    ghost use Rattle.haya_time.specs.DurationPrint.{duration_text};
    ghost use Rattle.haya_time.specs.declared.duration.Duration as duration;
    ghost use Rattle.haya_values.specs.MaybeTyped.{TypedOrText, maybe_typed_view};
    ghost use Rattle.haya_json.specs.Printed.{typed_json};

    ghost View = { TypedOrText duration.Duration };

    ghost view = { maybe_typed_view (λ d. d) };

    ghost json = { typed_json duration_text };

    /// The print of the duration, or the text.
    #[tactic(auto, unfolding(crate::specs::Printed::typed_json))]
    fn write_json(&self, alloc: Global, out: &mut Writer) -> Result<(), OutOfMemory> {
        match self {
            MaybeTyped::Typed(duration) => {
                let text = format!(in alloc; "{duration}")?;
                Ok(out.string(text.as_str())?)
            }
            MaybeTyped::String(text) => Ok(out.string(text.as_str())?),
        }
    }
}

impl ToJson for MaybeTyped<DurationRange> {
    ghost use Rattle.haya_time.specs.DurationPrint.{range_text};
    ghost use Rattle.haya_time.specs.declared.duration.range.DurationRange as range;
    ghost use Rattle.haya_values.specs.MaybeTyped.{TypedOrText, maybe_typed_view};
    ghost use Rattle.haya_json.specs.Printed.{typed_json};

    ghost View = { TypedOrText range.DurationRange };

    ghost view = { maybe_typed_view (λ r. r) };

    ghost json = { typed_json range_text };

    /// The print of the range, or the text.
    #[tactic(auto, unfolding(crate::specs::Printed::typed_json))]
    fn write_json(&self, alloc: Global, out: &mut Writer) -> Result<(), OutOfMemory> {
        match self {
            MaybeTyped::Typed(range) => {
                let text = format!(in alloc; "{range}")?;
                Ok(out.string(text.as_str())?)
            }
            MaybeTyped::String(text) => Ok(out.string(text.as_str())?),
        }
    }
}
