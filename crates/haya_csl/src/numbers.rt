//! The fields of numbers, of pages and of durations.
ghost use Rattle.std.specs.Prelude.{◌≡◌, IfOk};
ghost use Rattle.std.specs.Result.{result_ok};
ghost use Rattle.std.specs.Str.{chars};
ghost use Rattle.json.specs.Value.{value_view};
ghost use Rattle.haya_numbers.specs.Numeric.{numeric_view};
ghost use Rattle.haya_numbers.specs.NumericReading.{numeric_read};
ghost use Rattle.haya_numbers.specs.Pages.{parts};
ghost use Rattle.haya_time.specs.DurationReading.{duration_read};
ghost use Rattle.haya_values.specs.MaybeTyped.{maybe_typed_view};
ghost use Rattle.haya_entry.specs.Tree.{view};
ghost use Rattle.haya_csl.specs.Fields.{count_said, number_said, number_setter, pages_said};
ghost use Rattle.haya_csl.specs.Fields.{runtime_said, set_view};
ghost use Rattle.haya_json.specs.declared.fault.Why.TheVariants.{NotDuration, NotNumber};
ghost use Rattle.haya_csl.specs.Said.{said_view};
ghost use Rattle.haya_csl.specs.Texts.{says_or};
ghost use Rattle.haya_csl.specs.declared.fields.NumberField.TheVariants as number;

use crate::fields::{NumberField, Set};
use crate::said::Said;
use haya_entry::Entry;
use haya_json::Why;
use haya_json::reading::text_in;
use haya_numbers::{Numeric, PageRanges};
use haya_text::{OutOfMemory, ReadFault, ReadText};
use haya_time::Duration;
use haya_values::MaybeTyped;
use json::Value;
use std::alloc::Global;

/// Sets the field of a number, of pages or of a duration to what the value says.
pub(crate) fn set_number(
    alloc: Global,
    entry: &mut Entry,
    field: NumberField,
    json: &Value<'_>,
) -> Result<Set, OutOfMemory>
    ensures { IfOk result (λ set.
        number_setter field (value_view json.now) (view entry.old)
        ≡ set_view set (view entry.new)) }
{
    match field {
        NumberField::Volume => set_volume(alloc, entry, json),
        NumberField::Issue => set_issue(alloc, entry, json),
        NumberField::Edition => set_edition(alloc, entry, json),
        NumberField::Chapter => set_chapter(alloc, entry, json),
        NumberField::VolumeTotal => set_volume_total(alloc, entry, json),
        NumberField::PageTotal => set_page_total(alloc, entry, json),
        NumberField::Pages => set_pages(alloc, entry, json),
        NumberField::Runtime => set_runtime(alloc, entry, json),
    }
}

fn set_volume(alloc: Global, entry: &mut Entry, json: &Value<'_>) -> Result<Set, OutOfMemory>
    ensures { IfOk result (λ set.
        number_setter number.Volume (value_view json.now) (view entry.old)
        ≡ set_view set (view entry.new)) }
{
    let Said { value, lost } = read_number(alloc, json)?;
    let Some(value) = value else {
        return Ok(Set {
            is_set: false,
            lost,
        });
    };
    entry.set_volume(value);
    Ok(Set { is_set: true, lost })
}

fn set_issue(alloc: Global, entry: &mut Entry, json: &Value<'_>) -> Result<Set, OutOfMemory>
    ensures { IfOk result (λ set.
        number_setter number.Issue (value_view json.now) (view entry.old)
        ≡ set_view set (view entry.new)) }
{
    let Said { value, lost } = read_number(alloc, json)?;
    let Some(value) = value else {
        return Ok(Set {
            is_set: false,
            lost,
        });
    };
    entry.set_issue(value);
    Ok(Set { is_set: true, lost })
}

fn set_edition(alloc: Global, entry: &mut Entry, json: &Value<'_>) -> Result<Set, OutOfMemory>
    ensures { IfOk result (λ set.
        number_setter number.Edition (value_view json.now) (view entry.old)
        ≡ set_view set (view entry.new)) }
{
    let Said { value, lost } = read_number(alloc, json)?;
    let Some(value) = value else {
        return Ok(Set {
            is_set: false,
            lost,
        });
    };
    entry.set_edition(value);
    Ok(Set { is_set: true, lost })
}

fn set_chapter(alloc: Global, entry: &mut Entry, json: &Value<'_>) -> Result<Set, OutOfMemory>
    ensures { IfOk result (λ set.
        number_setter number.Chapter (value_view json.now) (view entry.old)
        ≡ set_view set (view entry.new)) }
{
    let Said { value, lost } = read_number(alloc, json)?;
    let Some(value) = value else {
        return Ok(Set {
            is_set: false,
            lost,
        });
    };
    entry.set_chapter(value);
    Ok(Set { is_set: true, lost })
}

fn set_volume_total(alloc: Global, entry: &mut Entry, json: &Value<'_>) -> Result<Set, OutOfMemory>
    ensures { IfOk result (λ set.
        number_setter number.VolumeTotal (value_view json.now) (view entry.old)
        ≡ set_view set (view entry.new)) }
{
    let Said { value, lost } = read_count(alloc, json)?;
    let Some(value) = value else {
        return Ok(Set {
            is_set: false,
            lost,
        });
    };
    entry.set_volume_total(value);
    Ok(Set { is_set: true, lost })
}

fn set_page_total(alloc: Global, entry: &mut Entry, json: &Value<'_>) -> Result<Set, OutOfMemory>
    ensures { IfOk result (λ set.
        number_setter number.PageTotal (value_view json.now) (view entry.old)
        ≡ set_view set (view entry.new)) }
{
    let Said { value, lost } = read_count(alloc, json)?;
    let Some(value) = value else {
        return Ok(Set {
            is_set: false,
            lost,
        });
    };
    entry.set_page_total(value);
    Ok(Set { is_set: true, lost })
}

fn set_pages(alloc: Global, entry: &mut Entry, json: &Value<'_>) -> Result<Set, OutOfMemory>
    ensures { IfOk result (λ set.
        number_setter number.Pages (value_view json.now) (view entry.old)
        ≡ set_view set (view entry.new)) }
{
    let Said { value, lost } = read_pages(alloc, json)?;
    let Some(value) = value else {
        return Ok(Set {
            is_set: false,
            lost,
        });
    };
    entry.set_page_range(value);
    Ok(Set { is_set: true, lost })
}

fn set_runtime(alloc: Global, entry: &mut Entry, json: &Value<'_>) -> Result<Set, OutOfMemory>
    ensures { IfOk result (λ set.
        number_setter number.Runtime (value_view json.now) (view entry.old)
        ≡ set_view set (view entry.new)) }
{
    let Said { value, lost } = read_runtime(alloc, json)?;
    let Some(value) = value else {
        return Ok(Set {
            is_set: false,
            lost,
        });
    };
    entry.set_runtime(MaybeTyped::Typed(value));
    Ok(Set { is_set: true, lost })
}

// The text of a number, or any other text.
fn read_number(alloc: Global, json: &Value<'_>) -> Result<Said<MaybeTyped<Numeric>>, OutOfMemory>
    ensures { IfOk result (λ said.
        said_view (maybe_typed_view numeric_view) said ≡ number_said (value_view json.now)) }
{
    match text_in(json) {
        None => Said::unread(alloc, Why::NotText, json),
        Some("") => Ok(Said::none(alloc)),
        Some(text) => Ok(Said::of(alloc, MaybeTyped::from_str(alloc, text)?)),
    }
}

// The text of a number.
fn read_count(alloc: Global, json: &Value<'_>) -> Result<Said<Numeric>, OutOfMemory>
    ensures { IfOk result (λ said.
        said_view numeric_view said ≡ count_said (value_view json.now)) }
{
    match text_in(json) {
        None => Said::unread(alloc, Why::NotText, json),
        Some("") => Ok(Said::none(alloc)),
        Some(text) => count_in(alloc, text, json),
    }
}

// The text of pages, or any other text.
fn read_pages(alloc: Global, json: &Value<'_>) -> Result<Said<MaybeTyped<PageRanges>>, OutOfMemory>
    ensures { IfOk result (λ said.
        said_view (maybe_typed_view parts) said ≡ pages_said (value_view json.now)) }
{
    match text_in(json) {
        None => Said::unread(alloc, Why::NotText, json),
        Some("") => Ok(Said::none(alloc)),
        Some(text) => Ok(Said::of(alloc, MaybeTyped::from_str(alloc, text)?)),
    }
}

// The text of a duration.
fn read_runtime(alloc: Global, json: &Value<'_>) -> Result<Said<Duration>, OutOfMemory>
    ensures { IfOk result (λ said.
        said_view (λ d. d) said ≡ runtime_said (value_view json.now)) }
{
    match text_in(json) {
        None => Said::unread(alloc, Why::NotText, json),
        Some("") => Ok(Said::none(alloc)),
        Some(text) => runtime_in(alloc, text, json),
    }
}

// The number that a text reads as. Otherwise the value isn't read.
fn count_in(alloc: Global, text: &str, json: &Value<'_>) -> Result<Said<Numeric>, OutOfMemory>
    ensures { IfOk result (λ said. said_view numeric_view said
        ≡ says_or NotNumber (result_ok (numeric_read text.now))) }
{
    match Numeric::from_str(alloc, text) {
        Ok(number) => Ok(Said::of(alloc, number)),
        Err(fault) if fault.is_out_of_memory() => Err(OutOfMemory),
        Err(_) => Said::unread(alloc, Why::NotNumber, json),
    }
}

// The duration that a text reads as. Otherwise the value isn't read.
fn runtime_in(alloc: Global, text: &str, json: &Value<'_>) -> Result<Said<Duration>, OutOfMemory>
    ensures { IfOk result (λ said. said_view (λ d. d) said
        ≡ says_or NotDuration (result_ok (duration_read (chars text.now)))) }
{
    match text.parse::<Duration>() {
        Ok(duration) => Ok(Said::of(alloc, duration)),
        Err(_) => Said::unread(alloc, Why::NotDuration, json),
    }
}
