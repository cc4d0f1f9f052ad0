//! The table of numbers and pages.
ghost use Rattle.std.specs.Prelude.{◌≡◌, OnOk, option_map, map, string_bytes};
ghost use Rattle.haya_numbers.specs.Numeric.{numeric_view};
ghost use Rattle.haya_numbers.specs.Pages.{parts};
ghost use Rattle.haya_values.specs.MaybeTyped.{maybe_typed_view};
ghost use Rattle.haya_bibtex_inherited.specs.Views.{fields_view};
ghost use Rattle.haya_bibtex_entries.specs.Drafts.{so_far, with_any_row, with_row, with_rows};
ghost use Rattle.haya_bibtex_entries.specs.Numbers.{count_by, count_row, edition_text, issue_text};
ghost use Rattle.haya_bibtex_entries.specs.Numbers.{number_row, number_rows, number_text};
ghost use Rattle.haya_bibtex_entries.specs.Numbers.{own_number_rows, pages_row, series_text};
ghost use Rattle.haya_bibtex_entries.specs.Values.{number_value, pages_value, value_view};

use crate::draft::{Draft, Level};
use crate::kinds::{Kind, NumberRule};
use crate::rows::commands;
use crate::texts::{Fields, text_of};
use crate::values::{CountField, NumberField, Value};
use haya_bibtex_fields::{Reading, read_number, read_pages};
use haya_numbers::{Numeric, PageRanges};
use haya_text::OutOfMemory;
use haya_values::MaybeTyped;
use std::alloc::Global;

/// The text of `number`.
pub(crate) fn number_text<'a>(fields: &Fields<'a>) -> Option<&'a str>
    ensures { option_map (λ s. s.now) result ≡ number_text (fields_view fields.now) }
{
    text_of(fields, "number")
}

fn issue_text<'a>(rule: NumberRule, fields: &Fields<'a>) -> Option<&'a str>
    ensures { option_map (λ s. s.now) result ≡ issue_text rule (fields_view fields.now) }
{
    match rule {
        NumberRule::Issue => number_text(fields).or(text_of(fields, "issue")),
        _ => text_of(fields, "issue"),
    }
}

// The number of a series.
fn series_text<'a>(rule: NumberRule, fields: &Fields<'a>) -> Option<&'a str>
    ensures { option_map (λ s. s.now) result ≡ series_text rule (fields_view fields.now) }
{
    match rule {
        NumberRule::Series => number_text(fields),
        _ => None,
    }
}

fn edition_text<'a>(fields: &Fields<'a>) -> Option<&'a str>
    ensures { option_map (λ s. s.now) result ≡ edition_text (fields_view fields.now) }
{
    text_of(fields, "edition").or(text_of(fields, "version"))
}

// A number as a value.
fn number_value(field: NumberField, number: Option<MaybeTyped<Numeric>>) -> Option<Value>
    ensures { option_map value_view result ≡ option_map (λ n. number_value field n)
        (option_map (maybe_typed_view numeric_view) number) }
{
    match number {
        Some(number) => Some(Value::Number(field, number)),
        None => None,
    }
}

fn add_number(
    alloc: Global,
    draft: &mut Draft,
    key: &str,
    level: Level,
    field: NumberField,
    text: Option<&str>,
) -> Result<(), OutOfMemory>
    ensures { OnOk result (so_far draft.new
        ≡ with_any_row key.now (option_map (number_row level field)
        (option_map (λ s. s.now) text.entry)) (so_far draft.old)) }
{
    let Some(text) = text else {
        return Ok(());
    };
    let Reading { value, unknown } = read_number(alloc, text)?;
    draft.add_read(alloc, key, level, number_value(field, value), unknown)
}

// Pages as a value.
fn pages_value(pages: Option<MaybeTyped<PageRanges>>) -> Option<Value>
    ensures { option_map value_view result ≡ option_map (λ ps. pages_value ps)
        (option_map (maybe_typed_view parts) pages) }
{
    match pages {
        Some(pages) => Some(Value::Pages(pages)),
        None => None,
    }
}

fn add_pages(
    alloc: Global,
    draft: &mut Draft,
    key: &str,
    text: Option<&str>,
) -> Result<(), OutOfMemory>
    ensures { OnOk result (so_far draft.new
        ≡ with_any_row key.now (option_map pages_row (option_map (λ s. s.now) text.entry))
        (so_far draft.old)) }
{
    let Some(text) = text else {
        return Ok(());
    };
    let Reading { value, unknown } = read_pages(alloc, text)?;
    draft.add_read(alloc, key, Level::Own, pages_value(value), unknown)
}

// Puts a count, whose field is passed over where the text is no number.
fn add_count_by(
    alloc: Global,
    draft: &mut Draft,
    key: &str,
    field: CountField,
    name: &str,
    mut passed_over: Vec<String>,
    number: Option<MaybeTyped<Numeric>>,
) -> Result<(), OutOfMemory>
    ensures { OnOk result (so_far draft.new
        ≡ with_row key.now (count_by field name.now (map string_bytes passed_over.items)
        (option_map (maybe_typed_view numeric_view) number)) (so_far draft.old)) }
{
    match number {
        Some(MaybeTyped::Typed(count)) => {
            let value = Some(Value::Count(field, count));
            draft.add(alloc, key, Level::Own, value, passed_over)
        }
        Some(MaybeTyped::String(text)) => {
            drop(text);
            passed_over.push(String::from_str(alloc, name)?)?;
            draft.add(alloc, key, Level::Own, None, passed_over)
        }
        None => draft.add(alloc, key, Level::Own, None, passed_over),
    }
}

fn add_count(
    alloc: Global,
    draft: &mut Draft,
    key: &str,
    field: CountField,
    name: &str,
    text: Option<&str>,
) -> Result<(), OutOfMemory>
    ensures { OnOk result (so_far draft.new
        ≡ with_any_row key.now (option_map (count_row field name.now)
        (option_map (λ s. s.now) text.entry)) (so_far draft.old)) }
{
    let Some(text) = text else {
        return Ok(());
    };
    let Reading { value, unknown } = read_number(alloc, text)?;
    let passed_over = commands(alloc, unknown)?;
    add_count_by(alloc, draft, key, field, name, passed_over, value)
}

// Puts the numbers where they go that a host or a series may take.
fn add_placed_numbers(
    alloc: Global,
    draft: &mut Draft,
    key: &str,
    kind: Kind,
    fields: &Fields<'_>,
) -> Result<(), OutOfMemory>
    ensures { OnOk result (so_far draft.new
        ≡ with_rows key.now (number_rows kind (fields_view fields.now)) (so_far draft.old)) }
{
    let text = text_of(fields, "volume");
    add_number(
        alloc,
        draft,
        key,
        kind.volume_level(),
        NumberField::Volume,
        text,
    )?;
    let text = edition_text(fields);
    add_number(
        alloc,
        draft,
        key,
        kind.edition_level(),
        NumberField::Edition,
        text,
    )?;
    let text = issue_text(kind.number, fields);
    add_number(
        alloc,
        draft,
        key,
        kind.issue_level(),
        NumberField::Issue,
        text,
    )?;
    let text = series_text(kind.number, fields);
    add_number(alloc, draft, key, Level::Series, NumberField::Volume, text)
}

/// Puts numbers and pages where they go. The error: there was no memory for them.
pub(crate) fn add_numbers(
    alloc: Global,
    draft: &mut Draft,
    key: &str,
    kind: Kind,
    fields: &Fields<'_>,
) -> Result<(), OutOfMemory>
    ensures { OnOk result (so_far draft.new
        ≡ with_rows key.now (own_number_rows (fields_view fields.now))
        (with_rows key.now (number_rows kind (fields_view fields.now)) (so_far draft.old))) }
{
    add_placed_numbers(alloc, draft, key, kind, fields)?;
    add_own_numbers(alloc, draft, key, fields)
}

// Puts the other numbers, and pages, where they go.
fn add_own_numbers(
    alloc: Global,
    draft: &mut Draft,
    key: &str,
    fields: &Fields<'_>,
) -> Result<(), OutOfMemory>
    ensures { OnOk result (so_far draft.new
        ≡ with_rows key.now (own_number_rows (fields_view fields.now)) (so_far draft.old)) }
{
    let text = text_of(fields, "chapter");
    add_number(alloc, draft, key, Level::Own, NumberField::Chapter, text)?;
    add_pages(alloc, draft, key, text_of(fields, "pages"))?;
    let text = text_of(fields, "volumes");
    add_count(alloc, draft, key, CountField::Volumes, "volumes", text)?;
    let text = text_of(fields, "pagetotal");
    add_count(alloc, draft, key, CountField::Pages, "pagetotal", text)
}
