//! The table of dates and addresses.
ghost use Rattle.std.specs.Prelude.{◌≡◌, ◌++◌, IfOk, OnOk, codes, option_map, map, string_bytes};
ghost use Rattle.std.specs.Option.{option_or};
ghost use Rattle.std.specs.Str.{chars};
ghost use Rattle.haya_bibtex_dates.specs.DateViews.{date_view, text_chars, texts_view};
ghost use Rattle.haya_bibtex_dates.specs.Entries.{date_of};
ghost use Rattle.haya_bibtex_fields.specs.FieldTexts.{unknown_of};
ghost use Rattle.haya_bibtex_fields.specs.Serials.{eprint_view};
ghost use Rattle.haya_bibtex_inherited.specs.Entries.{text_of};
ghost use Rattle.haya_bibtex_inherited.specs.Views.{fields_view};
ghost use Rattle.haya_bibtex_values.specs.Standing.{as_it_stands};
ghost use Rattle.haya_bibtex_entries.specs.Dates.{address_of, address_row};
ghost use Rattle.haya_bibtex_entries.specs.Dates.{conference_date_row, date_commands, date_texts};
ghost use Rattle.haya_bibtex_entries.specs.Dates.{both_chars, date_row, date_rows, date_said, if_lost};
ghost use Rattle.haya_bibtex_entries.specs.Dates.{eprint_address_in, is_by_date, lost_dates};
ghost use Rattle.haya_bibtex_entries.specs.Dates.{original_date_row, own_date_row, plain_text};
ghost use Rattle.haya_bibtex_entries.specs.Dates.{texts_by, unknown_dates, visit_of};
ghost use Rattle.haya_bibtex_entries.specs.Drafts.{so_far, with_any_row, with_row, with_rows};
ghost use Rattle.haya_bibtex_entries.specs.Values.{date_value, value_view};

use crate::draft::{Draft, Level};
use crate::kinds::Kind;
use crate::publishers::published_at;
use crate::rows::{commands, push_names};
use crate::serials::eprint_of;
use crate::texts::{Fields, has_field, text_of};
use crate::values::Value;
use haya_bibtex_dates::{DateTexts, EntryDate, entry_date, read_date};
use haya_bibtex_fields::{Eprint, Reading, read_plain, read_standing};
use haya_bibtex_values::{as_it_stands, stands_as_it_is};
use haya_text::OutOfMemory;
use haya_time::Date;
use haya_values::QualifiedUrl;
use std::alloc::Global;

// ---- the date of an entry

// A text as it stands, if it is there.
fn standing_text(alloc: Global, text: Option<&str>) -> Result<Option<String>, OutOfMemory>
    ensures { IfOk result (λ s. option_map string_bytes s
        ≡ option_map as_it_stands (option_map (λ t. t.now) text.entry)) }
{
    match text {
        Some(text) => Ok(Some(as_it_stands(alloc, text)?)),
        None => Ok(None),
    }
}

// The same of a text that doesn't stand as it is.
fn other_text(alloc: Global, text: Option<&str>) -> Result<Option<String>, OutOfMemory>
    ensures { IfOk result (λ s. option_map as_it_stands (option_map (λ t. t.now) text.entry)
        ≡ option_or (option_map string_bytes s) (option_map (λ t. t.now) text.entry)) }
{
    match text {
        Some(text) => {
            if stands_as_it_is(text) {
                Ok(None)
            } else {
                Ok(Some(as_it_stands(alloc, text)?))
            }
        }
        None => Ok(None),
    }
}

// The characters of a text, if it is there.
fn plain_text(alloc: Global, text: Option<&str>) -> Result<Reading<String>, OutOfMemory>
    ensures value { IfOk result (λ r. option_map string_bytes r.value
        ≡ option_map plain_text (option_map (λ t. t.now) text.entry)) }
    ensures unknown { IfOk result (λ r. map string_bytes r.unknown.items
        ≡ unknown_of (option_map (λ t. t.now) text.entry)) }
{
    let Some(text) = text else {
        return Ok(Reading {
            value: None,
            unknown: Vec::new(alloc),
        });
    };
    let Reading { value, unknown } = read_plain(alloc, text)?;
    let value = match value {
        Some(value) => value,
        None => String::new(alloc),
    };
    Ok(Reading {
        value: Some(value),
        unknown,
    })
}

// A text that is lent.
fn lent(text: &Option<String>) -> Option<&str>
    ensures bytes { option_map (λ t. t.now) result ≡ option_map string_bytes text.now }
    ensures chars { text_chars result ≡ option_map chars (option_map string_bytes text.now) }
{
    match text {
        Some(text) => Some(text.as_str()),
        None => None,
    }
}

// A text that is lent, where it isn't the text that it is made of.
fn lent_or<'a>(other: &'a Option<String>, text: Option<&'a str>) -> Option<&'a str>
    ensures { text_chars result
        ≡ option_map chars (option_or (option_map string_bytes other.now)
        (option_map (λ t. t.now) text.entry)) }
{
    match other {
        Some(other) => Some(other.as_str()),
        None => match text {
            Some(text) => Some(text),
            None => None,
        },
    }
}

// The texts of a year.
fn both<'a>(standing: &'a Option<String>, plain: &'a Option<String>) -> Option<(&'a str, &'a str)>
    ensures { option_map (λ p. (chars p.0.now, chars p.1.now)) result
        ≡ both_chars (option_map string_bytes standing.now) (option_map string_bytes plain.now) }
{
    match (standing, plain) {
        (Some(standing), Some(plain)) => Some((standing.as_str(), plain.as_str())),
        _ => None,
    }
}

// The texts of a year, a month and a day as they are read, and the commands in them that aren't
// known.
#[derive(Drop)]
struct DayTexts {
    year: Option<String>,
    month: Option<String>,
    day: Option<String>,
    unknown: Vec<String>,
}

fn day_texts(alloc: Global, fields: &Fields<'_>) -> Result<DayTexts, OutOfMemory>
    ensures year { IfOk result (λ d. option_map string_bytes d.year
        ≡ option_map plain_text (text_of (fields_view fields.now) (codes "year"))) }
    ensures month { IfOk result (λ d. option_map string_bytes d.month
        ≡ option_map plain_text (text_of (fields_view fields.now) (codes "month"))) }
    ensures day { IfOk result (λ d. option_map string_bytes d.day
        ≡ option_map plain_text (text_of (fields_view fields.now) (codes "day"))) }
    ensures unknown { IfOk result (λ d. map string_bytes d.unknown.items
        ≡ unknown_dates (fields_view fields.now)) }
{
    let year = plain_text(alloc, text_of(fields, "year"))?;
    let month = plain_text(alloc, text_of(fields, "month"))?;
    let day = plain_text(alloc, text_of(fields, "day"))?;
    let mut unknown = year.unknown;
    push_names(&mut unknown, month.unknown)?;
    push_names(&mut unknown, day.unknown)?;
    Ok(DayTexts {
        year: year.value,
        month: month.value,
        day: day.value,
        unknown,
    })
}

// The texts of a date that are lent.
fn lent_texts<'a>(
    date: Option<&'a str>,
    other: &'a Option<String>,
    year: &'a Option<String>,
    texts: &'a DayTexts,
) -> DateTexts<'a>
    ensures { texts_view result
        ≡ texts_by (option_or (option_map string_bytes other.now)
        (option_map (λ t. t.now) date.entry)) (option_map string_bytes year.now)
        (option_map string_bytes texts.now.year) (option_map string_bytes texts.now.month)
        (option_map string_bytes texts.now.day) }
{
    DateTexts {
        date: lent_or(other, date),
        year: both(year, &texts.year),
        month: lent(&texts.month),
        day: lent(&texts.day),
    }
}

// The date that an entry's fields say, and the commands in them that aren't known.
fn own_date(alloc: Global, fields: &Fields<'_>) -> Result<(EntryDate, Vec<String>), OutOfMemory>
    ensures date { IfOk result (λ r. date_view r.0
        ≡ date_of (date_texts (fields_view fields.now))) }
    ensures unknown { IfOk result (λ r. map string_bytes r.1.items
        ≡ unknown_dates (fields_view fields.now)) }
{
    let date = text_of(fields, "date");
    let other = other_text(alloc, date)?;
    let year = standing_text(alloc, text_of(fields, "year"))?;
    let texts = day_texts(alloc, fields)?;
    let said = entry_date(alloc, lent_texts(date, &other, &year, &texts))?;
    Ok((said, texts.unknown))
}

// Puts a name behind others, where its field isn't read.
fn push_if(
    alloc: Global,
    names: &mut Vec<String>,
    is_lost: bool,
    name: &str,
) -> Result<(), OutOfMemory>
    ensures { OnOk result (map string_bytes names.new.items
        ≡ map string_bytes names.old.items ++ if_lost is_lost name.now) }
{
    if is_lost {
        names.push(String::from_str(alloc, name)?)?;
    }
    Ok(())
}

// Puts the names of the fields behind others that aren't read.
fn push_lost(alloc: Global, names: &mut Vec<String>, said: &EntryDate) -> Result<(), OutOfMemory>
    ensures { OnOk result (map string_bytes names.new.items
        ≡ map string_bytes names.old.items ++ lost_dates (date_view said.now)) }
{
    push_if(alloc, names, said.lost_date, "date")?;
    push_if(alloc, names, said.lost_year, "year")?;
    push_if(alloc, names, said.lost_month, "month")?;
    push_if(alloc, names, said.lost_day, "day")?;
    Ok(())
}

// Whether `date` is read, so that the other fields are left aside.
fn is_by_date(fields: &Fields<'_>, said: &EntryDate) -> bool
    ensures { result ≡ is_by_date (fields_view fields.now) (date_view said.now) }
{
    text_of(fields, "date").is_some() && !said.lost_date
}

// A date as a value.
fn date_value(date: Option<Date>) -> Option<Value>
    ensures { option_map value_view result ≡ option_map (λ d. date_value d) date }
{
    match date {
        Some(date) => Some(Value::On(date)),
        None => None,
    }
}

// The commands in the fields of a date, where they are read.
fn date_commands(
    alloc: Global,
    fields: &Fields<'_>,
    said: &EntryDate,
    unknown: Vec<String>,
) -> Result<Vec<String>, OutOfMemory>
    requires { map string_bytes unknown.items ≡ unknown_dates (fields_view fields.now) }
    ensures { IfOk result (λ v. map string_bytes v.items
        ≡ date_commands (fields_view fields.now) (date_view said.now)) }
{
    if is_by_date(fields, said) {
        return Ok(Vec::new(alloc));
    }
    commands(alloc, unknown)
}

fn add_own_date(
    alloc: Global,
    draft: &mut Draft,
    key: &str,
    fields: &Fields<'_>,
) -> Result<(), OutOfMemory>
    ensures { OnOk result (so_far draft.new
        ≡ with_row key.now (own_date_row (fields_view fields.now)) (so_far draft.old)) }
{
    let (said, unknown) = own_date(alloc, fields)?;
    let mut passed_over = date_commands(alloc, fields, &said, unknown)?;
    push_lost(alloc, &mut passed_over, &said)?;
    draft.add(alloc, key, Level::Own, date_value(said.date), passed_over)
}

// ---- other dates

fn date_said(alloc: Global, text: &str) -> Result<Option<Date>, OutOfMemory>
    ensures { IfOk result (λ d. d ≡ date_said text.now) }
{
    if stands_as_it_is(text) {
        return Ok(read_date(alloc, text)?);
    }
    let text = as_it_stands(alloc, text)?;
    Ok(read_date(alloc, text.as_str())?)
}

// Puts a date, whose field is passed over where it isn't read.
fn add_date(
    alloc: Global,
    draft: &mut Draft,
    key: &str,
    level: Level,
    name: &str,
    text: Option<&str>,
) -> Result<(), OutOfMemory>
    ensures { OnOk result (so_far draft.new
        ≡ with_any_row key.now (option_map (date_row level name.now)
        (option_map (λ t. t.now) text.entry)) (so_far draft.old)) }
{
    let Some(text) = text else {
        return Ok(());
    };
    let date = date_said(alloc, text)?;
    let mut passed_over = Vec::new(alloc);
    push_if(alloc, &mut passed_over, date.is_none(), name)?;
    draft.add(alloc, key, level, date_value(date), passed_over)
}

fn add_conference_date(
    alloc: Global,
    draft: &mut Draft,
    key: &str,
    is_given: bool,
    fields: &Fields<'_>,
) -> Result<(), OutOfMemory>
    ensures { OnOk result (so_far draft.new
        ≡ with_any_row key.now (conference_date_row is_given (fields_view fields.now))
        (so_far draft.old)) }
{
    if !is_given {
        return Ok(());
    }
    let text = text_of(fields, "eventdate");
    add_date(alloc, draft, key, Level::Conference, "eventdate", text)
}

fn add_original_date(
    alloc: Global,
    draft: &mut Draft,
    key: &str,
    fields: &Fields<'_>,
) -> Result<(), OutOfMemory>
    ensures { OnOk result (so_far draft.new
        ≡ with_any_row key.now (original_date_row (fields_view fields.now)) (so_far draft.old)) }
{
    match text_of(fields, "origdate") {
        Some(text) => add_date(alloc, draft, key, Level::Original, "origdate", Some(text)),
        None => {
            let text = text_of(fields, "origyear");
            add_date(alloc, draft, key, Level::Original, "origyear", text)
        }
    }
}

// ---- the address, with the date of the visit

// The address of an archive's number.
fn eprint_address(eprint: Option<Eprint>) -> Option<String>
    ensures { option_map string_bytes result
        ≡ eprint_address_in (option_map eprint_view eprint) }
{
    match eprint {
        Some(Eprint::Address(address)) => Some(address),
        _ => None,
    }
}

/// The address of an entry. The error: there was no memory for it.
pub(crate) fn address_of(alloc: Global, fields: &Fields<'_>) -> Result<Option<String>, OutOfMemory>
    ensures { IfOk result (λ a. option_map string_bytes a ≡ address_of (fields_view fields.now)) }
{
    if let Some(text) = text_of(fields, "url") {
        return read_standing(alloc, text);
    }
    match published_at(alloc, fields)? {
        Some(address) => Ok(Some(address)),
        None => Ok(eprint_address(eprint_of(alloc, fields)?)),
    }
}

// The date of a visit.
fn visit_of(alloc: Global, fields: &Fields<'_>) -> Result<Option<Date>, OutOfMemory>
    ensures { IfOk result (λ d. d ≡ visit_of (fields_view fields.now)) }
{
    match text_of(fields, "urldate") {
        Some(text) => date_said(alloc, text),
        None => Ok(None),
    }
}

fn add_address(
    alloc: Global,
    draft: &mut Draft,
    key: &str,
    fields: &Fields<'_>,
) -> Result<(), OutOfMemory>
    ensures { OnOk result (so_far draft.new
        ≡ with_any_row key.now (address_row (fields_view fields.now)) (so_far draft.old)) }
{
    let Some(value) = address_of(alloc, fields)? else {
        return Ok(());
    };
    let visit_date = visit_of(alloc, fields)?;
    let is_lost = has_field(fields, "urldate") && visit_date.is_none();
    let mut passed_over = Vec::new(alloc);
    push_if(alloc, &mut passed_over, is_lost, "urldate")?;
    let url = Some(Value::Url(QualifiedUrl { value, visit_date }));
    draft.add(alloc, key, Level::Own, url, passed_over)
}

/// Puts dates and the address where they go. The error: there was no memory for them.
pub(crate) fn add_dates(
    alloc: Global,
    draft: &mut Draft,
    key: &str,
    kind: Kind,
    fields: &Fields<'_>,
) -> Result<(), OutOfMemory>
    ensures { OnOk result (so_far draft.new
        ≡ with_rows key.now (date_rows kind (fields_view fields.now)) (so_far draft.old)) }
{
    add_own_date(alloc, draft, key, fields)?;
    add_conference_date(alloc, draft, key, kind.is_given, fields)?;
    add_original_date(alloc, draft, key, fields)?;
    add_address(alloc, draft, key, fields)
}
