//! Dates by their parts.
ghost use Rattle.std.specs.Prelude.{◌≡◌, IfOk, option_map};
ghost use Rattle.json.specs.Value.{value_view};
ghost use Rattle.haya_json.specs.Refusal.{to_item};
ghost use Rattle.haya_csl.specs.Dates.{date_by, date_view, dates_said, first_said, part_at};
ghost use Rattle.haya_csl.specs.Dates.{part_of, parts_read, parts_said};
ghost use Rattle.haya_csl.specs.Said.{said_behind};

use crate::dates::calendar::{Part, date_at, month_season, part_by, unless_zero};
use crate::dates::kept::{dated, kept, kept_but_unread, ranged};
use crate::said::Said;
use haya_json::Why;
use haya_json::reading::{all_in_item, text_in, whole_read};
use haya_text::OutOfMemory;
use haya_time::Date;
use json::Value;
use std::alloc::Global;

/// The first date of a list, where no other is found before. A second is the end of a range.
pub(crate) fn read_dates(
    alloc: Global,
    name: &str,
    found: Option<Date>,
    json: &Value<'_>,
) -> Result<Said<Date>, OutOfMemory>
    ensures { IfOk result (λ said.
        date_view said ≡ dates_said name.now found (value_view json.now)) }
{
    match json {
        Value::Array(_) => first_said(alloc, name, json.at(1).is_some(), json.at(0)),
        _ => kept_but_unread(alloc, found, Why::NotList, json),
    }
}

// The first date of a list. A second is the end of a range.
fn first_said(
    alloc: Global,
    name: &str,
    is_range: bool,
    first: Option<&Value<'_>>,
) -> Result<Said<Date>, OutOfMemory>
    ensures { IfOk result (λ said. date_view said
        ≡ first_said name.now is_range (option_map (λ v. value_view v.now) first.entry)) }
{
    let Some(first) = first else {
        return Ok(kept(alloc, None));
    };
    let said = read_first(alloc, first)?;
    if is_range {
        ranged(alloc, name, said)
    } else {
        Ok(said)
    }
}

// The first date of a list.
fn read_first(alloc: Global, json: &Value<'_>) -> Result<Said<Date>, OutOfMemory>
    ensures { IfOk result (λ said.
        date_view said ≡ said_behind (to_item 0) (parts_said (value_view json.now))) }
{
    let said = read_parts(alloc, json)?;
    let Said { value, lost } = said;
    let lost = all_in_item(alloc, lost, 0)?;
    Ok(Said { value, lost })
}

// The date of a list of parts.
fn read_parts(alloc: Global, json: &Value<'_>) -> Result<Said<Date>, OutOfMemory>
    ensures { IfOk result (λ said. date_view said ≡ parts_said (value_view json.now)) }
{
    match json {
        Value::Null => Ok(kept(alloc, None)),
        Value::Array(_) => date_of(alloc, json),
        _ => kept_but_unread(alloc, None, Why::NotList, json),
    }
}

// The date of three parts at most.
fn date_of(alloc: Global, json: &Value<'_>) -> Result<Said<Date>, OutOfMemory>
    ensures { IfOk result (λ said. date_view said ≡ parts_read (value_view json.now)) }
{
    if json.at(3).is_some() {
        return kept_but_unread(alloc, None, Why::NotDate, json);
    }
    let month = unless_zero(part_at(json, 1));
    let day = unless_zero(part_at(json, 2));
    date_by(alloc, part_at(json, 0), month, day, json)
}

// The part at this place of a list.
fn part_at(json: &Value<'_>, place: usize) -> Part
    ensures { result ≡ part_at place (value_view json.now) }
{
    match json.at(place) {
        Some(part) => part_of(part),
        None => Part::Missing,
    }
}

// A number or digits. Null and an empty text are as if the part were missing.
fn part_of(json: &Value<'_>) -> Part
    ensures { result ≡ part_of (value_view json.now) }
{
    if json.is_null() {
        return Part::Missing;
    }
    let Some(text) = text_in(json) else {
        return Part::Unread;
    };
    if text.is_empty() {
        Part::Missing
    } else {
        part_by(whole_read(text))
    }
}

// The date of a year, a month or a season, and a day. A day without its month is lost.
fn date_by(
    alloc: Global,
    year: Part,
    month: Part,
    day: Part,
    json: &Value<'_>,
) -> Result<Said<Date>, OutOfMemory>
    ensures { IfOk result (λ said. date_view said ≡ date_by year month day) }
{
    let none = Part::Missing;
    match (year, month, day) {
        (Part::Missing, Part::Missing, Part::Missing) => Ok(kept(alloc, None)),
        (Part::Number(year), Part::Missing, Part::Missing) => {
            dated(alloc, date_at(year, none, none, None), json)
        }
        (Part::Number(year), Part::Missing, _) => {
            let date = date_at(year, none, none, None);
            kept_but_unread(alloc, date, Why::NotDate, json)
        }
        (Part::Number(year), month, day) => {
            dated(alloc, date_at(year, month, day, month_season(month)), json)
        }
        _ => kept_but_unread(alloc, None, Why::NotDate, json),
    }
}
