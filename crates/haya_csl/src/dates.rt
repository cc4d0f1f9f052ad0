//! Dates, and what is lost of them.
ghost use Rattle.std.specs.Prelude.{◌≡◌, ◌++◌, IfOk, OnOk};
ghost use Rattle.json.specs.Value.{members_view, value_view};
ghost use Rattle.haya_json.specs.Notes.{losts_view};
ghost use Rattle.haya_json.specs.Parts.{text_in};
ghost use Rattle.haya_csl.specs.Dates.{after_member, all_unknown, circa_by, date_said};
ghost use Rattle.haya_csl.specs.Dates.{date_view, in_season_said, is_known, is_season, is_true};
ghost use Rattle.haya_csl.specs.Dates.{members_said, next_text, range_said, reader_of};
ghost use Rattle.haya_csl.specs.Dates.{season_by, season_read, season_text, start_said};
ghost use Rattle.haya_csl.specs.Dates.{text_said, truth_in, unknown_lost, with_first_season};
ghost use Rattle.haya_csl.specs.DateTexts.{range_start};
ghost use Rattle.haya_csl.specs.Said.{said_view};

pub(crate) mod calendar;
pub(crate) mod kept;
pub(crate) mod parts;
pub(crate) mod texts;

use crate::said::Said;
use calendar::{any_season, edtf_season, with_season};
use haya_json::reading::{add_in_member, member, text_in, whole_read};
use haya_json::{Lost, Why};
use haya_text::OutOfMemory;
use haya_time::{Date, Season};
use json::Value;
use kept::{dated, kept, kept_but_named, kept_but_unread, ranged, unknown_member, with_one};
use parts::read_dates;
use std::alloc::Global;
use texts::{date_in, marked, named_season, plain, range_start};

/// The date that a value says, under the member of this name, and what is lost of it.
#[tactic(auto, unfolding(crate::specs::Dates::date_said))]
pub(crate) fn read_date(
    alloc: Global,
    name: &str,
    json: &Value<'_>,
) -> Result<Said<Date>, OutOfMemory>
    ensures { IfOk result (λ said.
        said_view (λ d. d) said ≡ date_said name.now (value_view json.now)) }
{
    match json {
        Value::Object(members) => {
            let said = read_members(alloc, name, json)?;
            with_unknown(alloc, name, members, said)
        }
        Value::String(text) => read_date_text(alloc, name, text, json),
        Value::Number(text) => read_date_text(alloc, name, text, json),
        _ => kept_but_unread(alloc, None, Why::NotObject, json),
    }
}

// What the members say that dates have.
fn read_members(alloc: Global, name: &str, json: &Value<'_>) -> Result<Said<Date>, OutOfMemory>
    ensures { IfOk result (λ said. date_view said ≡ members_said name.now (value_view json.now)) }
{
    let mut said = kept(alloc, None);
    after_member(alloc, name, json, &mut said, "date-parts")?;
    after_member(alloc, name, json, &mut said, "raw")?;
    after_member(alloc, name, json, &mut said, "edtf")?;
    after_member(alloc, name, json, &mut said, "literal")?;
    after_member(alloc, name, json, &mut said, "season")?;
    after_member(alloc, name, json, &mut said, "circa")?;
    Ok(said)
}

// Puts what the member of this name says, if there is one, behind what is said so far.
#[tactic(auto, unfolding(crate::specs::Dates::after_member))]
fn after_member(
    alloc: Global,
    name: &str,
    json: &Value<'_>,
    so_far: &mut Said<Date>,
    key: &str,
) -> Result<(), OutOfMemory>
    ensures { OnOk result (date_view so_far.new
        ≡ after_member name.now (value_view json.now) (date_view so_far.old) key.now) }
{
    let Some(value) = member(json, key) else {
        return Ok(());
    };
    let Said { value, lost } = read_known(alloc, name, key, so_far.value, value)?;
    so_far.value = value;
    add_in_member(alloc, &mut so_far.lost, lost, key)
}

// The date after the member of this name.
fn read_known(
    alloc: Global,
    name: &str,
    key: &str,
    found: Option<Date>,
    json: &Value<'_>,
) -> Result<Said<Date>, OutOfMemory>
    ensures { IfOk result (λ said.
        date_view said ≡ reader_of key.now name.now found (value_view json.now)) }
{
    match key {
        "date-parts" => read_dates(alloc, name, found, json),
        "raw" => next_text(alloc, "raw date", name, found, json),
        "edtf" => next_text(alloc, "edtf date", name, found, json),
        "literal" => next_text(alloc, "literal date", name, found, json),
        "season" => read_season(alloc, found, json),
        "circa" => read_circa(alloc, found, json),
        _ => Ok(kept(alloc, found)),
    }
}

// The same date, and the members that have no meaning are lost.
fn with_unknown(
    alloc: Global,
    name: &str,
    members: &Vec<(&str, Value<'_>)>,
    said: Said<Date>,
) -> Result<Said<Date>, OutOfMemory>
    ensures { IfOk result (λ all. (all.value ≡ said.value)
        × (losts_view all.lost.items ≡ losts_view said.lost.items
        ++ all_unknown name.now (members_view members.now.items))) }
{
    let Said { value, mut lost } = said;
    'members: for member in members {
        lost = after_unknown(alloc, name, member.0, &member.1, lost)?;
    }
    Ok(Said { value, lost })
}

// These losses, and the member of this name where it has no meaning.
fn after_unknown(
    alloc: Global,
    name: &str,
    key: &str,
    json: &Value<'_>,
    lost: Vec<Lost>,
) -> Result<Vec<Lost>, OutOfMemory>
    ensures { IfOk result (λ all. losts_view all.items
        ≡ losts_view lost.items ++ unknown_lost name.now key.now (value_view json.now)) }
{
    if json.is_null() || is_known(key) {
        return Ok(lost);
    }
    let unknown = unknown_member(alloc, name, key)?;
    let unknown = unknown.in_member(alloc, key)?;
    with_one(lost, unknown)
}

// Whether dates have a member of this name.
fn is_known(key: &str) -> bool
    ensures { result ≡ is_known key.now }
{
    match key {
        "date-parts" | "raw" | "edtf" | "literal" | "season" | "circa" => true,
        _ => false,
    }
}

// The date of a text, or of the start of a range. An empty text says none.
#[tactic(auto, unfolding(crate::specs::Dates::text_said))]
fn read_date_text(
    alloc: Global,
    name: &str,
    text: &str,
    json: &Value<'_>,
) -> Result<Said<Date>, OutOfMemory>
    ensures { IfOk result (λ said. date_view said ≡ text_said name.now text.now) }
{
    if text.is_empty() {
        return Ok(kept(alloc, None));
    }
    let text = plain(alloc, text)?;
    read_plain(alloc, name, text.as_str(), json)
}

// The date of a plain text, or of the start of a range.
fn read_plain(
    alloc: Global,
    name: &str,
    text: &str,
    json: &Value<'_>,
) -> Result<Said<Date>, OutOfMemory>
    ensures { IfOk result (λ said.
        date_view said ≡ range_said name.now text.now (range_start text.now)) }
{
    match range_start(text) {
        Some(start) => start_said(alloc, name, date_in(start), json),
        None => dated(alloc, date_in(text), json),
    }
}

// The date that begins a range.
fn start_said(
    alloc: Global,
    name: &str,
    date: Option<Date>,
    json: &Value<'_>,
) -> Result<Said<Date>, OutOfMemory>
    ensures { IfOk result (λ said. date_view said ≡ start_said name.now date) }
{
    match date {
        Some(date) => ranged(alloc, name, kept(alloc, Some(date))),
        None => kept_but_unread(alloc, None, Why::NotDate, json),
    }
}

// The date after a text, which is counted under a name where it isn't needed.
fn next_text(
    alloc: Global,
    spare: &str,
    name: &str,
    found: Option<Date>,
    json: &Value<'_>,
) -> Result<Said<Date>, OutOfMemory>
    ensures { IfOk result (λ said.
        date_view said ≡ next_text spare.now name.now found (value_view json.now)) }
{
    match (found, text_in(json)) {
        (None, Some(text)) => read_date_text(alloc, name, text, json),
        (None, None) => kept_but_unread(alloc, None, Why::NotText, json),
        (Some(date), Some("")) => Ok(kept(alloc, Some(date))),
        (Some(date), _) => kept_but_named(alloc, Some(date), spare),
    }
}

// The date after its season.
fn read_season(
    alloc: Global,
    found: Option<Date>,
    json: &Value<'_>,
) -> Result<Said<Date>, OutOfMemory>
    ensures { IfOk result (λ said.
        date_view said ≡ season_by found (text_in (value_view json.now))) }
{
    match text_in(json) {
        Some(text) => read_season_text(alloc, found, text, json),
        None => kept_but_unread(alloc, found, Why::NotDate, json),
    }
}

// The date after the text of its season.
#[tactic(auto, unfolding(crate::specs::Dates::season_text))]
fn read_season_text(
    alloc: Global,
    found: Option<Date>,
    text: &str,
    json: &Value<'_>,
) -> Result<Said<Date>, OutOfMemory>
    ensures { IfOk result (λ said. date_view said ≡ season_text found text.now) }
{
    if text.is_empty() {
        return Ok(kept(alloc, found));
    }
    let text = plain(alloc, text)?;
    in_season(alloc, found, season_read(text.as_str()), json)
}

// The season of a plain text: by its number, or by its name in English.
#[tactic(auto, unfolding(crate::specs::Dates::season_read))]
fn season_read(text: &str) -> Option<Season>
    ensures { result ≡ season_read text.now }
{
    if let Some(number) = whole_read(text) {
        if let Some(season) = any_season(number) {
            return Some(season);
        }
    }
    edtf_season(named_season(text))
}

// The date in a season that is read, or isn't.
#[tactic(auto, unfolding(crate::specs::Dates::in_season_said))]
fn in_season(
    alloc: Global,
    found: Option<Date>,
    season: Option<Season>,
    json: &Value<'_>,
) -> Result<Said<Date>, OutOfMemory>
    ensures { IfOk result (λ said. date_view said ≡ in_season_said found season) }
{
    match (found, season) {
        (found, None) => kept_but_unread(alloc, found, Why::NotDate, json),
        (None, Some(_)) => kept_but_named(alloc, None, "season"),
        (Some(date), Some(season)) => with_first_season(alloc, season, date),
    }
}

// The date with this season, where it has no other.
fn with_first_season(alloc: Global, season: Season, date: Date) -> Result<Said<Date>, OutOfMemory>
    ensures { IfOk result (λ said. date_view said ≡ with_first_season season date date.season) }
{
    match date.season {
        None => Ok(kept(alloc, with_season(season, Some(date)))),
        Some(first) if is_season(season, first) => Ok(kept(alloc, Some(date))),
        Some(_) => kept_but_named(alloc, Some(date), "season"),
    }
}

// Whether the two are one season.
fn is_season(season: Season, other: Season) -> bool
    ensures { result ≡ is_season season other }
{
    match (season, other) {
        (Season::Spring, Season::Spring) => true,
        (Season::Summer, Season::Summer) => true,
        (Season::Autumn, Season::Autumn) => true,
        (Season::Winter, Season::Winter) => true,
        _ => false,
    }
}

// The date after it is told whether it is only about right.
fn read_circa(
    alloc: Global,
    found: Option<Date>,
    json: &Value<'_>,
) -> Result<Said<Date>, OutOfMemory>
    ensures { IfOk result (λ said.
        date_view said ≡ circa_by found (truth_in (value_view json.now))) }
{
    match (found, truth_in(json)) {
        (found, None) => kept_but_unread(alloc, found, Why::NotTruth, json),
        (found, Some(false)) => Ok(kept(alloc, found)),
        (None, Some(true)) => kept_but_named(alloc, None, "circa"),
        (Some(date), Some(true)) => Ok(kept(alloc, Some(marked(date, true)))),
    }
}

// Whether a value is true, if it tells.
fn truth_in(json: &Value<'_>) -> Option<bool>
    ensures { result ≡ truth_in (value_view json.now) }
{
    match json {
        Value::Bool(truth) => Some(*truth),
        _ => {
            let text = text_in(json)?;
            Some(is_true(text))
        }
    }
}

// Whether a text is true.
fn is_true(text: &str) -> bool
    ensures { result ≡ is_true text.now }
{
    !(text == "" || text == "false" || text == "0")
}
