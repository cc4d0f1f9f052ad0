//! A date so far, and what is lost of it.
ghost use Rattle.std.specs.Prelude.{◌≡◌, ◌++◌, ◌∷◌, [], IfOk, string_bytes};
ghost use Rattle.haya_json.specs.Notes.{lost_here, lost_view, losts_view, named, unread};
ghost use Rattle.haya_csl.specs.Dates.{date_view, dated, keeps, keeps_but};
ghost use Rattle.haya_csl.specs.Dates.{range_end, ranged, unknown_name};

use crate::said::Said;
use haya_json::{Lost, Why};
use haya_text::OutOfMemory;
use haya_time::Date;
use json::Value;
use std::alloc::Global;

/// This date or none, and nothing is lost.
pub(crate) fn kept(alloc: Global, date: Option<Date>) -> Said<Date>
    ensures { date_view result ≡ keeps date }
{
    Said {
        value: date,
        lost: Vec::new(alloc),
    }
}

// This date or none, and this is lost.
fn kept_but(alloc: Global, date: Option<Date>, lost: Lost) -> Result<Said<Date>, OutOfMemory>
    ensures value { IfOk result (λ said. said.value ≡ date) }
    ensures lost { IfOk result (λ said. losts_view said.lost.items ≡ lost_view lost ∷ []) }
{
    let mut losts = Vec::new(alloc);
    match losts.push(lost) {
        Ok(()) => Ok(Said {
            value: date,
            lost: losts,
        }),
        Err(_) => Err(OutOfMemory),
    }
}

/// This date or none, and the value isn't read for this reason.
pub(crate) fn kept_but_unread(
    alloc: Global,
    date: Option<Date>,
    why: Why,
    json: &Value<'_>,
) -> Result<Said<Date>, OutOfMemory>
    ensures { IfOk result (λ said. date_view said ≡ keeps_but (unread why) date) }
{
    let lost = Lost::unread(alloc, why, json)?;
    kept_but(alloc, date, lost)
}

/// This date or none, and the value is counted under this name.
pub(crate) fn kept_but_named(
    alloc: Global,
    date: Option<Date>,
    name: &str,
) -> Result<Said<Date>, OutOfMemory>
    ensures { IfOk result (λ said. date_view said ≡ keeps_but (named name.now) date) }
{
    let lost = Lost::named(alloc, name)?;
    kept_but(alloc, date, lost)
}

/// A date that has to be one.
pub(crate) fn dated(
    alloc: Global,
    date: Option<Date>,
    json: &Value<'_>,
) -> Result<Said<Date>, OutOfMemory>
    ensures { IfOk result (λ said. date_view said ≡ dated date) }
{
    match date {
        Some(date) => Ok(kept(alloc, Some(date))),
        None => kept_but_unread(alloc, None, Why::NotDate, json),
    }
}

/// A date that begins a range, of which the end is lost.
pub(crate) fn ranged(alloc: Global, name: &str, said: Said<Date>) -> Result<Said<Date>, OutOfMemory>
    ensures { IfOk result (λ all. date_view all ≡ ranged name.now (date_view said)) }
{
    let end = range_end(alloc, name)?;
    let Said { value, lost } = said;
    let lost = with_one(lost, end)?;
    Ok(Said { value, lost })
}

// The end of a range, which is lost.
fn range_end(alloc: Global, name: &str) -> Result<Lost, OutOfMemory>
    ensures { IfOk result (λ lost. lost_view lost ≡ lost_here (named (range_end name.now))) }
{
    let mut text = String::from_str(alloc, name)?;
    text.push_str(", the end of a range")?;
    Lost::named(alloc, text.as_str())
}

/// A member that has no meaning, which is lost.
pub(crate) fn unknown_member(alloc: Global, name: &str, key: &str) -> Result<Lost, OutOfMemory>
    ensures { IfOk result (λ lost.
        lost_view lost ≡ lost_here (named (unknown_name name.now key.now))) }
{
    let mut text = String::from_str(alloc, name)?;
    text.push_str(", member ")?;
    text.push_str(key)?;
    Lost::named(alloc, text.as_str())
}

/// These losses and one more.
pub(crate) fn with_one(lost: Vec<Lost>, more: Lost) -> Result<Vec<Lost>, OutOfMemory>
    ensures { IfOk result (λ all.
        losts_view all.items ≡ losts_view lost.items ++ lost_view more ∷ []) }
{
    let mut all = lost;
    match all.push(more) {
        Ok(()) => Ok(all),
        Err(_) => Err(OutOfMemory),
    }
}
