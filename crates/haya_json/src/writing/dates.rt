//! Dates.
ghost use Rattle.std.specs.Prelude.{◌≡◌, IfOk, OnOk, nat_eq};
ghost use Rattle.std.specs.Option.{option_eq};
ghost use Rattle.haya_json.specs.Printed.{also, byte_json, date_parts, is_year, reads_as_date};
ghost use Rattle.haya_json.specs.Printed.{same_date, season_json, season_number};
ghost use Rattle.haya_json.specs.Writing.{KeepsBefore, WritesMembers, WritesValue};

use super::people::same_truth;
use crate::members::{ToJson, also_true, write_member};
use haya_text::OutOfMemory;
use haya_time::{Date, Season};
use json::Writer;
use std::alloc::Global;

impl ToJson for i32 {
    ghost use Rattle.std.specs.Prelude.{ℤ};
    ghost use Rattle.haya_json.specs.Printed.{whole_json};

    ghost View = { ℤ };

    ghost view = { λ n. n };

    ghost json = { whole_json };

    /// A whole number.
    fn write_json(&self, _alloc: Global, out: &mut Writer) -> Result<(), OutOfMemory> {
        Ok(out.i64(i64::from(*self))?)
    }
}

// A member with the number of a month or a day, from 0 on, where there is one.
fn also_byte(out: &mut Writer, name: &str, number: Option<u8>) -> Result<(), OutOfMemory>
    ensures member { OnOk result (WritesMembers out.old out.new
        (λ ms. also name.now byte_json number ms)) }
    ensures before { OnOk result (KeepsBefore out.old out.new) }
{
    if let Some(number) = number {
        out.key(name)?;
        out.i64(i64::from(number))?;
    }
    Ok(())
}

// A member with the number of a season, from 1 to 4, where there is one.
fn also_season(out: &mut Writer, name: &str, season: Option<Season>) -> Result<(), OutOfMemory>
    ensures member { OnOk result (WritesMembers out.old out.new
        (λ ms. also name.now season_json season ms)) }
    ensures before { OnOk result (KeepsBefore out.old out.new) }
{
    if let Some(season) = season {
        out.key(name)?;
        out.i64(season_number(season))?;
    }
    Ok(())
}

fn season_number(season: Season) -> i64
    ensures { result ≡ season_number season }
{
    match season {
        Season::Spring => 1,
        Season::Summer => 2,
        Season::Autumn => 3,
        Season::Winter => 4,
    }
}

impl ToJson for Date {
    ghost use Rattle.haya_time.specs.declared.date.Date as date;
    ghost use Rattle.haya_json.specs.Printed.{date_json};

    ghost View = { date.Date };

    ghost view = { λ d. d };

    ghost json = { date_json };

    /// The year as a number where it is alone, a text where that reads as the date, or an object
    /// of the parts.
    #[tactic(auto, unfolding(crate::specs::Printed::date_json))]
    fn write_json(&self, alloc: Global, out: &mut Writer) -> Result<(), OutOfMemory> {
        if is_year(self) {
            return self.year.write_json(alloc, out);
        }
        let text = format!(in alloc; "{self}")?;
        if reads_as(text.as_str(), self) {
            return Ok(out.string(text.as_str())?);
        }
        write_parts(alloc, out, self)
    }
}

// Whether the date tells its year alone.
fn is_year(date: &Date) -> bool
    ensures { result ≡ is_year date.now }
{
    date.month.is_none() && date.day.is_none() && date.season.is_none() && !date.approximate
}

// Whether the text reads as the date.
fn reads_as(text: &str, date: &Date) -> bool
    ensures { result ≡ reads_as_date text.now date.now }
{
    match text.parse::<Date>() {
        Ok(read) => same_date(&read, date),
        Err(_) => false,
    }
}

// Whether two dates, of which none tells a season, are the same.
fn same_date(a: &Date, b: &Date) -> bool
    ensures { result ≡ same_date a.now b.now }
{
    a.year == b.year
        && same_number(a.month, b.month)
        && same_number(a.day, b.day)
        && same_truth(a.approximate, b.approximate)
        && a.season.is_none()
        && b.season.is_none()
}

fn same_number(a: Option<u8>, b: Option<u8>) -> bool
    ensures { result ≡ option_eq nat_eq a b }
{
    match (a, b) {
        (Some(a), Some(b)) => a == b,
        (None, None) => true,
        _ => false,
    }
}

// The parts of a date as an object.
fn write_parts(alloc: Global, out: &mut Writer, date: &Date) -> Result<(), OutOfMemory>
    ensures value { OnOk result (WritesValue out.old out.new (date_parts date.now)) }
    ensures before { OnOk result (KeepsBefore out.old out.new) }
{
    out.begin_object()?;
    write_member(alloc, out, "year", &date.year)?;
    also_byte(out, "month", date.month)?;
    also_byte(out, "day", date.day)?;
    also_true(out, "approximate", date.approximate)?;
    also_season(out, "season", date.season)?;
    out.end_object()?;
    Ok(())
}
