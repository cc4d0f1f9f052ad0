//! Dates by their numbers: a year, a month or a season, and a day.
ghost use Rattle.std.specs.Prelude.{◌≡◌, option_map};
ghost use Rattle.haya_csl.specs.DateNumbers.{all_seasons, counted, date_at, date_with};
ghost use Rattle.haya_csl.specs.DateNumbers.{edtf_seasons, first_of, in_month, in_season};
ghost use Rattle.haya_csl.specs.DateNumbers.{month_seasons, on_calendar, on_day, part_by};
ghost use Rattle.haya_csl.specs.DateNumbers.{part_season, season_in, unless_zero, with_season};

use haya_time::{Date, Season};

/// A part of a date.
#[derive(Clone, Copy)]
pub(crate) enum Part {
    /// It isn't there.
    Missing,
    /// It is no whole number.
    Unread,
    /// A year, or a month or a day from 1 on.
    Number(i32),
}

/// The first, and where there is none the second.
pub(crate) fn first_of<T: Copy>(first: Option<T>, second: Option<T>) -> Option<T>
    ensures { result ≡ first_of first second }
{
    match first {
        Some(first) => Some(first),
        None => second,
    }
}

/// A part that is read as a number, or isn't.
pub(crate) fn part_by(number: Option<i32>) -> Part
    ensures { result ≡ part_by number }
{
    match number {
        Some(number) => Part::Number(number),
        None => Part::Unread,
    }
}

/// A month or a day, which is missing where it is 0.
pub(crate) fn unless_zero(part: Part) -> Part
    ensures { result ≡ unless_zero part }
{
    match part {
        Part::Number(0) => Part::Missing,
        _ => part,
    }
}

/// The season with this number, as EDTF has it where a month would be.
pub(crate) fn edtf_season(part: Part) -> Option<Season>
    ensures { result ≡ part_season edtf_seasons part }
{
    match part {
        Part::Number(number) => edtf_season_at(number),
        _ => None,
    }
}

/// The season with this number, as CSL has it where a month would be.
pub(crate) fn month_season(part: Part) -> Option<Season>
    ensures { result ≡ part_season month_seasons part }
{
    match part {
        Part::Number(number) => month_season_at(number),
        _ => None,
    }
}

/// The season with this number, alone or where a month would be.
pub(crate) fn any_season(number: i32) -> Option<Season>
    ensures { result ≡ season_in all_seasons number }
{
    match number {
        1 => Some(Season::Spring),
        2 => Some(Season::Summer),
        3 => Some(Season::Autumn),
        4 => Some(Season::Winter),
        _ => month_season_at(number),
    }
}

// The same of the numbers from 13 on.
fn month_season_at(number: i32) -> Option<Season>
    ensures { result ≡ season_in month_seasons number }
{
    match number {
        13 => Some(Season::Spring),
        14 => Some(Season::Summer),
        15 => Some(Season::Autumn),
        16 => Some(Season::Winter),
        _ => edtf_season_at(number),
    }
}

// The same of the numbers from 21 on.
fn edtf_season_at(number: i32) -> Option<Season>
    ensures { result ≡ season_in edtf_seasons number }
{
    match number {
        21 => Some(Season::Spring),
        22 => Some(Season::Summer),
        23 => Some(Season::Autumn),
        24 => Some(Season::Winter),
        _ => None,
    }
}

/// The date of a year, of a month or the season that it is, and of a day.
pub(crate) fn date_at(year: i32, month: Part, day: Part, season: Option<Season>) -> Option<Date>
    ensures { result ≡ date_at year month day season }
{
    match (month, day) {
        (Part::Missing, Part::Missing) => on_calendar(year, None, None),
        (Part::Number(month), Part::Missing) => in_season(season, year, month),
        (Part::Number(month), Part::Number(day)) => on_day(year, counted(month), counted(day)),
        _ => None,
    }
}

// The date of a season, or otherwise of the month.
fn in_season(season: Option<Season>, year: i32, month: i32) -> Option<Date>
    ensures { result ≡ in_season season year month }
{
    match season {
        Some(season) => with_season(season, on_calendar(year, None, None)),
        None => in_month(year, counted(month)),
    }
}

/// The date with this season, if there is one.
pub(crate) fn with_season(season: Season, date: Option<Date>) -> Option<Date>
    ensures { result ≡ option_map (with_season season) date }
{
    let date = date?;
    Some(Date {
        season: Some(season),
        ..date
    })
}

// The date of a month.
fn in_month(year: i32, month: Option<u8>) -> Option<Date>
    ensures { result ≡ in_month year month }
{
    on_calendar(year, Some(month?), None)
}

// The date of a day.
fn on_day(year: i32, month: Option<u8>, day: Option<u8>) -> Option<Date>
    ensures { result ≡ on_day year month day }
{
    on_calendar(year, Some(month?), Some(day?))
}

// A month or a day, which dates count from 0 on.
fn counted(number: i32) -> Option<u8>
    ensures { result ≡ counted number }
{
    let number = u8::try_from(number).ok()?;
    number.checked_sub(1)
}

// The date, if it is one of the calendar's and of the years that texts of dates can write.
fn on_calendar(year: i32, month: Option<u8>, day: Option<u8>) -> Option<Date>
    ensures { result ≡ on_calendar (date_with year month day) }
{
    let date = Date {
        month,
        day,
        ..Date::from_year(year)
    };
    if date.reads_back() { Some(date) } else { None }
}
