//! Dates by their years, months and days.
ghost use Rattle.std.specs.Prelude.{◌≡◌, ◌≤◌};
ghost use Rattle.haya_bibtex_dates.specs.Calendar.{date_by, date_with, in_month, in_season};
ghost use Rattle.haya_bibtex_dates.specs.Calendar.{less_one, marked, on_calendar, on_day};
ghost use Rattle.haya_bibtex_dates.specs.Calendar.{season_of, with_season, with_sign};

use haya_time::{Date, Season};

/// A month or a day of a date's text.
#[derive(Clone, Copy)]
pub(crate) enum Part {
    /// It isn't there.
    Missing,
    /// It is `XX`.
    Unknown,
    /// Its number.
    Number(u8),
}

// The date, if it is one of the calendar's.
fn on_calendar(year: i32, month: Option<u8>, day: Option<u8>) -> Option<Date>
    ensures { result ≡ on_calendar (date_with year month day) }
{
    let date = Date {
        month,
        day,
        ..Date::from_year(year)
    };
    if date.reads_back() { Some(date) } else { None }
}

/// A month or a day, which dates count from 0 on.
pub(crate) fn less_one(number: u8) -> Option<u8>
    ensures { result ≡ less_one number }
{
    number.checked_sub(1)
}

/// The date of a month.
pub(crate) fn in_month(year: i32, month: Option<u8>) -> Option<Date>
    ensures { result ≡ in_month year month }
{
    match month {
        Some(month) => on_calendar(year, Some(month), None),
        None => None,
    }
}

/// The date of a day.
pub(crate) fn on_day(year: i32, month: Option<u8>, day: Option<u8>) -> Option<Date>
    ensures { result ≡ on_day year month day }
{
    match (month, day) {
        (Some(month), Some(day)) => on_calendar(year, Some(month), Some(day)),
        _ => None,
    }
}

// The season that a number in the place of a month means.
fn season_of(number: u8) -> Option<Season>
    ensures { result ≡ season_of number }
{
    match number {
        21 => Some(Season::Spring),
        22 => Some(Season::Summer),
        23 => Some(Season::Autumn),
        24 => Some(Season::Winter),
        _ => None,
    }
}

/// The date in a season.
pub(crate) fn with_season(season: Season, date: Date) -> Date
    ensures { result ≡ with_season season date }
{
    Date {
        season: Some(season),
        ..date
    }
}

// The date of a month, or of the season that its number means.
fn in_season(year: i32, month: u8) -> Option<Date>
    ensures { result ≡ in_season year month (season_of month) }
{
    match season_of(month) {
        Some(season) => Some(with_season(season, Date::from_year(year))),
        None => in_month(year, less_one(month)),
    }
}

/// The date of a year, a month and a day.
pub(crate) fn date_by(year: i32, month: Part, day: Part) -> Option<Date>
    ensures { result ≡ date_by year month day }
{
    match (month, day) {
        (Part::Number(month), Part::Number(day)) => on_day(year, less_one(month), less_one(day)),
        (Part::Number(month), _) => in_season(year, month),
        (Part::Unknown, Part::Number(_)) => None,
        _ => Some(Date::from_year(year)),
    }
}

/// The year with its sign.
pub(crate) fn with_sign(negative: bool, year: u16) -> i32
    ensures { result ≡ with_sign negative year }
{
    let year = i32::from(year);
    if negative { -year } else { year }
}

/// The date, which is approximate if it has a mark.
pub(crate) fn marked(mark: bool, date: Date) -> Date
    ensures { result ≡ marked mark date }
{
    Date {
        approximate: date.approximate || mark,
        ..date
    }
}
