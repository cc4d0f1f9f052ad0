//! The date of an entry, by the texts of its fields.
ghost use Rattle.std.specs.Prelude.{◌≡◌, IfOk, option_map};
ghost use Rattle.std.specs.Str.{chars};
ghost use Rattle.haya_bibtex_dates.specs.DateViews.{date_view, text_chars, texts_view};
ghost use Rattle.haya_bibtex_dates.specs.Entries.{asked_day, by_month_field, by_month_text};
ghost use Rattle.haya_bibtex_dates.specs.Entries.{by_year, date_of, dated, day_by, entry_date};
ghost use Rattle.haya_bibtex_dates.specs.Entries.{of_day, of_month, own_day, without_date};
ghost use Rattle.haya_bibtex_dates.specs.Forms.{date_in};
ghost use Rattle.haya_bibtex_dates.specs.Years.{first_of, year_in};

use crate::calendar::{in_month, less_one, on_day, with_season};
use crate::digits::short_number;
use crate::forms::read_date;
use crate::months::{MonthText, month_in};
use crate::years::year_in;
use haya_characters::chars_of;
use haya_time::Date;
use std::alloc::{AllocError, Global};

/// The texts of the fields of a date that an entry has.
#[derive(Clone, Copy)]
pub struct DateTexts<'a> {
    /// The field `date`, as it stands.
    pub date: Option<&'a str>,
    /// The field `year`, as it stands, and its text.
    pub year: Option<(&'a str, &'a str)>,
    /// The text of the field `month`.
    pub month: Option<&'a str>,
    /// The text of the field `day`.
    pub day: Option<&'a str>,
}

/// The date of an entry, and which of its fields have a value that isn't read.
#[derive(Clone, Copy)]
pub struct EntryDate {
    /// The date, if one is told.
    pub date: Option<Date>,
    /// Whether `date` isn't read.
    pub lost_date: bool,
    /// Whether `year` isn't read.
    pub lost_year: bool,
    /// Whether `month` isn't read, or its day isn't in the calendar.
    pub lost_month: bool,
    /// Whether `day` isn't read, or isn't in the calendar.
    pub lost_day: bool,
}

// A date, and which of the other fields aren't read.
fn dated_with(date: Option<Date>, lost_year: bool, lost_month: bool, lost_day: bool) -> EntryDate
    ensures { date_view result ≡ entry_date date lost_year lost_month lost_day }
{
    EntryDate {
        date,
        lost_date: false,
        lost_year,
        lost_month,
        lost_day,
    }
}

// The same date on another month and day.
fn dated(date: Date, on: Option<Date>) -> Option<Date>
    ensures { result ≡ dated date on }
{
    match on {
        Some(on) => Some(Date {
            approximate: date.approximate,
            ..on
        }),
        None => None,
    }
}

// The date in a month.
fn of_month(date: Date, month: u8) -> Option<Date>
    ensures { result ≡ of_month date month }
{
    dated(date, in_month(date.year, Some(month)))
}

// The date on a day of a month.
fn of_day(date: Date, month: u8, day: u8) -> Option<Date>
    ensures { result ≡ of_day date month day }
{
    dated(date, on_day(date.year, Some(month), less_one(day)))
}

// The date on a day that the month's own text has.
fn own_day(date: Date, month: u8, day: u8) -> EntryDate
    ensures { date_view result ≡ own_day date month (of_day date month day) }
{
    match of_day(date, month, day) {
        Some(on) => dated_with(Some(on), false, false, false),
        None => dated_with(of_month(date, month), false, true, false),
    }
}

// The date on a day whose number is read, or isn't.
fn day_by(date: Date, month: u8, day: Option<u8>) -> Option<Date>
    ensures { result ≡ day_by date month day }
{
    match day {
        Some(day) => of_day(date, month, day),
        None => None,
    }
}

// The date in a month, or on the day of the field `day`.
fn asked_day(date: Date, month: u8, day: Option<&str>) -> EntryDate
    ensures { date_view result ≡ asked_day date month (option_map (λ t. t.now) day.entry) }
{
    match day {
        Some(text) => match day_by(date, month, short_number(text.as_bytes())) {
            Some(on) => dated_with(Some(on), false, false, false),
            None => dated_with(of_month(date, month), false, false, true),
        },
        None => dated_with(of_month(date, month), false, false, false),
    }
}

// The date with what a month's text tells.
fn by_month_text(date: Date, month: MonthText, day: Option<&str>) -> EntryDate
    ensures { date_view result ≡ by_month_text date month (option_map (λ t. t.now) day.entry) }
{
    match month {
        MonthText::Unread => dated_with(Some(date), false, true, day.is_some()),
        MonthText::InSeason(season) => {
            dated_with(Some(with_season(season, date)), false, false, day.is_some())
        }
        MonthText::InMonth(month, Some(number)) => own_day(date, month, number),
        MonthText::InMonth(month, None) => asked_day(date, month, day),
    }
}

// The date with the fields `month` and `day`.
fn by_month_field(
    alloc: Global,
    date: Date,
    month: Option<&str>,
    day: Option<&str>,
) -> Result<EntryDate, AllocError>
    ensures { IfOk result (λ e. date_view e
        ≡ by_month_field date (text_chars month.entry) (option_map (λ t. t.now) day.entry)) }
{
    match month {
        Some(text) => {
            let chars = chars_of(alloc, text)?;
            let month = month_in(alloc, chars.as_slice())?;
            Ok(by_month_text(date, month, day))
        }
        None => Ok(dated_with(Some(date), false, false, day.is_some())),
    }
}

// The date of a year that is read, or isn't.
fn by_year(
    alloc: Global,
    year: Option<Date>,
    month: Option<&str>,
    day: Option<&str>,
) -> Result<EntryDate, AllocError>
    ensures { IfOk result (λ e. date_view e
        ≡ by_year year (text_chars month.entry) (option_map (λ t. t.now) day.entry)) }
{
    match year {
        Some(date) if date.month.is_some() || date.season.is_some() => {
            Ok(dated_with(Some(date), false, false, false))
        }
        Some(date) => by_month_field(alloc, date, month, day),
        None => Ok(dated_with(None, true, month.is_some(), day.is_some())),
    }
}

// The date of a year's text: a whole date as it stands, or otherwise a year.
fn date_or_year(alloc: Global, plain: &str, text: &str) -> Result<Option<Date>, AllocError>
    ensures { IfOk result (λ d. d
        ≡ first_of (date_in (chars plain.now)) (year_in (chars text.now))) }
{
    let date = read_date(alloc, plain)?;
    if date.is_some() {
        return Ok(date);
    }
    let chars = chars_of(alloc, text)?;
    year_in(alloc, chars.as_slice())
}

// The date of the fields `year`, `month` and `day`.
fn without_date(alloc: Global, texts: DateTexts<'_>) -> Result<EntryDate, AllocError>
    ensures { IfOk result (λ e. date_view e ≡ without_date (texts_view texts.entry)) }
{
    match texts.year {
        Some((plain, text)) => {
            let year = date_or_year(alloc, plain, text)?;
            by_year(alloc, year, texts.month, texts.day)
        }
        None => Ok(dated_with(None, false, texts.month.is_some(), texts.day.is_some())),
    }
}

/// The date of an entry: that of the field `date`, or where it isn't there or isn't read that of
/// `year` with `month` and `day`; and which of the four have a value that isn't read. One that is
/// left aside because another is preferred is none of them.
pub fn entry_date(alloc: Global, texts: DateTexts<'_>) -> Result<EntryDate, AllocError>
    ensures { IfOk result (λ e. date_view e ≡ date_of (texts_view texts.entry)) }
{
    let date = match texts.date {
        Some(text) => read_date(alloc, text)?,
        None => None,
    };
    if date.is_some() {
        return Ok(dated_with(date, false, false, false));
    }
    let entry = without_date(alloc, texts)?;
    Ok(EntryDate {
        lost_date: texts.date.is_some(),
        ..entry
    })
}
