//! Dates, to the day or less exact.
ghost use Rattle.std.specs.Prelude.{◌≡◌, None, false};

mod calendar;
mod number;
mod order;
mod print;
mod read;

use thiserror::Error;

/// A date: a year, and perhaps a month and a day.
#[derive(Clone, Copy, Debug, PartialEq, Eq, Hash)]
pub struct Date {
    /// The year of the proleptic Gregorian calendar, as ISO 8601 counts: the year before 1 is 0.
    pub year: i32,
    /// The month, from 0 to 11.
    pub month: Option<u8>,
    /// The day of the month, from 0 to 30.
    pub day: Option<u8>,
    /// Whether the date is only about right.
    pub approximate: bool,
    /// The season, which no text of a date tells.
    pub season: Option<Season>,
}

/// A season of the year.
#[derive(Clone, Copy, Debug, PartialEq, Eq, PartialOrd, Ord, Hash)]
pub enum Season {
    /// The first season, with which the order begins.
    Spring,
    /// The second season.
    Summer,
    /// The third season.
    Autumn,
    /// The last season.
    Winter,
}

/// Why a text is no date.
#[derive(Clone, Copy, Debug, PartialEq, Eq, Error)]
pub enum DateError {
    /// The text has no form of a date.
    #[error("unknown date format")]
    UnknownFormat,
    /// No year has the month: it is not 1 to 12.
    #[error("month out of bounds")]
    MonthOutOfBounds,
    /// The month of that year doesn't have this day.
    #[error("day {0} out of bounds")]
    DayOutOfBounds(u8),
}

impl Date {
    /// The date of a year, with nothing else.
    pub fn from_year(year: i32) -> Date
        ensures { result
            ≡ record { year = year; month = None; day = None; approximate = false; season = None } }
    {
        Date {
            year,
            month: None,
            day: None,
            approximate: false,
            season: None,
        }
    }
}
