//! Persons, dates and numbers of what may be an entry.
ghost use Rattle.std.specs.Prelude.{◌≡◌, option_map};
ghost use Rattle.haya_entry.specs.Tree.{view};
ghost use Rattle.haya_views.specs.Persons.{credit_view};
ghost use Rattle.hayagriva_c.specs.Values.{DateGives, NumberGives, PagesGive, PersonGives};
ghost use Rattle.hayagriva_c.specs.Values.{PersonsAre, count_of_ranges, date_parts, from_one};
ghost use Rattle.hayagriva_c.specs.Values.{part_text, season_number};

use crate::codes;
use crate::room::fill;
use haya_entry::Entry;
use haya_time::{Date, Season};
use haya_views::{
    Credit, credit_at, credits_len, field_date, field_number, page_range_at, page_ranges_len,
};
use std::alloc::Global;

/// A date, as C has it.
#[repr(C)]
#[derive(Clone, Copy)]
pub struct DateParts {
    /// The year, the year before 1 being 0.
    pub year: i32,
    /// The month from 1 on, or 0.
    pub month: u32,
    /// The day from 1 on, or 0.
    pub day: u32,
    /// The season from 1 on, spring first, or 0.
    pub season: u32,
    /// Whether it is only about right.
    pub approximate: bool,
}

impl DateParts {
    /// The parts of a date.
    pub fn of(date: Date) -> DateParts
        ensures { result ≡ date_parts date }
    {
        DateParts {
            year: date.year,
            month: from_one(date.month),
            day: from_one(date.day),
            season: season_number(date.season),
            approximate: date.approximate,
        }
    }
}

// A month or a day from 1 on, 0 where there is none.
fn from_one(number: Option<u8>) -> u32
    ensures { result ≡ from_one number }
{
    match number {
        Some(number) => u32::from(number) + 1,
        None => 0,
    }
}

fn season_number(season: Option<Season>) -> u32
    ensures { result ≡ season_number season }
{
    match season {
        None => 0,
        Some(Season::Spring) => 1,
        Some(Season::Summer) => 2,
        Some(Season::Autumn) => 3,
        Some(Season::Winter) => 4,
    }
}

/// The first and the last page of a range, as C has them.
#[repr(C)]
#[derive(Clone, Copy)]
pub struct Pages {
    /// The first page.
    pub first: i32,
    /// The last one, which is the first of a page alone.
    pub last: i32,
}

/// How many persons the field with a name has.
pub fn entry_persons(entry: Option<(&Entry, Global)>, name: &[u8]) -> usize
    ensures { PersonsAre (option_map (λ e. view e.0.now) entry.entry) name.now result }
{
    match (entry, str::from_utf8(name)) {
        (Some((entry, _)), Ok(name)) => credits_len(entry, name),
        _ => 0,
    }
}

/// A part of the person at a place of the field with a name.
pub fn entry_person(
    entry: Option<(&Entry, Global)>,
    name: &[u8],
    place: usize,
    part: u32,
    room: &mut [u8],
    len: &mut usize,
) -> u32
    ensures { PersonGives (option_map (λ e. view e.0.now) entry.entry) name.now place part
        result len.new room.old room.new }
{
    *len = 0;
    let Some((entry, _)) = entry else {
        return codes::NO_ENTRY;
    };
    let Ok(name) = str::from_utf8(name) else {
        return codes::NO_FIELD;
    };
    let Some(credit) = credit_at(entry, name, place) else {
        return codes::NO_FIELD;
    };
    match part_of(&credit, part) {
        Some(text) => {
            *len = fill(text.as_bytes(), room);
            codes::OK
        }
        None => codes::NO_PART,
    }
}

// The part with this number, if the person has it.
fn part_of<'e>(credit: &Credit<'e>, part: u32) -> Option<&'e str>
    ensures { option_map (λ t. t.now) result ≡ part_text (credit_view credit.now) part }
{
    match part {
        0 => Some(credit.person.name.as_str()),
        1 => credit.person.given_name.as_deref(),
        2 => credit.person.prefix.as_deref(),
        3 => credit.person.suffix.as_deref(),
        4 => credit.person.alias.as_deref(),
        5 => match credit.role {
            Some(role) => Some(role.name()),
            None => None,
        },
        _ => None,
    }
}

/// The date of the field with a name.
pub fn entry_date(entry: Option<(&Entry, Global)>, name: &[u8], date: &mut DateParts) -> u32
    ensures { DateGives (option_map (λ e. view e.0.now) entry.entry) name.now
        result date.old date.new }
{
    let Some((entry, _)) = entry else {
        return codes::NO_ENTRY;
    };
    let Ok(name) = str::from_utf8(name) else {
        return codes::NO_FIELD;
    };
    match field_date(entry, name) {
        Some(found) => {
            *date = DateParts::of(found);
            codes::OK
        }
        None => codes::NO_FIELD,
    }
}

/// The number of the field with a name.
pub fn entry_number(entry: Option<(&Entry, Global)>, name: &[u8], number: &mut i32) -> u32
    ensures { NumberGives (option_map (λ e. view e.0.now) entry.entry) name.now
        result number.old number.new }
{
    let Some((entry, _)) = entry else {
        return codes::NO_ENTRY;
    };
    let Ok(name) = str::from_utf8(name) else {
        return codes::NO_FIELD;
    };
    match field_number(entry, name) {
        Some(Some(found)) => {
            *number = found;
            codes::OK
        }
        Some(None) => codes::NOT_NUMBER,
        None => codes::NO_FIELD,
    }
}

/// How many pages and ranges of pages an entry has.
pub fn entry_page_ranges(entry: Option<(&Entry, Global)>) -> usize
    ensures { result ≡ count_of_ranges (option_map (λ e. view e.0.now) entry.entry) }
{
    match entry {
        Some((entry, _)) => page_ranges_len(entry),
        None => 0,
    }
}

/// The page or the range of pages at a place.
pub fn entry_page_range(entry: Option<(&Entry, Global)>, place: usize, pages: &mut Pages) -> u32
    ensures { PagesGive (option_map (λ e. view e.0.now) entry.entry) place
        result pages.old pages.new }
{
    let Some((entry, _)) = entry else {
        return codes::NO_ENTRY;
    };
    match page_range_at(entry, place) {
        Some(Some((first, last))) => {
            *pages = Pages { first, last };
            codes::OK
        }
        Some(None) => codes::NOT_NUMBER,
        None => codes::NO_FIELD,
    }
}
