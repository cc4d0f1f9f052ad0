//! Dates are read: a text is taken part after part, from its front.
ghost use Rattle.std.specs.Prelude.{◌≡◌, ◌↔◌, ◌<◌, ◌≤◌, ◌≤ℤ◌, ◌^◌, ◌==◌, IfNone, IfSome, IsTrue};
ghost use Rattle.std.specs.Prelude.{Some, None, pos, negsuc, true};
ghost use Rattle.std.specs.Str.{chars};
ghost use Rattle.haya_time.specs.DateCalendar.{is_month};
ghost use Rattle.haya_time.specs.DateForms.{calendar_year, with_sign, date_with};
ghost use Rattle.haya_time.specs.DateReadBack.{ReadsBack};
ghost use Rattle.haya_time.specs.DateReading.{number_of, number_at, mark_at, sign_at, opening_at};
ghost use Rattle.haya_time.specs.DateReading.{part_at, date_at_end, with_day, with_month};
ghost use Rattle.haya_time.specs.DateReading.{date_read};
ghost use Rattle.haya_time.specs.DateSteps.{number_view, number_with_rest, opening_view};
ghost use Rattle.haya_time.specs.DateSteps.{with_digit, with_digits};
ghost use Rattle.haya_text.specs.Characters.{is_numeric, run, behind_run};

use super::calendar::{has_day, is_month, is_on_calendar};
use super::number::Number;
use super::{Date, DateError};
use crate::text::{behind, is_blank, skip_whitespace};
use haya_text::chars::{is_numeric, split_char};
use std::str::FromStr;

// What a date's text begins with: perhaps a tilde, then a year of two or four
// digits. The rest follows.
#[derive(Clone, Copy)]
pub(super) struct Opening<'a> {
    approximate: bool,
    count: u8,
    year: i16,
    rest: &'a str,
}

impl FromStr for Date {
    type Err = DateError;

    ghost from_str_gives = { λ text result. result ≡ date_read (chars text) };

    /// The date that the text writes, as ISO 8601 does: a year of four digits, with its month or
    /// without, or a full date, whose year may have two digits for 1950 to 2049. White space may
    /// stand round each part, and a tilde before a date that is approximate. `MonthOutOfBounds`
    /// and `DayOutOfBounds` tell of a month or a day that isn't there, whatever follows; any other
    /// text without a date has an `UnknownFormat`.
    fn from_str(text: &str) -> Result<Date, DateError> {
        let Some(opening) = take_opening(text) else {
            return Err(DateError::UnknownFormat);
        };
        read_month(opening)
    }
}

impl Date {
    /// Whether the date is read back from its printed text as itself: its year is -9999 to 9999,
    /// its month and day are the calendar's where they are told, no day is told without its
    /// month, and no season is.
    pub fn reads_back(&self) -> bool
        ensures { IsTrue result ↔ ReadsBack self.now }
    {
        let year = self.year;
        self.season.is_none()
            && -9999 <= year
            && year <= 9999
            && is_on_calendar(year as i16, self.month, self.day)
    }
}

// Reads what follows the year.
fn read_month(opening: Opening) -> Result<Date, DateError>
    requires year_low { negsuc 9998 ≤ℤ opening.year }
    requires year_high { opening.year ≤ℤ pos 9999 }
    ensures { let opening = opening_view opening.entry in
        result ≡ with_month opening (part_at opening.rest) }
{
    let date = Date {
        approximate: opening.approximate,
        ..Date::from_year(i32::from(opening.year))
    };
    let Some((month, rest)) = take_part(opening.rest) else {
        return date_at_end(opening.count == 4, date, opening.rest);
    };
    if !is_month(month) {
        return Err(DateError::MonthOutOfBounds);
    }
    read_day(opening, month, rest)
}

// Reads what follows the month.
fn read_day(opening: Opening, month: u8, text: &str) -> Result<Date, DateError>
    requires year_low { negsuc 9998 ≤ℤ opening.year }
    requires year_high { opening.year ≤ℤ pos 9999 }
    requires month { is_month month ≡ true }
    ensures { let rest = chars text.now in
        result ≡ with_day (opening_view opening.entry) month rest (part_at rest) }
{
    let date = Date {
        approximate: opening.approximate,
        month: Some(month - 1),
        ..Date::from_year(i32::from(opening.year))
    };
    let Some((day, rest)) = take_part(text) else {
        return date_at_end(opening.count == 4, date, text);
    };
    if !has_day(opening.year, month, day) {
        return Err(DateError::DayOutOfBounds(day));
    }
    let date = Date {
        day: Some(day - 1),
        ..date
    };
    date_at_end(true, date, rest)
}

// The date, if it is complete and nothing but white space is left.
fn date_at_end(complete: bool, date: Date, rest: &str) -> Result<Date, DateError>
    ensures { result ≡ date_at_end complete date (chars rest.now) }
{
    if complete && is_blank(rest) {
        Ok(date)
    } else {
        Err(DateError::UnknownFormat)
    }
}

// What a date's text begins with.
fn take_opening(text: &str) -> Option<Opening>
    ensures none { IfNone result (opening_at (chars text.now) ≡ None) }
    ensures some { IfSome result (λ o. opening_at (chars text.now) ≡ Some (opening_view o)) }
    ensures year_low { IfSome result (λ o. negsuc 9998 ≤ℤ o.year) }
    ensures year_high { IfSome result (λ o. o.year ≤ℤ pos 9999) }
{
    let (approximate, text) = take_mark(text);
    let (negative, text) = take_sign(text);
    let (number, rest) = take_number(text)?;
    let year = calendar_year(number, negative)?;
    Some(Opening {
        approximate,
        count: number.count,
        year,
        rest,
    })
}

// The calendar year that a number names.
fn calendar_year(number: Number, negative: bool) -> Option<i16>
    ensures year { result ≡ calendar_year number.count (with_sign negative number.value) }
    ensures low { IfSome result (λ year. negsuc 9998 ≤ℤ year) }
    ensures high { IfSome result (λ year. year ≤ℤ pos 9999) }
{
    let value = number.value as i16;
    let signed = if negative { -value } else { value };
    match number.count {
        4 => Some(signed),
        2 if signed < 50 => Some(signed + 2000),
        2 => Some(signed + 1900),
        _ => None,
    }
}

// Whether the text begins with a tilde, and what follows.
fn take_mark(text: &str) -> (bool, &str)
    ensures marked { result.0 ≡ (mark_at (chars text.now)).0 }
    ensures rest { chars result.1.now ≡ (mark_at (chars text.now)).1 }
{
    match behind(text, '~') {
        Some(rest) => (true, rest),
        None => (false, text),
    }
}

// Whether the text begins with a minus, and what follows the sign, if there is one.
fn take_sign(text: &str) -> (bool, &str)
    ensures negative { result.0 ≡ (sign_at (chars text.now)).0 }
    ensures rest { chars result.1.now ≡ (sign_at (chars text.now)).1 }
{
    if let Some(rest) = behind(text, '-') {
        return (true, rest);
    }
    match behind(text, '+') {
        Some(rest) => (false, rest),
        None => (false, text),
    }
}

// The number of one or two digits behind a hyphen, and what follows.
fn take_part(text: &str) -> Option<(u8, &str)>
    ensures none { IfNone result (part_at (chars text.now) ≡ None) }
    ensures some { IfSome result (λ p. part_at (chars text.now) ≡ Some (p.0, chars p.1.now)) }
    ensures small { IfSome result (λ p. p.0 < 100) }
{
    let (number, rest) = take_number(behind(text, '-')?)?;
    if 1 <= number.count && number.count <= 2 {
        Some((number.value as u8, rest))
    } else {
        None
    }
}

// The number at the front, perhaps behind white space, and what follows its
// run of numeric characters.
fn take_number(text: &str) -> Option<(Number, &str)>
    ensures none { IfNone result (number_at (chars text.now) ≡ None) }
    ensures some { IfSome result
        (λ p. number_at (chars text.now) ≡ Some (number_with_rest p.0 p.1.now)) }
{
    let (number, rest) = take_run(skip_whitespace(text));
    Some((number?, rest))
}

// The number that the run of numeric characters at the front spells, and what follows it.
#[tactic(auto, using(crate::proofs::DateNumbers::spelled))]
fn take_run(text: &str) -> (Option<Number>, &str)
    ensures none { IfNone result.0 (number_of (run is_numeric (chars text.now)) ≡ None) }
    ensures some { IfSome result.0
        (λ n. number_of (run is_numeric (chars text.now)) ≡ Some (n.count, n.value)) }
    ensures rest { chars result.1.now ≡ behind_run is_numeric (chars text.now) }
{
    let mut rest = text;
    let mut number = Some(Number { count: 0, value: 0 });
    'run: while let Some((c, tail)) = split_char(rest) {
        if !is_numeric(c) {
            return (number, rest);
        }
        number = with_digit(number, c);
        rest = tail;
    }
    (number, rest)
}

// The number with one more digit. There is none where the character is no
// digit, or would be the fifth.
fn with_digit(number: Option<Number>, c: char) -> Option<Number>
    ensures { number_view result ≡ with_digit (number_view number) c }
{
    let Number { count, value } = number?;
    let digit = c.to_digit(10)?;
    if count == 4 {
        return None;
    }
    Some(Number {
        count: count + 1,
        value: value * 10 + digit as u16,
    })
}
