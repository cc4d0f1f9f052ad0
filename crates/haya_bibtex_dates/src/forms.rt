//! Dates in extended date format.
ghost use Rattle.std.specs.Prelude.{◌≡◌, ◌≤◌, ◌<◌, IfOk, IfSome, length, option_map};
ghost use Rattle.std.specs.List.{position};
ghost use Rattle.std.specs.Str.{chars};
ghost use Rattle.haya_bibtex_dates.specs.Forms.{behind_month, behind_year, date_before, date_in};
ghost use Rattle.haya_bibtex_dates.specs.Forms.{ends, is_open, is_slash, mark_at, number_behind};
ghost use Rattle.haya_bibtex_dates.specs.Forms.{part_at, part_behind, signed_date, single_date};
ghost use Rattle.haya_bibtex_dates.specs.Forms.{year_at, year_end};

use crate::calendar::{Part, date_by, marked, with_sign};
use crate::clock::is_rest;
use crate::digits::{behind_sign, digit, hundreds, tens, two_digits};
use haya_characters::{chars_of, write_chars};
use haya_time::Date;
use std::alloc::{AllocError, Global};

// The last two digits of a year.
fn year_end(c: char, d: char) -> Option<u8>
    ensures value { result ≡ year_end c d }
    ensures within { IfSome result (λ n. n ≤ 99) }
{
    if d != 'X' {
        two_digits(c as u32, d as u32)
    } else if c == 'X' {
        Some(0)
    } else {
        tens(digit(c as u32), Some(0))
    }
}

// A year of four digits at the front of a text, and what follows.
fn year_at(text: &[char]) -> Option<(u16, &[char])>
    ensures { option_map (λ p. (p.0, p.1.now)) result ≡ year_at text.now }
{
    match text {
        [a, b, c, d, rest @ ..] => match hundreds(
            two_digits(*a as u32, *b as u32),
            year_end(*c, *d),
        ) {
            Some(year) => Some((year, rest)),
            None => None,
        },
        _ => None,
    }
}

// A number whose first digit has this value, and what follows.
fn number_behind(first: Option<u8>, text: &[char]) -> Option<(Part, &[char])>
    requires { IfSome first (λ n. n ≤ 9) }
    ensures { option_map (λ p. (p.0, p.1.now)) result ≡ number_behind first text.now }
{
    let Some(n) = first else {
        return None;
    };
    match text.split_first() {
        Some((c, rest)) => match digit(*c as u32) {
            Some(m) => Some((Part::Number(n * 10 + m), rest)),
            None => Some((Part::Number(n), text)),
        },
        None => Some((Part::Number(n), text)),
    }
}

// A month or a day behind its hyphen, and what follows.
fn part_behind(text: &[char]) -> Option<(Part, &[char])>
    ensures { option_map (λ p. (p.0, p.1.now)) result ≡ part_behind text.now }
{
    match text.split_first() {
        Some(('X', rest)) => match behind_sign('X', rest) {
            Some(rest) => Some((Part::Unknown, rest)),
            None => None,
        },
        Some((c, rest)) => number_behind(digit(*c as u32), rest),
        None => None,
    }
}

// A month or a day, if one follows, and what is behind it.
fn part_at(text: &[char]) -> Option<(Part, &[char])>
    ensures { option_map (λ p. (p.0, p.1.now)) result ≡ part_at text.now }
{
    match behind_sign('-', text) {
        Some(rest) => part_behind(rest),
        None => Some((Part::Missing, text)),
    }
}

// Whether a sign follows that makes a date approximate, and what is behind it.
fn mark_at(text: &[char]) -> (bool, &[char])
    ensures mark { result.0 ≡ (mark_at text.now).0 }
    ensures rest { result.1.now ≡ (mark_at text.now).1 }
{
    match text.split_first() {
        Some(('~' | '%', rest)) => (true, rest),
        Some(('?', rest)) => (false, rest),
        _ => (false, text),
    }
}

// The date behind whose day this text is.
fn date_before(year: i32, month: Part, day: Part, text: &[char]) -> Option<Date>
    ensures { result ≡ date_before year month day (mark_at text.now) }
{
    let (mark, rest) = mark_at(text);
    if !is_rest(rest) {
        return None;
    }
    match date_by(year, month, day) {
        Some(date) => Some(marked(mark, date)),
        None => None,
    }
}

// The date behind whose month this text is.
fn behind_month(year: i32, month: Part, text: &[char]) -> Option<Date>
    ensures { result ≡ behind_month year month (part_at text.now) }
{
    match part_at(text) {
        Some((day, rest)) => date_before(year, month, day, rest),
        None => None,
    }
}

// The date behind whose year this text is.
fn behind_year(year: i32, text: &[char]) -> Option<Date>
    ensures { result ≡ behind_year year (part_at text.now) }
{
    match part_at(text) {
        Some((month, rest)) => behind_month(year, month, rest),
        None => None,
    }
}

// The date behind whose sign this text is.
fn signed_date(negative: bool, text: &[char]) -> Option<Date>
    ensures { result ≡ signed_date negative (year_at text.now) }
{
    match year_at(text) {
        Some((year, rest)) => behind_year(with_sign(negative, year), rest),
        None => None,
    }
}

// One date.
fn single_date(text: &[char]) -> Option<Date>
    ensures { result ≡ single_date text.now }
{
    match behind_sign('-', text) {
        Some(rest) => signed_date(true, rest),
        None => signed_date(false, text),
    }
}

// Whether an end of two tells no date.
fn is_open(text: &[char]) -> bool
    ensures { result ≡ is_open text.now }
{
    match text {
        [] => true,
        [a, b] => *a == '.' && *b == '.',
        [a, b, c, d] => *a == 'o' && *b == 'p' && *c == 'e' && *d == 'n',
        [a, b, c, d, e, f, g] => {
            *a == 'u' && *b == 'n' && *c == 'k' && *d == 'n' && *e == 'o' && *f == 'w' && *g == 'n'
        }
        _ => false,
    }
}

// Where the first slash is.
fn slash_place(text: &[char]) -> Option<usize>
    ensures place { result ≡ position is_slash text.now }
    ensures within { IfSome result (λ n. n < length text.now) }
{
    text.iter().position(|c| *c == '/')
}

// What is before the first slash, and behind it.
fn ends(text: &[char]) -> Option<(&[char], &[char])>
    ensures { option_map (λ p. (p.0.now, p.1.now)) result ≡ ends text.now }
{
    match slash_place(text) {
        Some(place) => Some((&text[..place], &text[place + 1..])),
        None => None,
    }
}

/// The date of a text.
pub(crate) fn date_in(text: &[char]) -> Option<Date>
    ensures { result ≡ date_in text.now }
{
    let Some((start, end)) = ends(text) else {
        return single_date(text);
    };
    if is_open(start) {
        single_date(end)
    } else if is_open(end) || single_date(end).is_some() {
        single_date(start)
    } else {
        None
    }
}

// How many characters of a text are read without a list of them in memory.
const ROOM: usize = 32;

/// The date of a text in extended date format, or of the first of two with `/` between them that
/// tells one. There is none where the text isn't so, or the calendar doesn't have the day.
///
/// | Text | Its date |
/// |---|---|
/// | `2009-07-04`, `2009-7-4` | that day |
/// | `2009-07-04/2010`, `../2009-07-04` | the first that is told |
/// | `1723~`, `1723%` | the year, approximate |
/// | `19XX`, `195X`, `1999-XX-XX`, `1999-05-XX` | 1900, 1950, 1999, May 1999 |
/// | `2001-21` | the spring of 2001 |
/// | `-0044`, `2001-05-06T12:00:00Z` | the year -44, that day |
pub fn read_date(alloc: Global, text: &str) -> Result<Option<Date>, AllocError>
    ensures { IfOk result (λ date. date ≡ date_in (chars text.now)) }
{
    let mut room = ['\0'; ROOM];
    if let Some(count) = write_chars(&mut room, text) {
        return Ok(date_in(&room[..count]));
    }
    let chars = chars_of(alloc, text)?;
    Ok(date_in(chars.as_slice()))
}
