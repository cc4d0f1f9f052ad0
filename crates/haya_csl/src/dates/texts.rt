//! Dates in texts: the model's own form, ISO 8601 and EDTF, and English.
ghost use Rattle.std.specs.Prelude.{◌≡◌, ◌<◌, IfOk, option_map, string_bytes};
ghost use Rattle.std.specs.Str.{all_ascii_digits};
ghost use Rattle.haya_csl.specs.DateTexts.{bare_word, before_end, before_mark, by_numbers};
ghost use Rattle.haya_csl.specs.DateTexts.{by_three, by_words, date_in, date_of, day_behind, is_marked};
ghost use Rattle.haya_csl.specs.DateTexts.{marked, month_names, named_in, numeral, of_numbers};
ghost use Rattle.haya_csl.specs.DateTexts.{of_words, plain, range_start, season_names, short_in};
ghost use Rattle.haya_csl.specs.DateTexts.{short_names, split_off, split_word, unmarked, year_in};
ghost use Rattle.haya_csl.specs.Markup.{cut};

use crate::dates::calendar::{Part, date_at, edtf_season, part_by, unless_zero};
use haya_json::reading::whole_read;
use haya_text::OutOfMemory;
use haya_time::Date;
use std::alloc::Global;

/// A text without the white space around it, in lower case.
#[tactic(auto, unfolding(crate::specs::DateTexts::plain))]
pub(crate) fn plain(alloc: Global, text: &str) -> Result<String, OutOfMemory>
    ensures { IfOk result (λ s. string_bytes s ≡ plain text.now) }
{
    match text.trim().to_ascii_lowercase(alloc) {
        Ok(plain) => Ok(plain),
        Err(_) => Err(OutOfMemory),
    }
}

/// The date of a plain text: as the model reads it, or otherwise by numbers or words.
#[tactic(auto, unfolding(crate::specs::DateTexts::date_in))]
pub(crate) fn date_in(text: &str) -> Option<Date>
    ensures { result ≡ date_in text.now }
{
    if let Ok(date) = text.parse::<Date>() {
        return Some(date);
    }
    if let Some(date) = by_numbers(text, '-') {
        return Some(date);
    }
    if let Some(date) = by_numbers(text, '/') {
        return Some(date);
    }
    by_words(text)
}

/// The text of the date that begins a range, which one slash separates from its end.
#[tactic(auto, unfolding(crate::specs::DateTexts::range_start))]
pub(crate) fn range_start(text: &str) -> Option<&str>
    ensures { option_map (λ s. s.now) result ≡ range_start text.now }
{
    let (start, end) = cut(text, '/')?;
    if start.is_empty() || cut(end, '/').is_some() {
        None
    } else {
        Some(start)
    }
}

// A year, a month and a day, separated by this sign.
#[tactic(auto, unfolding(crate::specs::DateTexts::by_numbers))]
fn by_numbers(text: &str, sign: char) -> Option<Date>
    requires { sign < 128 }
    ensures { result ≡ by_numbers sign text.now }
{
    let (year, rest) = split_off(text, sign);
    let (month, day) = split_off(rest, sign);
    of_numbers(year, month, day)
}

// The date of these parts, which is approximate where one of them is marked.
fn of_numbers(year: &str, month: &str, day: &str) -> Option<Date>
    ensures { result ≡ of_numbers year.now month.now day.now }
{
    let mark = is_marked(year) || is_marked(month) || is_marked(day);
    let month = short_in(unmarked(month));
    let day = day_behind(month, short_in(unmarked(day)));
    let date = date_of(year_in(unmarked(year)), month, day)?;
    Some(marked(date, mark))
}

// A day, which is as if it were missing behind a month that is.
fn day_behind(month: Part, day: Part) -> Part
    ensures { result ≡ day_behind month day }
{
    match (month, day) {
        (Part::Missing, Part::Number(_)) => Part::Missing,
        _ => day,
    }
}

/// The date, which is approximate where it is marked as such.
pub(crate) fn marked(date: Date, mark: bool) -> Date
    ensures { result ≡ marked mark date }
{
    Date {
        approximate: date.approximate || mark,
        ..date
    }
}

// A month and a year, and perhaps a day.
#[tactic(auto, unfolding(crate::specs::DateTexts::by_words))]
fn by_words(text: &str) -> Option<Date>
    ensures { result ≡ by_words text.now }
{
    let (first, rest) = split_word(text);
    let (second, rest) = split_word(rest);
    let (third, rest) = split_word(rest);
    if rest.is_empty() {
        by_three(first, second, third)
    } else {
        None
    }
}

// A month and a year, with the day before the month or behind it.
fn by_three(first: &str, second: &str, third: &str) -> Option<Date>
    ensures { result ≡ by_three first.now second.now third.now }
{
    if third.is_empty() {
        return of_words("", first, second);
    }
    if let Some(date) = of_words(first, second, third) {
        return Some(date);
    }
    of_words(second, first, third)
}

// The date of a day, the name of a month or a season, and a year.
fn of_words(day: &str, month: &str, year: &str) -> Option<Date>
    ensures { result ≡ of_words day.now month.now year.now }
{
    date_of(year_in(year), named_month(month), short_in(day))
}

// The date of a year, a month or a season, and a day.
fn date_of(year: Part, month: Part, day: Part) -> Option<Date>
    ensures { result ≡ date_of year month day }
{
    match year {
        Part::Number(year) => date_at(year, month, day, edtf_season(month)),
        _ => None,
    }
}

// A year, of four digits.
fn year_in(text: &str) -> Part
    ensures { result ≡ year_in text.now }
{
    if text.len() == 4 {
        numeral(text)
    } else {
        Part::Unread
    }
}

// A month or a day, of one or two digits.
fn short_in(text: &str) -> Part
    ensures { result ≡ short_in text.now }
{
    if text.is_empty() {
        return Part::Missing;
    }
    if text.len() <= 2 {
        unless_zero(numeral(text))
    } else {
        Part::Unread
    }
}

// The number of digits.
fn numeral(text: &str) -> Part
    ensures { result ≡ numeral text.now }
{
    if is_digits(text) {
        part_by(whole_read(text))
    } else {
        Part::Unread
    }
}

// Whether a text has digits alone.
fn is_digits(text: &str) -> bool
    ensures { result ≡ all_ascii_digits text.now }
{
    'digits: for byte in text.as_bytes() {
        if !byte.is_ascii_digit() {
            return false;
        }
    }
    true
}

// The number of the month or the season with this name.
fn named_month(name: &str) -> Part
    ensures { result ≡ named_in month_names name.now }
{
    match name {
        "january" => Part::Number(1),
        "february" => Part::Number(2),
        "march" => Part::Number(3),
        "april" => Part::Number(4),
        "may" => Part::Number(5),
        "june" => Part::Number(6),
        "july" => Part::Number(7),
        "august" => Part::Number(8),
        "september" => Part::Number(9),
        "october" => Part::Number(10),
        "november" => Part::Number(11),
        "december" => Part::Number(12),
        _ => short_month(name),
    }
}

// The same of a short name, and of a season.
fn short_month(name: &str) -> Part
    ensures { result ≡ named_in short_names name.now }
{
    match name {
        "jan" => Part::Number(1),
        "feb" => Part::Number(2),
        "mar" => Part::Number(3),
        "apr" => Part::Number(4),
        "jun" => Part::Number(6),
        "jul" => Part::Number(7),
        "aug" => Part::Number(8),
        "sep" => Part::Number(9),
        "oct" => Part::Number(10),
        "nov" => Part::Number(11),
        "dec" => Part::Number(12),
        _ => named_season(name),
    }
}

/// The number of the season with this name, as EDTF numbers them.
pub(crate) fn named_season(name: &str) -> Part
    ensures { result ≡ named_in season_names name.now }
{
    match name {
        "spring" => Part::Number(21),
        "summer" => Part::Number(22),
        "autumn" | "fall" => Part::Number(23),
        "winter" => Part::Number(24),
        _ => Part::Unread,
    }
}

// The first word, and what follows it.
#[tactic(auto, unfolding(crate::specs::DateTexts::split_word))]
fn split_word(text: &str) -> (&str, &str)
    ensures { (result.0.now, result.1.now) ≡ split_word text.now }
{
    let (word, rest) = split_off(text, ' ');
    (bare_word(word), rest.trim_start())
}

// A word without the dot or the comma behind it.
fn bare_word(word: &str) -> &str
    ensures { result.now ≡ bare_word word.now }
{
    if let Some(bare) = before_end(word, '.') {
        return bare;
    }
    match before_end(word, ',') {
        Some(bare) => bare,
        None => word,
    }
}

// Whether a part is marked as uncertain or approximate.
fn is_marked(part: &str) -> bool
    ensures { result ≡ is_marked part.now }
{
    before_mark(part).is_some()
}

// A part without its mark.
fn unmarked(part: &str) -> &str
    ensures { result.now ≡ unmarked part.now }
{
    match before_mark(part) {
        Some(front) => front,
        None => part,
    }
}

// The text before a mark of EDTF for a date that is uncertain or approximate.
fn before_mark(text: &str) -> Option<&str>
    ensures { option_map (λ s. s.now) result ≡ before_mark text.now }
{
    if let Some(front) = before_end(text, '~') {
        return Some(front);
    }
    if let Some(front) = before_end(text, '?') {
        return Some(front);
    }
    before_end(text, '%')
}

// The text before this sign, where the sign ends it.
fn before_end(text: &str, sign: char) -> Option<&str>
    requires { sign < 128 }
    ensures { option_map (λ s. s.now) result ≡ before_end sign text.now }
{
    let (front, behind) = cut(text, sign)?;
    if behind.is_empty() { Some(front) } else { None }
}

// What appears before the first of these signs, and behind it. Without one that is the whole text,
// and nothing.
fn split_off(text: &str, sign: char) -> (&str, &str)
    requires { sign < 128 }
    ensures { (result.0.now, result.1.now) ≡ split_off sign text.now }
{
    match cut(text, sign) {
        Some(parts) => parts,
        None => (text, ""),
    }
}

// What appears before the first of these signs, and behind it.
fn cut(text: &str, sign: char) -> Option<(&str, &str)>
    requires { sign < 128 }
    ensures { option_map (λ p. (p.0.now, p.1.now)) result ≡ cut sign text.now }
{
    text.split_once(sign)
}
