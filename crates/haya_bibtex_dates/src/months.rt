//! Months in texts.
ghost use Rattle.std.specs.Prelude.{◌≡◌, ◌≤◌, IfOk, length, map, encode_utf8_all, string_bytes};
ghost use Rattle.std.specs.List.{position_or_len, slice_split};
ghost use Rattle.std.specs.Map.{lookup};
ghost use Rattle.std.specs.Str.{bytes_eq};
ghost use Rattle.haya_bibtex_dates.specs.Digits.{short_number};
ghost use Rattle.haya_bibtex_dates.specs.Months.{bare_chars, bare_word, bare_words, is_blank};
ghost use Rattle.haya_bibtex_dates.specs.Months.{is_dash, is_kept, month_in, month_numbered};
ghost use Rattle.haya_bibtex_dates.specs.Months.{month_of, months, named_in, seasons, short_months};
ghost use Rattle.haya_bibtex_dates.specs.Years.{first_told};

use crate::digits::short_number;
use haya_time::Season;
use std::alloc::{AllocError, Global};

/// What the text of a month tells.
#[derive(Clone, Copy)]
pub(crate) enum MonthText {
    /// Neither a month nor a season.
    Unread,
    /// A season.
    InSeason(Season),
    /// A month, counted from 0 on, and perhaps the number of its day.
    InMonth(u8, Option<u8>),
}

// Whether a character is a blank, or one that doesn't break.
fn is_blank(c: char) -> bool
    ensures { result ≡ is_blank c }
{
    c == ' ' || c == '\u{a0}'
}

// Whether a character is a hyphen, a dash or a slash.
fn is_dash(c: char) -> bool
    ensures { result ≡ is_dash c }
{
    c == '-' || c == '–' || c == '—' || c == '/'
}

// Whether a character stays in a word.
fn is_kept(c: char) -> bool
    ensures { result ≡ is_kept c }
{
    !(c == '.' || c == ',')
}

// A word up to its first dash, without dots and commas, in lower case.
fn bare_word(alloc: Global, word: &[char]) -> Result<String, AllocError>
    ensures { IfOk result (λ s. string_bytes s ≡ bare_word word.now) }
{
    let (front, _) = word.split_at(dash_place(word));
    bare_text(alloc, front)
}

// Characters without dots and commas, in lower case.
fn bare_text(alloc: Global, chars: &[char]) -> Result<String, AllocError>
    ensures { IfOk result (λ s. string_bytes s ≡ encode_utf8_all (bare_chars chars.now)) }
{
    let mut text = String::with_capacity(alloc, chars.len())?;
    'chars: for c in chars {
        if is_kept(*c) {
            text.push(c.to_ascii_lowercase())?;
        }
    }
    Ok(text)
}

// How many characters are in front of the first dash, or of the end.
fn dash_place(word: &[char]) -> usize
    ensures length { result ≡ position_or_len is_dash word.now }
    ensures within { result ≤ length word.now }
{
    let mut count = 0;
    'chars: for c in word {
        if is_dash(*c) {
            return count;
        }
        count += 1;
    }
    count
}

// The parts of a text that blanks separate.
fn split_words(alloc: Global, text: &[char]) -> Result<Vec<&[char]>, AllocError>
    ensures { IfOk result (λ v. map (λ p. p.now) v.items ≡ slice_split is_blank text.now) }
{
    text.split(|c| is_blank(*c)).collect(alloc)
}

// The bare words of a text.
fn bare_words(alloc: Global, text: &[char]) -> Result<Vec<String>, AllocError>
    ensures { IfOk result (λ v. map string_bytes v.items ≡ bare_words text.now) }
{
    let mut words = Vec::new(alloc);
    let pieces = split_words(alloc, text)?;
    'pieces: for piece in &pieces {
        let word = bare_word(alloc, piece)?;
        if !word.is_empty() {
            words.push(word)?;
        }
    }
    Ok(words)
}

// The month of this short name, counted from 0 on.
fn short_month(name: &str) -> Option<u8>
    ensures { result ≡ lookup (bytes_eq name.now) short_months }
{
    match name {
        "jan" => Some(0),
        "feb" => Some(1),
        "mar" => Some(2),
        "apr" => Some(3),
        "jun" => Some(5),
        "jul" => Some(6),
        "aug" => Some(7),
        "sep" | "sept" => Some(8),
        "oct" => Some(9),
        "nov" => Some(10),
        "dec" => Some(11),
        _ => None,
    }
}

// The month of this name, counted from 0 on.
fn month_named(name: &str) -> Option<u8>
    ensures { result ≡ lookup (bytes_eq name.now) months }
{
    match name {
        "january" => Some(0),
        "february" => Some(1),
        "march" => Some(2),
        "april" => Some(3),
        "may" => Some(4),
        "june" => Some(5),
        "july" => Some(6),
        "august" => Some(7),
        "september" => Some(8),
        "october" => Some(9),
        "november" => Some(10),
        "december" => Some(11),
        _ => short_month(name),
    }
}

// The season of this name.
fn season_named(name: &str) -> Option<Season>
    ensures { result ≡ lookup (bytes_eq name.now) seasons }
{
    match name {
        "spring" => Some(Season::Spring),
        "summer" => Some(Season::Summer),
        "autumn" | "fall" => Some(Season::Autumn),
        "winter" => Some(Season::Winter),
        _ => None,
    }
}

// The first month of these words.
fn first_month(words: &[String]) -> Option<u8>
    ensures { result ≡ first_told (named_in months) (map string_bytes words.now) }
{
    'words: for word in words {
        let month = month_named(word.as_str());
        if month.is_some() {
            return month;
        }
    }
    None
}

// The first season of these words.
fn first_season(words: &[String]) -> Option<Season>
    ensures { result ≡ first_told (named_in seasons) (map string_bytes words.now) }
{
    'words: for word in words {
        let season = season_named(word.as_str());
        if season.is_some() {
            return season;
        }
    }
    None
}

// The first number of one or two digits of these words.
fn first_number(words: &[String]) -> Option<u8>
    ensures { result ≡ first_told short_number (map string_bytes words.now) }
{
    'words: for word in words {
        let number = short_number(word.as_bytes());
        if number.is_some() {
            return number;
        }
    }
    None
}

// What a number alone tells.
fn month_numbered(number: Option<u8>) -> MonthText
    ensures { result ≡ month_numbered number }
{
    match number {
        Some(number) if 1 <= number && number <= 12 => MonthText::InMonth(number - 1, None),
        _ => MonthText::Unread,
    }
}

// What words tell.
fn month_of(words: &[String]) -> MonthText
    ensures { result ≡ month_of (map string_bytes words.now) }
{
    let number = first_number(words);
    if let Some(month) = first_month(words) {
        return MonthText::InMonth(month, number);
    }
    if let Some(season) = first_season(words) {
        return MonthText::InSeason(season);
    }
    if words.len() == 1 {
        month_numbered(number)
    } else {
        MonthText::Unread
    }
}

/// What the text of a month tells.
pub(crate) fn month_in(alloc: Global, text: &[char]) -> Result<MonthText, AllocError>
    ensures { IfOk result (λ month. month ≡ month_in text.now) }
{
    let words = bare_words(alloc, text)?;
    Ok(month_of(words.as_slice()))
}
