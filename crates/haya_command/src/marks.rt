//! Faults of tests and places, shown under their texts with a mark.
use crate::near::place_question;
use haya_questions::{PlaceError, TestError};
use haya_text::OutOfMemory;
use std::alloc::Global;

// The signs of operators.
const SIGNS: [char; 5] = ['!', '=', '~', '<', '>'];

/// What is said of a test's fault.
pub(crate) fn test_text(
    alloc: Global,
    text: &str,
    error: &TestError,
) -> Result<String, OutOfMemory> {
    let (before, behind) = around_operator(text);
    let (blanks, length) = match error {
        TestError::UnknownField(_) => field_in(before),
        TestError::NoOperator => (text.trim_end().chars().count(), 1),
        TestError::NoOrder(_) => word_in(before),
        _ => {
            let (blanks, length) = word_in(behind);
            let front = text.len().saturating_sub(behind.len());
            (
                text.get(..front)
                    .unwrap_or("")
                    .chars()
                    .count()
                    .saturating_add(blanks),
                length,
            )
        }
    };
    let like = match error {
        TestError::UnknownField(word) => place_question(alloc, word.as_str())?,
        _ => String::new(alloc),
    };
    let mark = mark(alloc, blanks, length)?;
    Ok(format!(in alloc; "haya: {text}\n      {mark}{error}{like}\n")?)
}

/// What is said of a fault in a list of places, or of keys of a sort.
pub(crate) fn places_text(
    alloc: Global,
    text: &str,
    error: &PlaceError,
) -> Result<String, OutOfMemory> {
    let PlaceError::UnknownField(word) = error else {
        return Ok(format!(in alloc; "haya: {error}\n")?);
    };
    let (blanks, length) = part_with(text, word.as_str());
    let mark = mark(alloc, blanks, length)?;
    let like = place_question(alloc, word.as_str())?;
    Ok(format!(in alloc; "haya: {text}\n      {mark}{error}{like}\n")?)
}

/// A mark of this length behind so many blanks, and a blank behind it.
pub(crate) fn mark(alloc: Global, blanks: usize, length: usize) -> Result<String, OutOfMemory> {
    let mut text = String::new(alloc);
    for _ in 0..blanks {
        text.push(' ')?;
    }
    for _ in 0..length {
        text.push('^')?;
    }
    text.push(' ')?;
    Ok(text)
}

// What stands before and behind the operator of a test.
fn around_operator(text: &str) -> (&str, &str) {
    match text.find(SIGNS) {
        Some(at) => {
            let (before, rest) = (text.get(..at).unwrap_or(text), text.get(at..).unwrap_or(""));
            (before, rest.trim_start_matches(SIGNS))
        }
        None => (text, ""),
    }
}

// How many characters stand before the first of a text that isn't white space, and how many from
// there to the last.
fn word_in(text: &str) -> (usize, usize) {
    let front = text
        .chars()
        .count()
        .saturating_sub(text.trim_start().chars().count());
    (front, text.trim().chars().count().max(1))
}

// The same of the field of a place.
fn field_in(text: &str) -> (usize, usize) {
    let (front, length) = word_in(text);
    match text.trim().split_once('.') {
        Some((name, field)) => (
            front.saturating_add(name.chars().count()).saturating_add(1),
            field.chars().count().max(1),
        ),
        None => (front, length),
    }
}

// The same of the first part of a list whose field is this word.
fn part_with(text: &str, word: &str) -> (usize, usize) {
    let mut front: usize = 0;
    for part in text.split(',') {
        let place = part.strip_prefix('-').unwrap_or(part);
        let (name, field) = match place.split_once('.') {
            Some((name, field)) => (name.chars().count().saturating_add(1), field),
            None => (0, place),
        };
        let all = part.chars().count();
        if field == word {
            let sign = all.saturating_sub(place.chars().count());
            let blanks = front.saturating_add(sign).saturating_add(name);
            return (blanks, word.chars().count().max(1));
        }
        front = front.saturating_add(all).saturating_add(1);
    }
    (0, 1)
}
