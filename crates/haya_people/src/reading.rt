//! Persons that are read from texts.
ghost use Rattle.std.specs.Prelude.{◌≡◌, ◌==◌, ◌++◌, [], ℕ, List, false, Err, IfOk, MatchOption};
ghost use Rattle.std.specs.Prelude.{MatchResult, Ok, Option, Some, map, option_map, string_bytes};
ghost use Rattle.std.specs.List.{slice_split};
ghost use Rattle.std.specs.Str.{chars, trim};
ghost use Rattle.haya_people.specs.Person.{PersonView, person_view, is_memory};
ghost use Rattle.haya_people.specs.Signs.{comma};
ghost use Rattle.haya_people.specs.Words.{first_passes};
ghost use Rattle.unicode.specs.Binary.{is_lowercase};
ghost use Rattle.haya_people.specs.Reading.{name_of, prefix_of, person_of, person_read};
ghost use Rattle.haya_people.specs.Reading.{person_with, text_if_any, texts, trimmed, IsEnd};
ghost use Rattle.haya_people.specs.Reading.{IsFirstWord};

use crate::{Person, PersonError};
use haya_text::{OutOfMemory, ReadText};
use std::alloc::Global;

impl Person {
    /// A person of one to three parts, each without the white space around it: the family part is
    /// the first, the given name the last, and the suffix stands between. The prefix of the family
    /// part ends with the last word that begins with a character of the Unicode property Lowercase;
    /// where each word does, the last word is the name. No part is `Empty`, more than three are
    /// `TooManyParts`.
    pub fn from_strings(alloc: Global, parts: Vec<&str>) -> Result<Person, PersonError>
        ensures { MatchResult result
            (λ person. person_of (texts parts.entry.items) ≡ Ok (person_view person))
            (λ e. is_memory e ≡ false → person_of (texts parts.entry.items) ≡ Err e) }
    {
        match parts.as_slice() {
            [] => Err(PersonError::Empty),
            [family] => Ok(person_with(alloc, family, None, None)?),
            [family, given_name] => Ok(person_with(alloc, family, Some(given_name), None)?),
            [family, suffix, given_name] => {
                Ok(person_with(alloc, family, Some(given_name), Some(suffix))?)
            }
            _ => Err(PersonError::TooManyParts),
        }
    }
}

impl ReadText for Person {
    type Fault = PersonError;

    ghost use Rattle.std.specs.Prelude.{◌≡◌, ◌==◌, false, Ok, Err, MatchResult};
    ghost use Rattle.std.specs.Result.{result_ok};
    ghost use Rattle.haya_people.specs.Person.{PersonView, person_view, is_memory};
    ghost use Rattle.haya_people.specs.Reading.{person_read};

    ghost Value = { PersonView };

    ghost value = { person_view };

    ghost reads = { λ text. result_ok (person_read text) };

    /// The person of the text's parts, separated by commas, as `from_strings` makes it.
    fn from_str(alloc: Global, text: &str) -> Result<Person, PersonError>
        ensures { MatchResult result
            (λ person. person_read text.now ≡ Ok (person_view person))
            (λ e. is_memory e ≡ false → person_read text.now ≡ Err e) }
    {
        Person::from_strings(alloc, cut_at_commas(alloc, text)?)
    }
}

// The parts of a text between its commas.
fn cut_at_commas(alloc: Global, text: &str) -> Result<Vec<&str>, OutOfMemory>
    ensures { IfOk result (λ parts. texts parts.items ≡ slice_split (λ b. b == comma) text.now) }
{
    Ok(text.split(',').collect(alloc)?)
}

// The person of a family part, a given name and a suffix.
fn person_with(
    alloc: Global,
    family: &str,
    given_name: Option<&str>,
    suffix: Option<&str>,
) -> Result<Person, OutOfMemory>
    ensures { IfOk result (λ person. person_view person ≡ person_with (trim family.now)
        (trimmed given_name.entry) (trimmed suffix.entry)) }
{
    let (prefix, name) = split_family(family.trim());
    Ok(Person {
        name: String::from_str(alloc, name)?,
        given_name: trimmed(alloc, given_name)?,
        prefix: text_if_any(alloc, prefix)?,
        suffix: trimmed(alloc, suffix)?,
        comma_suffix: false,
        alias: None,
    })
}

// A copy of the text, if it isn't empty.
fn text_if_any(alloc: Global, text: &str) -> Result<Option<String>, OutOfMemory>
    ensures { IfOk result (λ t. option_map string_bytes t ≡ text_if_any text.now) }
{
    if text.is_empty() {
        return Ok(None);
    }
    Ok(Some(String::from_str(alloc, text)?))
}

// The text without the white space around it, if there is one.
fn trimmed(alloc: Global, text: Option<&str>) -> Result<Option<String>, OutOfMemory>
    ensures { IfOk result (λ t. option_map string_bytes t ≡ trimmed text.entry) }
{
    match text {
        Some(text) => Ok(Some(String::from_str(alloc, text.trim())?)),
        None => Ok(None),
    }
}

// The prefix and the name in a family part.
fn split_family(family: &str) -> (&str, &str)
    ensures prefix { result.0.now ≡ prefix_of family.now }
    ensures name { result.1.now ≡ name_of family.now }
{
    let name = name_of(family);
    let (front, _) = family.split_at(family.len() - name.len());
    (front.trim_end(), name)
}

// The name in a family part: its last word if each is lower, otherwise what follows the last lower
// one.
fn name_of(family: &str) -> &str
    ensures name { result.now ≡ name_of family.now }
    ensures end { IsEnd family.now result.now }
{
    let mut left = family;
    let mut last_word = family;
    let mut behind_lower = family;
    let mut is_all_lower = true;
    'words: while let Some((word, behind)) = split_word(left) {
        last_word = left;
        left = behind;
        if is_lower(word) {
            behind_lower = left;
        } else {
            is_all_lower = false;
        }
    }
    if is_all_lower {
        last_word
    } else {
        behind_lower
    }
}

// The first word of a text, and the text from the next word on.
fn split_word(text: &str) -> Option<(&str, &str)>
    ensures { MatchOption result (text.now ≡ []) (λ p. IsFirstWord text.now p.0.now p.1.now) }
{
    match text.find(char::is_whitespace) {
        Some(end) => {
            let (word, behind) = text.split_at(end);
            Some((word, behind.trim_start()))
        }
        None if text.is_empty() => None,
        None => Some((text, "")),
    }
}

// Whether a word begins with a lower character.
fn is_lower(word: &str) -> bool
    ensures { result ≡ first_passes is_lowercase (chars word.now) }
{
    word.chars().next().is_some_and(|c| is_lowercase(c))
}

// Whether a character has the property Lowercase of Unicode.
fn is_lowercase(c: char) -> bool
    ensures { result ≡ is_lowercase c }
{
    c.is_lowercase()
}
