//! The persons of a list of names.
ghost use Rattle.std.specs.Prelude.{◌≡◌, ◌++◌, IfOk, OnOk, flat_map, map, option_map};
ghost use Rattle.std.specs.Prelude.{string_bytes};
ghost use Rattle.std.specs.List.{slice_split};
ghost use Rattle.std.specs.Str.{chars};
ghost use Rattle.haya_bibtex_names.specs.Lists.{is_only_others, odd_words, odd_words_in, person_of};
ghost use Rattle.haya_bibtex_names.specs.Lists.{persons, persons_in, with_blanks};
ghost use Rattle.haya_bibtex_names.specs.NameViews.{name_view};
ghost use Rattle.haya_bibtex_names.specs.Words.{is_and, texts, words};
ghost use Rattle.haya_latex.specs.Texts.{name_unknown};
ghost use Rattle.haya_people.specs.Person.{person_view};
ghost use Rattle.haya_people.specs.Reading.{text_if_any};

use crate::extended::{extended_texts, is_extended, parts, push_odd};
use crate::parts::{room_for, without_gap};
use crate::plain::{NameTexts, plain_texts};
use crate::words::{is_and, is_others, next_word};
use haya_latex::{Kind, Names, read_names};
use haya_people::Person;
use std::alloc::{AllocError, Global};

/// What a list of names says.
#[derive(Drop)]
pub struct Persons {
    /// The persons, in order.
    pub persons: Vec<Person>,
    /// The words in front of a sign `=` that say no part of a name, in order.
    pub odd_words: Vec<String>,
    /// The commands of LaTeX that aren't known, in order, without their backslashes.
    pub unknown: Vec<String>,
}

/// What a list of names in LaTeX says, with the word `and` between two of them.
///
/// A name has the parts that its commas separate, or otherwise its words: a word in lower case
/// begins the family part, whose prefix ends with the last such word. What braces protect separates
/// nothing. `others` is no person, nor is a name without a word.
///
/// | Name | Its parts |
/// |---|---|
/// | `Ludwig van Beethoven`, `van Beethoven, Ludwig` | `van`, `Beethoven`; given `Ludwig` |
/// | `Ford, Jr., Henry` | `Ford`; given `Henry`, suffix `Jr.` |
/// | `{Barnes and Noble}` | `Barnes and Noble` |
/// | `Smith, J., Jones, K.` | `Smith`; given `Jones, K.`, suffix `J.` |
/// | `family=Gogh, prefix=van` | `van`, `Gogh` |
/// | `given=Cher` | `Cher` |
pub fn read_persons(alloc: Global, text: &str) -> Result<Persons, AllocError>
    ensures persons { IfOk result (λ p. map person_view p.persons.items
        ≡ persons (chars text.now)) }
    ensures odd { IfOk result (λ p. map string_bytes p.odd_words.items
        ≡ odd_words (chars text.now)) }
    ensures unknown { IfOk result (λ p. map string_bytes p.unknown.items
        ≡ name_unknown (chars text.now)) }
{
    let Names { chars, unknown } = read_names(alloc, text)?;
    let mut persons = Vec::new(alloc);
    let mut odd_words = Vec::new(alloc);
    push_names(alloc, chars.as_slice(), &mut persons, &mut odd_words)?;
    Ok(Persons {
        persons,
        odd_words,
        unknown,
    })
}

// Puts what the names of a text say behind what others say.
fn push_names(
    alloc: Global,
    text: &[(char, Kind)],
    persons: &mut Vec<Person>,
    odd_words: &mut Vec<String>,
) -> Result<(), AllocError>
    ensures persons { OnOk result (map person_view persons.new.items
        ≡ map person_view persons.old.items
        ++ flat_map persons_in (slice_split is_and (words text.now))) }
    ensures odd { OnOk result (map string_bytes odd_words.new.items
        ≡ map string_bytes odd_words.old.items
        ++ flat_map odd_words_in (slice_split is_and (words text.now))) }
{
    let mut name = Vec::new(alloc);
    let mut room = Vec::new(alloc);
    let mut left = text;
    'words: while let Some((word, behind)) = next_word(left) {
        if is_and(word) {
            push_name(alloc, name.as_slice(), &mut room, persons, odd_words)?;
            name.clear();
        } else {
            name.push(word)?;
        }
        left = behind;
    }
    push_name(alloc, name.as_slice(), &mut room, persons, odd_words)?;
    Ok(())
}

// Puts what a name of these words says behind what others say; its text is written to `room`.
fn push_name(
    alloc: Global,
    words: &[&[(char, Kind)]],
    room: &mut Vec<(char, Kind)>,
    persons: &mut Vec<Person>,
    odd_words: &mut Vec<String>,
) -> Result<(), AllocError>
    ensures persons { OnOk result (map person_view persons.new.items
        ≡ map person_view persons.old.items ++ persons_in (texts words.now)) }
    ensures odd { OnOk result (map string_bytes odd_words.new.items
        ≡ map string_bytes odd_words.old.items ++ odd_words_in (texts words.now)) }
{
    if is_only_others(words) {
        return Ok(());
    }
    with_blanks(room, words)?;
    let text = without_gap(room.as_slice());
    let name = if is_extended(alloc, text)? {
        let parts = parts(alloc, text)?;
        push_odd(alloc, parts.as_slice(), odd_words)?;
        extended_texts(alloc, parts.as_slice())?
    } else {
        plain_texts(alloc, text)?
    };
    if let Some(person) = person_of(name) {
        persons.push(person)?;
    }
    Ok(())
}

// Whether `others` is the only word.
fn is_only_others(words: &[&[(char, Kind)]]) -> bool
    ensures { result ≡ is_only_others (texts words.now) }
{
    match words {
        [word] => is_others(word),
        _ => false,
    }
}

// Writes words as a text, with a blank in front of each.
fn with_blanks(text: &mut Vec<(char, Kind)>, words: &[&[(char, Kind)]]) -> Result<(), AllocError>
    ensures { OnOk result (text.new.items ≡ with_blanks (texts words.now)) }
{
    text.clear();
    text.reserve(room_for(words))?;
    'words: for word in words {
        text.push((' ', Kind::Free))?;
        text.extend_from_slice(word)?;
    }
    Ok(())
}

// A text, if it isn't empty.
fn text_if_any(text: String) -> Option<String>
    ensures { option_map string_bytes result ≡ text_if_any (string_bytes text) }
{
    if text.is_empty() { None } else { Some(text) }
}

// The person of the texts of a name's parts.
fn person_of(texts: NameTexts) -> Option<Person>
    ensures { option_map person_view result ≡ person_of (name_view texts) }
{
    let NameTexts {
        family,
        prefix,
        given,
        suffix,
    } = texts;
    let (name, given, suffix) = if !family.is_empty() {
        (family, text_if_any(given), text_if_any(suffix))
    } else if !given.is_empty() {
        (given, None, text_if_any(suffix))
    } else if !suffix.is_empty() {
        (suffix, None, None)
    } else {
        return None;
    };
    Some(Person {
        name,
        given_name: given,
        prefix: text_if_any(prefix),
        suffix,
        comma_suffix: false,
        alias: None,
    })
}
