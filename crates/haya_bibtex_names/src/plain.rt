//! The parts of a name by its words and commas.
ghost use Rattle.std.specs.Prelude.{◌≡◌, ◌≤◌, IfOk, drop, length, string_bytes, take};
ghost use Rattle.haya_bibtex_names.specs.NameViews.{name_view};
ghost use Rattle.std.specs.List.{position_or_len};
ghost use Rattle.haya_bibtex_names.specs.Parts.{sides, words_text};
ghost use Rattle.haya_bibtex_names.specs.Plain.{by_second, by_words, front, given_count, low_end};
ghost use Rattle.haya_bibtex_names.specs.Plain.{plain_texts, prefix_count};
ghost use Rattle.haya_bibtex_names.specs.Words.{is_low, texts, words};

use crate::parts::{sides, spaced_text, words_text};
use crate::words::{is_low, is_single, words_of};
use haya_latex::Kind;
use std::alloc::{AllocError, Global};

/// The texts of a name's parts. One that is missing is empty.
#[derive(Drop)]
pub(crate) struct NameTexts {
    pub(crate) family: String,
    pub(crate) prefix: String,
    pub(crate) given: String,
    pub(crate) suffix: String,
}

// All words but the last.
fn front<'a, 'b>(words: &'a [&'b [(char, Kind)]]) -> &'a [&'b [(char, Kind)]]
    ensures words { texts result.now ≡ front (texts words.now) }
    ensures within { length result.now ≤ length words.now }
{
    &words[..words.len().saturating_sub(1)]
}

// How many words at the front aren't low.
fn high_length(words: &[&[(char, Kind)]]) -> usize
    ensures length { result ≡ position_or_len is_low (texts words.now) }
    ensures within { result ≤ length words.now }
{
    let mut count = 0;
    'words: for word in words {
        if is_low(word) {
            return count;
        }
        count += 1;
    }
    count
}

// How many words there are up to the last low one.
fn low_end(words: &[&[(char, Kind)]]) -> usize
    ensures end { result ≡ low_end (texts words.now) }
    ensures within { result ≤ length words.now }
{
    let mut end = 0;
    let mut count = 0;
    'words: for word in words {
        count += 1;
        if is_low(word) {
            end = count;
        }
    }
    end
}

// How many words of a name without commas are the given name.
fn given_count(words: &[&[(char, Kind)]]) -> usize
    ensures count { result ≡ given_count (texts words.now) }
    ensures within { result ≤ length words.now }
{
    high_length(front(words))
}

// How many words of a family part are its prefix.
fn prefix_count(words: &[&[(char, Kind)]]) -> usize
    ensures count { result ≡ prefix_count (texts words.now) }
    ensures within { result ≤ length words.now }
{
    low_end(front(words))
}

// The name and the prefix of a family part of these words.
fn family_of(alloc: Global, words: &[&[(char, Kind)]]) -> Result<(String, String), AllocError>
    ensures name { IfOk result (λ p. string_bytes p.0
        ≡ words_text (drop (prefix_count (texts words.now)) (texts words.now))) }
    ensures prefix { IfOk result (λ p. string_bytes p.1
        ≡ words_text (take (prefix_count (texts words.now)) (texts words.now))) }
{
    let (prefix, name) = words.split_at(prefix_count(words));
    Ok((words_text(alloc, name)?, words_text(alloc, prefix)?))
}

// The name and the prefix of a family part.
fn family_in(alloc: Global, text: &[(char, Kind)]) -> Result<(String, String), AllocError>
    ensures name { IfOk result (λ p. string_bytes p.0
        ≡ words_text (drop (prefix_count (words text.now)) (words text.now))) }
    ensures prefix { IfOk result (λ p. string_bytes p.1
        ≡ words_text (take (prefix_count (words text.now)) (words text.now))) }
{
    // Most family parts are a single word, which has no prefix.
    if is_single(text) {
        return Ok((spaced_text(alloc, text)?, String::new(alloc)));
    }
    family_of(alloc, words_of(alloc, text)?.as_slice())
}

// The texts of a name without commas.
fn by_words(alloc: Global, words: &[&[(char, Kind)]]) -> Result<NameTexts, AllocError>
    ensures { IfOk result (λ t. name_view t ≡ by_words (texts words.now)) }
{
    let (given, family) = words.split_at(given_count(words));
    let (family, prefix) = family_of(alloc, family)?;
    Ok(NameTexts {
        family,
        prefix,
        given: words_text(alloc, given)?,
        suffix: String::new(alloc),
    })
}

// The texts of a family part, and of what is behind its comma.
fn by_commas(
    alloc: Global,
    family: &[(char, Kind)],
    rest: &[(char, Kind)],
) -> Result<NameTexts, AllocError>
    ensures { IfOk result (λ t. name_view t
        ≡ by_second family.now rest.now (sides 44 rest.now)) }
{
    let (family, prefix) = family_in(alloc, family)?;
    let (given, suffix) = match sides(',', rest) {
        None => (spaced_text(alloc, rest)?, String::new(alloc)),
        Some((suffix, given)) => (spaced_text(alloc, given)?, spaced_text(alloc, suffix)?),
    };
    Ok(NameTexts {
        family,
        prefix,
        given,
        suffix,
    })
}

/// The texts of a name by its words and its first two commas.
pub(crate) fn plain_texts(alloc: Global, text: &[(char, Kind)]) -> Result<NameTexts, AllocError>
    ensures { IfOk result (λ t. name_view t ≡ plain_texts text.now) }
{
    match sides(',', text) {
        None => by_words(alloc, words_of(alloc, text)?.as_slice()),
        Some((family, rest)) => by_commas(alloc, family, rest),
    }
}
