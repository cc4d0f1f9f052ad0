//! The parts of a name that are written behind their names.
ghost use Rattle.std.specs.Prelude.{◌≡◌, ◌++◌, IfOk, OnOk, map, string_bytes};
ghost use Rattle.std.specs.List.{list_all};
ghost use Rattle.haya_bibtex_names.specs.Extended.{extended_texts, first_value, is_extended};
ghost use Rattle.haya_bibtex_names.specs.Extended.{is_labelled};
ghost use Rattle.haya_bibtex_names.specs.Extended.{is_odd, label, odd_labels, parts, trim, value};
ghost use Rattle.haya_bibtex_names.specs.Extended.{without_quotes};
ghost use Rattle.haya_bibtex_names.specs.NameViews.{name_view};
ghost use Rattle.haya_bibtex_names.specs.Words.{texts};

use crate::parts::{sides, spaced_text, white_length, without_gap};
use crate::plain::NameTexts;
use crate::signs::is_sign;
use crate::words::is_single;
use haya_latex::Kind;
use std::alloc::{AllocError, Global};

/// The parts of a name, separated by commas.
pub(crate) fn parts<'a>(
    alloc: Global,
    text: &'a [(char, Kind)],
) -> Result<Vec<&'a [(char, Kind)]>, AllocError>
    ensures { IfOk result (λ v. texts v.items ≡ parts text.now) }
{
    text.split(|x| is_sign(',', x)).collect(alloc)
}

/// Whether each part of a name has a sign `=` behind a single word.
pub(crate) fn is_extended(alloc: Global, text: &[(char, Kind)]) -> Result<bool, AllocError>
    ensures { IfOk result (λ b. b ≡ is_extended text.now) }
{
    // Most names have no such sign.
    let Some(_) = sides('=', text) else {
        return Ok(false);
    };
    let parts = parts(alloc, text)?;
    Ok(are_labelled(parts.as_slice()))
}

fn are_labelled(parts: &[&[(char, Kind)]]) -> bool
    ensures { result ≡ list_all is_labelled (texts parts.now) }
{
    'parts: for part in parts {
        if !is_labelled(part) {
            return false;
        }
    }
    true
}

fn is_labelled(part: &[(char, Kind)]) -> bool
    ensures { result ≡ is_labelled part.now }
{
    match sides('=', part) {
        Some((front, _)) => is_single(front),
        None => false,
    }
}

// The word of such a part.
fn label(alloc: Global, part: &[(char, Kind)]) -> Result<String, AllocError>
    ensures { IfOk result (λ s. string_bytes s ≡ label part.now) }
{
    match sides('=', part) {
        Some((front, _)) => spaced_text(alloc, front),
        None => Ok(String::new(alloc)),
    }
}

// The text without white at its ends.
fn trim(text: &[(char, Kind)]) -> &[(char, Kind)]
    ensures { result.now ≡ trim text.now }
{
    let (_, rest) = text.split_at(white_length(text));
    without_gap(rest)
}

// The text without quotation marks around it.
fn without_quotes(text: &[(char, Kind)]) -> &[(char, Kind)]
    ensures { result.now ≡ without_quotes text.now }
{
    let Some((first, behind)) = text.split_first() else {
        return text;
    };
    if !is_sign('"', first) {
        return text;
    }
    match behind.split_last() {
        Some((last, inside)) if is_sign('"', last) => inside,
        _ => text,
    }
}

// The text behind the sign of a part.
fn value(alloc: Global, part: &[(char, Kind)]) -> Result<String, AllocError>
    ensures { IfOk result (λ s. string_bytes s ≡ value part.now) }
{
    match sides('=', part) {
        Some((_, behind)) => spaced_text(alloc, without_quotes(trim(behind))),
        None => Ok(String::new(alloc)),
    }
}

// That of the first part with this word.
fn first_value(alloc: Global, word: &str, parts: &[&[(char, Kind)]]) -> Result<String, AllocError>
    ensures { IfOk result (λ s. string_bytes s ≡ first_value word.now (texts parts.now)) }
{
    'parts: for part in parts {
        if label(alloc, part)?.as_str() == word {
            return value(alloc, part);
        }
    }
    Ok(String::new(alloc))
}

/// The texts of a name's parts that are written behind their names.
pub(crate) fn extended_texts(
    alloc: Global,
    parts: &[&[(char, Kind)]],
) -> Result<NameTexts, AllocError>
    ensures { IfOk result (λ t. name_view t ≡ extended_texts (texts parts.now)) }
{
    Ok(NameTexts {
        family: first_value(alloc, "family", parts)?,
        prefix: first_value(alloc, "prefix", parts)?,
        given: first_value(alloc, "given", parts)?,
        suffix: first_value(alloc, "suffix", parts)?,
    })
}

// Whether a word says no part, and isn't one of those that say nothing of a person.
fn is_odd(word: &str) -> bool
    ensures { result ≡ is_odd word.now }
{
    !matches!(
        word,
        "family"
            | "given"
            | "prefix"
            | "suffix"
            | "useprefix"
            | "family-i"
            | "given-i"
            | "prefix-i"
            | "suffix-i"
    )
}

/// Puts the odd words of parts behind others.
pub(crate) fn push_odd(
    alloc: Global,
    parts: &[&[(char, Kind)]],
    odd: &mut Vec<String>,
) -> Result<(), AllocError>
    ensures { OnOk result (map string_bytes odd.new.items
        ≡ map string_bytes odd.old.items ++ odd_labels (texts parts.now)) }
{
    'parts: for part in parts {
        let word = label(alloc, part)?;
        if is_odd(word.as_str()) {
            odd.push(word)?;
        }
    }
    Ok(())
}
