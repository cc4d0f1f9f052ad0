//! Serial numbers, without the addresses and names of series in front of them.
ghost use Rattle.std.specs.Prelude.{◌≡◌, ◌-◌, ◌<◌, option_map, slice_index, length, IfOk};
ghost use Rattle.json.specs.Value.{value_view};
ghost use Rattle.haya_text.specs.Texts.{text_view};
ghost use Rattle.haya_csl.specs.Kinds.{begins_with};
ghost use Rattle.haya_csl.specs.Said.{said_view};
ghost use Rattle.haya_csl.specs.Serials.{addresses, archive_number_said, bare, behind};
ghost use Rattle.haya_csl.specs.Serials.{is_of_arxiv, number_key, serial_key, serial_text};
ghost use Rattle.haya_csl.specs.Serials.{series_names, without};

use crate::fields::SerialField;
use crate::markup::read_markup;
use crate::said::Said;
use crate::texts::{some_chunks, without_short};
use haya_json::Why;
use haya_json::reading::text_in;
use haya_text::{FormatString, OutOfMemory};
use json::Value;
use std::alloc::Global;

/// The key of a serial number.
pub(crate) fn serial_key(field: SerialField, text: &str) -> &str
    ensures { result.now ≡ serial_key field text.now }
{
    match field {
        SerialField::Doi => "doi",
        SerialField::Pmid => "pmid",
        SerialField::Pmcid => "pmcid",
        SerialField::Isbn => "isbn",
        SerialField::Issn => "issn",
        SerialField::Arxiv => "arxiv",
        SerialField::Number => number_key(text),
    }
}

// The key of a number, which is one of arXiv where it begins with its name.
fn number_key(text: &str) -> &str
    ensures { result.now ≡ number_key text.now }
{
    match behind("arXiv:", text.trim()) {
        Some(_) => "arxiv",
        None => "serial",
    }
}

/// Whether it is a number of arXiv, which isn't empty.
pub(crate) fn is_of_arxiv(text: &str) -> bool
    ensures { result ≡ is_of_arxiv text.now }
{
    behind("arXiv:", text.trim()).is_some() && !bare(text).is_empty()
}

/// The text of a serial number. Some lose what is in front of the number.
pub(crate) fn serial_text(field: SerialField, text: &str) -> &str
    ensures { result.now ≡ serial_text field text.now }
{
    match field {
        SerialField::Doi | SerialField::Arxiv | SerialField::Number => bare(text),
        _ => text,
    }
}

/// Where an item is kept, as a call number.
pub(crate) fn read_archive_number(
    alloc: Global,
    json: &Value<'_>,
) -> Result<Said<FormatString>, OutOfMemory>
    ensures { IfOk result (λ said.
        said_view text_view said ≡ archive_number_said (value_view json.now)) }
{
    match text_in(json) {
        None => Said::unread(alloc, Why::NotText, json),
        Some("") => Ok(Said::none(alloc)),
        Some(text) => {
            let read = read_markup(alloc, bare(text))?;
            Ok(without_short(some_chunks(alloc, read)))
        }
    }
}

// The number alone: without the name of a series, an address, and white space around it.
fn bare(text: &str) -> &str
    ensures { result.now ≡ bare text.now }
{
    without_address(without_series(text.trim()).trim()).trim()
}

// The text behind the name of a series, if it begins with one.
fn without_series(text: &str) -> &str
    ensures { result.now ≡ without series_names text.now }
{
    if let Some(number) = behind("doi:", text) {
        return number;
    }
    behind("arXiv:", text).unwrap_or(text)
}

// The text behind the address of a resolver, if it begins with one.
fn without_address(text: &str) -> &str
    ensures { result.now ≡ without addresses text.now }
{
    if let Some(number) = behind("https://doi.org/", text) {
        return number;
    }
    if let Some(number) = behind("http://doi.org/", text) {
        return number;
    }
    if let Some(number) = behind("https://dx.doi.org/", text) {
        return number;
    }
    behind("http://dx.doi.org/", text).unwrap_or(text)
}

// The text behind a prefix, if it begins with it, in any case.
fn behind<'t>(prefix: &str, text: &'t str) -> Option<&'t str>
    requires some { 0 < length prefix.now }
    requires ascii { slice_index prefix.now (length prefix.now - 1) < 128 }
    ensures { option_map (λ s. s.now) result ≡ behind prefix.now text.now }
{
    if !begins_with(text.as_bytes(), prefix.as_bytes()) {
        return None;
    }
    Some(&text[prefix.len()..])
}

// Whether the text begins with the word, in any case.
fn begins_with(text: &[u8], word: &[u8]) -> bool
    ensures { result ≡ begins_with word.now text.now }
{
    text.len() >= word.len() && text[..word.len()].eq_ignore_ascii_case(word)
}
