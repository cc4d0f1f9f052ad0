//! Addresses on the web, and DOIs.
ghost use Rattle.std.specs.Prelude.{◌≡◌, IfOk, encode_utf8_all, string_bytes};
ghost use Rattle.std.specs.Char.{is_whitespace};
ghost use Rattle.std.specs.List.{list_any};
ghost use Rattle.std.specs.Str.{chars};
ghost use Rattle.haya_bibtex_values.specs.Addresses.{behind_host, doi_in, is_address};
ghost use Rattle.haya_bibtex_values.specs.Addresses.{is_more, without_blanks};

use crate::fronts::{ROOM, begins_in_any_case, begins_with, behind};
use haya_characters::{chars_of, string_of, write_chars};
use std::alloc::{AllocError, Global};

// Whether a character is white.
fn has_white(text: &[char]) -> bool
    ensures { result ≡ list_any is_whitespace text.now }
{
    text.iter().any(|c| c.is_whitespace())
}

// Whether there are characters, and none is white.
fn is_more(text: &[char]) -> bool
    ensures { result ≡ is_more text.now }
{
    match text.split_first() {
        Some(_) => !has_white(text),
        None => false,
    }
}

// Whether characters are an address.
fn are_address(text: &[char]) -> bool
    ensures { result ≡ is_address text.now }
{
    if begins_with(b"http://", text) {
        is_more(behind(7, text))
    } else if begins_with(b"https://", text) {
        is_more(behind(8, text))
    } else if begins_with(b"ftp://", text) {
        is_more(behind(6, text))
    } else {
        false
    }
}

/// Whether a text is an address: `http://`, `https://` or `ftp://`, and at least one character
/// behind it, none white.
pub fn is_address(alloc: Global, text: &str) -> Result<bool, AllocError>
    ensures { IfOk result (λ b. b ≡ is_address (chars text.now)) }
{
    let chars = chars_of(alloc, text)?;
    Ok(are_address(chars.as_slice()))
}

// The text behind a scheme without the host of DOIs.
fn behind_host<'a>(whole: &'a [char], text: &'a [char]) -> &'a [char]
    ensures { result.now ≡ behind_host whole.now text.now }
{
    if begins_in_any_case(b"doi.org/", text) {
        behind(8, text)
    } else if begins_in_any_case(b"dx.doi.org/", text) {
        behind(11, text)
    } else if begins_in_any_case(b"www.doi.org/", text) {
        behind(12, text)
    } else {
        whole
    }
}

/// The text without the blanks at its front.
pub(crate) fn without_blanks(text: &[char]) -> &[char]
    ensures { result.now ≡ without_blanks text.now }
{
    let mut left = text;
    'chars: while let Some((first, rest)) = left.split_first() {
        if *first != ' ' {
            return left;
        }
        left = rest;
    }
    left
}

// The DOI of characters.
fn doi_of(text: &[char]) -> &[char]
    ensures { result.now ≡ doi_in text.now }
{
    if begins_in_any_case(b"http://", text) {
        behind_host(text, behind(7, text))
    } else if begins_in_any_case(b"https://", text) {
        behind_host(text, behind(8, text))
    } else if begins_in_any_case(b"doi:", text) {
        without_blanks(behind(4, text))
    } else {
        text
    }
}

/// A DOI without what people write in front of it: `https://doi.org/10.1000/182`, `doi:10.1000/182`
/// and the like are `10.1000/182`.
pub fn doi_in(alloc: Global, text: &str) -> Result<String, AllocError>
    ensures { IfOk result (λ s. string_bytes s ≡ encode_utf8_all (doi_in (chars text.now))) }
{
    let mut room = ['\0'; ROOM];
    if let Some(count) = write_chars(&mut room, text) {
        return string_of(alloc, doi_of(&room[..count]));
    }
    let chars = chars_of(alloc, text)?;
    string_of(alloc, doi_of(chars.as_slice()))
}
