//! Pages as they are written in `.bib` files.
ghost use Rattle.std.specs.Prelude.{◌≡◌, IfOk, encode_utf8_all, string_bytes};
ghost use Rattle.std.specs.Str.{chars};
ghost use Rattle.haya_bibtex_values.specs.PageTexts.{begins_dash, is_dash, single_hyphens};

use crate::fronts::ROOM;
use haya_characters::{chars_of, write_chars};
use std::alloc::{AllocError, Global};

// Whether a character is a hyphen, a dash or a minus.
fn is_dash(c: char) -> bool
    ensures { result ≡ is_dash c }
{
    c == '-' || c == '–' || c == '—' || c == '−'
}

// Whether a text begins with a dash.
fn begins_dash(text: &[char]) -> bool
    ensures { result ≡ begins_dash text.now }
{
    match text.split_first() {
        Some((first, _)) => is_dash(*first),
        None => false,
    }
}

/// A text with one hyphen for each run of hyphens, dashes and minus signs.
pub fn single_hyphens(alloc: Global, text: &str) -> Result<String, AllocError>
    ensures { IfOk result (λ s. string_bytes s
        ≡ encode_utf8_all (single_hyphens (chars text.now))) }
{
    let mut room = ['\0'; ROOM];
    if let Some(count) = write_chars(&mut room, text) {
        return hyphens_of(alloc, &room[..count]);
    }
    let chars = chars_of(alloc, text)?;
    hyphens_of(alloc, chars.as_slice())
}

// The same of characters.
fn hyphens_of(alloc: Global, chars: &[char]) -> Result<String, AllocError>
    ensures { IfOk result (λ s. string_bytes s ≡ encode_utf8_all (single_hyphens chars.now)) }
{
    let mut text = String::with_capacity(alloc, chars.len())?;
    let mut left = chars;
    'chars: while let Some((first, rest)) = left.split_first() {
        if !is_dash(*first) {
            text.push(*first)?;
        } else if !begins_dash(rest) {
            text.push('-')?;
        }
        left = rest;
    }
    Ok(text)
}
