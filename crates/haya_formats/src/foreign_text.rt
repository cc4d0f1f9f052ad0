//! What a text looks like that is in none of the formats.
ghost use Rattle.std.specs.Prelude.{◌≡◌};
ghost use Rattle.std.specs.List.{list_all};
ghost use Rattle.haya_formats.specs.Likeness.{foreign_for, is_header, is_header_byte, like_line};
ghost use Rattle.haya_formats.specs.Likeness.{like_some, like_text, likeness, likeness_for};

use crate::bibtex::{is_bibtex_of, is_medline, is_ris};
use crate::block::first_text;
use crate::first_line::{first_line, is_json, is_row, is_yaml};
use crate::foreign::{Foreign, foreign_of};
use crate::format::Format;

/// What an input is, or looks like, that begins with these bytes and isn't read. Where a format is
/// given, what it looks like isn't asked.
pub fn foreign_for(given: Option<Format>, bytes: &[u8]) -> Option<Foreign>
    ensures { result ≡ foreign_for given bytes.now }
{
    foreign_of(bytes).or(likeness_for(given, bytes))
}

/// What a text looks like that begins with these bytes, where no format is given.
pub fn likeness_for(given: Option<Format>, bytes: &[u8]) -> Option<Foreign>
    ensures { result ≡ likeness_for given bytes.now }
{
    match given {
        Some(_) => None,
        None => likeness(bytes),
    }
}

/// What a text looks like that begins with these bytes, where it is in none of the formats, as far
/// as `first_text` goes. Lines that are empty or begin with `#` aside, the first line of a text in
/// one of the formats begins with a bracket, with one to three digits and a tab, or as in BibTeX.
pub fn likeness(bytes: &[u8]) -> Option<Foreign>
    ensures { result ≡ likeness bytes.now }
{
    let text = first_text(bytes);
    match first_line(text) {
        Some(line) => like_text(text, line),
        None => None,
    }
}

// What a text looks like whose first line is this one.
fn like_text(text: &str, line: &str) -> Option<Foreign>
    ensures { result ≡ like_text text.now line.now }
{
    if is_json(line) || is_row(line.as_bytes()) || is_bibtex_of(text, line) {
        return None;
    }
    like_some(text).or(like_line(line.as_bytes()))
}

// What a text looks like that has a line of its kind anywhere.
fn like_some(text: &str) -> Option<Foreign>
    ensures { result ≡ like_some text.now }
{
    if is_ris(text) {
        Some(Foreign::Ris)
    } else if is_medline(text) {
        Some(Foreign::Medline)
    } else {
        None
    }
}

// What a text looks like by its first line.
fn like_line(line: &[u8]) -> Option<Foreign>
    ensures { result ≡ like_line line.now }
{
    if line.starts_with(b"<?xml") || line.starts_with(b"<xml>") {
        Some(Foreign::EndNoteXml)
    } else if is_yaml(line) {
        None
    } else if is_header(line) {
        Some(Foreign::Csv)
    } else {
        None
    }
}

// Whether a line has names, separated by commas.
fn is_header(line: &[u8]) -> bool
    ensures { result ≡ is_header line.now }
{
    line.contains(&b',') && are_header_bytes(line)
}

// Whether all bytes may be part of names that are separated by commas.
fn are_header_bytes(line: &[u8]) -> bool
    ensures { result ≡ list_all is_header_byte line.now }
{
    line.iter().all(|b| is_header_byte(*b))
}

// Whether a byte may be part of names that are separated by commas.
fn is_header_byte(byte: u8) -> bool
    ensures { result ≡ is_header_byte byte }
{
    byte.is_ascii_alphanumeric() || b" ,\"'_-./()#&:".contains(&byte) || byte >= 0x80
}
