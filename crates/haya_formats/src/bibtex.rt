//! How a text in BibTeX is told from those in other formats.
ghost use Rattle.std.specs.Prelude.{◌≡◌, find, not};
ghost use Rattle.haya_formats.specs.Bibtex.{has_entry, has_entry_alone, has_line, is_bibtex};
ghost use Rattle.haya_formats.specs.Bibtex.{is_bibtex_of, is_entry, is_medline, is_name_byte};
ghost use Rattle.haya_formats.specs.Bibtex.{is_ris, is_signed, opens_entry};

use crate::first_line::{behind, first_line, is_json, is_row};

/// Whether a text is in BibTeX. White space aside, its first line that says something begins with
/// `@`, or with a `%` that is none of `%YAML`; or it begins as no other format's does, and a later
/// line begins an entry.
pub(crate) fn is_bibtex(text: &str) -> bool
    ensures { result ≡ is_bibtex text.now }
{
    match first_line(text) {
        Some(line) => is_bibtex_of(text, line),
        None => false,
    }
}

/// Whether a text whose first line is this is in BibTeX.
pub(crate) fn is_bibtex_of(text: &str, line: &str) -> bool
    ensures { result ≡ is_bibtex_of text.now line.now }
{
    is_signed(line) || has_entry_alone(text, line)
}

/// Whether the text is in RIS, by a line of its kind.
pub(crate) fn is_ris(text: &str) -> bool
    ensures { result ≡ is_ris text.now }
{
    has_line(text, b"TY  - ")
}

/// Whether the text is in MEDLINE, by a line of its kind.
pub(crate) fn is_medline(text: &str) -> bool
    ensures { result ≡ is_medline text.now }
{
    has_line(text, b"PMID- ")
}

// Whether a line begins with `@`, or with the `%` of a remark, as in no other format.
fn is_signed(line: &str) -> bool
    ensures { result ≡ is_signed line.now }
{
    behind("@", line).is_some() || (behind("%", line).is_some() && behind("%YAML", line).is_none())
}

// Whether a text whose first line is this has an entry somewhere behind, and is in no format that
// is told by its first line or by a line of its kind.
fn has_entry_alone(text: &str, line: &str) -> bool
    ensures { result ≡ has_entry_alone text.now line.now }
{
    !is_json(line)
        && !is_row(line.as_bytes())
        && !is_ris(text)
        && !is_medline(text)
        && has_entry(text)
}

// Whether a line of the text begins so.
fn has_line(text: &str, sign: &[u8]) -> bool
    ensures { result ≡ has_line sign.now text.now }
{
    text.lines().any(|line| line.as_bytes().starts_with(sign))
}

// Whether a line of the text begins an entry of BibTeX.
fn has_entry(text: &str) -> bool
    ensures { result ≡ has_entry text.now }
{
    text.lines().any(|line| is_entry(line))
}

// Whether a line begins an entry of BibTeX: `@`, letters and blanks, and a bracket.
fn is_entry(line: &str) -> bool
    ensures { result ≡ is_entry line.now }
{
    match behind("@", line) {
        Some(name) => opens_entry(name_end(name.as_bytes())),
        None => false,
    }
}

// Whether this is the bracket that opens an entry.
fn opens_entry(byte: Option<u8>) -> bool
    ensures { result ≡ opens_entry byte }
{
    matches!(byte, Some(b'{' | b'('))
}

// The first byte that is no part of a type's name, and no blank.
fn name_end(name: &[u8]) -> Option<u8>
    ensures { result ≡ find (λ b. not (is_name_byte b)) name.now }
{
    name.iter().copied().find(|b| !is_name_byte(*b))
}

// Whether a byte may be part of the name of a type, or is a blank.
fn is_name_byte(byte: u8) -> bool
    ensures { result ≡ is_name_byte byte }
{
    byte.is_ascii_alphabetic() || byte == b' ' || byte == b'\t'
}
