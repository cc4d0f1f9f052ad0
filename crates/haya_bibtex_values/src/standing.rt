//! Texts that are taken as they stand.
ghost use Rattle.std.specs.Prelude.{◌≡◌, ◌≤◌, ◌++◌, IfOk, OnOk, length, option_to_list};
ghost use Rattle.std.specs.Prelude.{string_bytes, encode_utf8_all, true};
ghost use Rattle.std.specs.Str.{chars, trim};
ghost use Rattle.haya_bibtex_values.specs.Standing.{as_it_stands, backslash_at, brace_at};
ghost use Rattle.haya_bibtex_values.specs.Standing.{dollar_at, escape_at, has_word, inner_length};
ghost use Rattle.haya_bibtex_values.specs.Standing.{inside, inside_by, is_escaped, piece_at};
ghost use Rattle.haya_bibtex_values.specs.Standing.{piece_of, standing, tilde_before, white_at};

use crate::fronts::{begins_letter, begins_white, begins_with, behind};
use haya_characters::{chars_of, string_of};
use std::alloc::{AllocError, Global};

/// What is at the front of a text.
#[derive(Clone, Copy)]
pub(crate) struct Piece {
    /// The character that it stands for.
    pub(crate) sign: Option<char>,
    /// How many characters it has behind its first.
    pub(crate) length: usize,
}

// A piece.
fn piece_of(sign: Option<char>, length: usize) -> Piece
    ensures { result ≡ piece_of sign length }
{
    Piece { sign, length }
}

// Whether a backslash makes a sign plain.
fn is_escaped(c: char) -> bool
    ensures { result ≡ is_escaped c }
{
    matches!(c, '_' | '%' | '&' | '#' | '$' | '~' | '{' | '}' | '^')
}

// The piece of a backslash and a sign.
fn escape_at(text: &[char]) -> Piece
    ensures { result ≡ escape_at text.now }
{
    let Some((first, rest)) = text.split_first() else {
        return piece_of(Some('\\'), 0);
    };
    let c = *first;
    if c == '~' && begins_with(b"{}", rest) {
        piece_of(Some('~'), 3)
    } else if is_escaped(c) {
        piece_of(Some(c), 1)
    } else if c == '-' || c == '/' {
        piece_of(None, 1)
    } else {
        piece_of(Some('\\'), 0)
    }
}

// Whether a text begins with a word behind which no letter follows.
fn has_word(word: &[u8], text: &[char]) -> bool
    ensures { result ≡ has_word word.now text.now }
{
    begins_with(word, text) && !begins_letter(behind(word.len(), text))
}

// The piece of a tilde's word, behind which this text is.
fn tilde_before(rest: &[char]) -> Piece
    ensures { result ≡ tilde_before rest.now }
{
    if begins_with(b"{}", rest) {
        piece_of(Some('~'), 16)
    } else if begins_white(rest) {
        piece_of(Some('~'), 15)
    } else {
        piece_of(Some('~'), 14)
    }
}

fn backslash_at(text: &[char]) -> Piece
    ensures { result ≡ backslash_at text.now }
{
    if has_word(b"textasciitilde", text) {
        tilde_before(behind(14, text))
    } else if has_word(b"textunderscore", text) {
        piece_of(Some('_'), 14)
    } else {
        escape_at(text)
    }
}

fn brace_at(text: &[char]) -> Piece
    ensures { result ≡ brace_at text.now }
{
    if begins_with(b"\\textasciitilde}", text) {
        piece_of(Some('~'), 16)
    } else if begins_with(b"\\~}", text) {
        piece_of(Some('~'), 3)
    } else {
        piece_of(None, 0)
    }
}

fn dollar_at(text: &[char]) -> Piece
    ensures { result ≡ dollar_at text.now }
{
    if begins_with(b"\\sim$", text) {
        piece_of(Some('~'), 5)
    } else {
        piece_of(Some('$'), 0)
    }
}

fn white_at(text: &[char]) -> Piece
    ensures { result ≡ white_at text.now }
{
    if begins_white(text) {
        piece_of(None, 0)
    } else {
        piece_of(Some(' '), 0)
    }
}

// The piece that begins with this character, before this text.
fn piece_at(c: char, text: &[char]) -> Piece
    ensures { result ≡ piece_at c text.now }
{
    if c.is_whitespace() {
        return white_at(text);
    }
    match c {
        '\\' => backslash_at(text),
        '{' => brace_at(text),
        '}' => piece_of(None, 0),
        '$' => dollar_at(text),
        _ => piece_of(Some(c), 0),
    }
}

// Puts a character, if there is one, behind others.
fn push_sign(chars: &mut Vec<char>, sign: Option<char>) -> Result<(), AllocError>
    ensures { OnOk result (chars.new.items ≡ chars.old.items ++ option_to_list sign) }
{
    if let Some(c) = sign {
        chars.push(c)?;
    }
    Ok(())
}

// The characters that a text stands for.
fn standing(alloc: Global, text: &[char]) -> Result<Vec<char>, AllocError>
    ensures { IfOk result (λ v. v.items ≡ standing text.now) }
{
    let mut chars = Vec::with_capacity(alloc, text.len())?;
    let mut left = text;
    'pieces: while let Some((first, rest)) = left.split_first() {
        let piece = piece_at(*first, rest);
        push_sign(&mut chars, piece.sign)?;
        left = behind(piece.length, rest);
    }
    Ok(chars)
}

// How much text is before the brace that closes the one around it.
fn inner_length(text: &[char]) -> usize
    ensures length { result ≡ inner_length 0 text.now }
    ensures within { result ≤ length text.now }
{
    let mut count = 0;
    let mut depth: usize = 0;
    'chars: for c in text {
        if *c == '}' {
            if depth == 0 {
                return count;
            }
            depth -= 1;
        } else if *c == '{' {
            depth += 1;
        }
        count += 1;
    }
    count
}

// The text without a command's word, behind which this is, and the braces around it.
fn inside_by<'a>(whole: &'a [char], rest: &'a [char]) -> &'a [char]
    ensures { result.now ≡ inside_by whole.now rest.now }
{
    let count = inner_length(rest);
    let (inner, last) = rest.split_at(count);
    if last.len() == 1 { inner } else { whole }
}

// The text without the word of an address's command and the braces around it.
fn inside(text: &[char]) -> &[char]
    ensures { result.now ≡ inside text.now }
{
    if begins_with(b"\\url{", text) {
        inside_by(text, behind(5, text))
    } else if begins_with(b"\\path{", text) {
        inside_by(text, behind(6, text))
    } else if begins_with(b"\\nolinkurl{", text) {
        inside_by(text, behind(11, text))
    } else {
        text
    }
}

// Whether no rule is about a text: each byte is a sign of ASCII that isn't white, and none of these
// four.
fn is_plain(text: &str) -> bool
    ensures trimmed { result ≡ true
        → trim (encode_utf8_all (standing (inside (chars text.now)))) ≡ text.now }
    ensures whole { result ≡ true → as_it_stands text.now ≡ text.now }
{
    'bytes: for byte in text.as_bytes() {
        // Most characters are small letters.
        if byte.is_ascii_lowercase() {
            continue 'bytes;
        }
        if !byte.is_ascii_graphic() || matches!(*byte, b'$' | b'\\' | b'{' | b'}') {
            return false;
        }
    }
    true
}

/// Whether a text is known to stand as it is: then it need not be written anew.
pub fn stands_as_it_is(text: &str) -> bool
    ensures { result ≡ true → as_it_stands text.now ≡ text.now }
{
    is_plain(text)
}

/// The text of an address, a DOI or a date: as it stands, but for LaTeX's ways to write some signs.
///
/// | Text | As it stands |
/// |---|---|
/// | `\url{http://a.b/c\_d}` | `http://a.b/c_d` |
/// | `http://x.y/\~{}z`, `http://x.y/\textasciitilde z` | `http://x.y/~z` |
/// | `10.1000/{182}` | `10.1000/182` |
pub fn as_it_stands(alloc: Global, text: &str) -> Result<String, AllocError>
    ensures { IfOk result (λ s. string_bytes s ≡ as_it_stands text.now) }
{
    let text = text.trim();
    if is_plain(text) {
        return String::from_str(alloc, text);
    }
    let chars = chars_of(alloc, text)?;
    let plain = standing(alloc, inside(chars.as_slice()))?;
    let text = string_of(alloc, plain.as_slice())?;
    String::from_str(alloc, text.as_str().trim())
}
