//! Characters that begin no token but their own, and texts of them.
ghost use Rattle.std.specs.Prelude.{◌≡◌, ◌==◌, ◌||◌, ◌<◌, [], true, flat_map, length};
ghost use Rattle.std.specs.Str.{chars};
ghost use Rattle.haya_latex.specs.Simple.{is_plain, is_simple};
ghost use Rattle.haya_latex.specs.Texts.{bytes_of, char_bytes, text_chars, text_unknown};

use crate::kinds::Kind;

/// Whether a character isn't white, and no other rule is about it.
pub(crate) fn is_plain(c: char) -> bool
    ensures { result ≡ is_plain c }
{
    match c {
        'a'..='z' | 'A'..='Z' | '0'..='9' => true,
        '!' | '$' | '\'' | '-' | '?' | '\\' | '`' | '{' | '}' | '~' => false,
        _ => !c.is_whitespace(),
    }
}

/// Whether a text says just its bytes: it is in ASCII, of plain characters and single blanks, with a
/// plain one at both ends.
pub(crate) fn is_simple(text: &[u8]) -> bool
    ensures { result ≡ is_simple true text.now }
{
    let mut behind = true;
    'bytes: for byte in text {
        if *byte == b' ' {
            if behind {
                return false;
            }
            behind = true;
        } else {
            if !byte.is_ascii() || !is_plain(char::from(*byte)) {
                return false;
            }
            behind = false;
        }
    }
    !behind
}

// Whether a character says itself where no grave accent follows.
fn is_said(c: char) -> bool
    ensures { result ≡ (is_plain c || (c == 33) || (c == 63)) }
{
    is_plain(c) || c == '!' || c == '?'
}

/// Whether a text says just its bytes, as one run: it is in ASCII, of characters that say themselves,
/// single blanks and single hyphens, with no blank at both ends.
pub(crate) fn is_literal(text: &[u8]) -> bool
    ensures bytes { result ≡ true → flat_map char_bytes (text_chars (chars text.now))
        ≡ bytes_of Kind.Normal text.now }
    ensures some { result ≡ true → 0 < length text.now }
    ensures unknown { result ≡ true → text_unknown (chars text.now) ≡ [] }
{
    let mut blank = true;
    let mut hyphen = false;
    'bytes: for byte in text {
        // Most characters are small letters.
        if byte.is_ascii_lowercase() {
            blank = false;
            hyphen = false;
            continue 'bytes;
        }
        if *byte == b' ' {
            if blank {
                return false;
            }
        } else if *byte == b'-' {
            if hyphen {
                return false;
            }
        } else if !byte.is_ascii() || !is_said(char::from(*byte)) {
            return false;
        }
        blank = *byte == b' ';
        hyphen = *byte == b'-';
    }
    !blank
}
