//! Texts as scalars of YAML: plain, in quotes, or in a block.
use json::is_number;
use std::alloc::AllocError;

/// Puts a key behind a text.
pub(crate) fn push_key(out: &mut String, name: &str) -> Result<(), AllocError> {
    if is_plain(name) {
        out.push_str(name)
    } else {
        push_quoted(out, name)
    }
}

/// Puts the scalar that says this text behind another. The lines of a block begin in this column.
pub(crate) fn push_text(out: &mut String, text: &str, column: usize) -> Result<(), AllocError> {
    if is_plain(text) {
        out.push_str(text)
    } else if is_block(text) {
        push_block(out, text, column)
    } else {
        push_quoted(out, text)
    }
}

// ---- plain scalars

// Whether a plain scalar says the text, to this reader and to others.
fn is_plain(text: &str) -> bool {
    begins_plain(text.as_bytes())
        && !text.ends_with(' ')
        && !text.ends_with(':')
        && !text.contains(": ")
        && !text.contains(" #")
        && text.chars().all(|c| is_printed(c))
        && !is_word(text)
        && !is_like_number(text)
}

// Whether the text may begin a plain scalar, on a line of its own, too.
fn begins_plain(text: &[u8]) -> bool {
    match text {
        [] => false,
        [b'-' | b'?' | b':', rest @ ..] => !matches!(rest, [] | [b' ', ..] | [b'-', b'-', ..]),
        [first, ..] => !b" ,[]{}#&*!|>'\"%@`=<.~".contains(first),
    }
}

// Whether a character is printed as it is.
fn is_printed(c: char) -> bool {
    !matches!(
        c,
        '\0'..='\u{1f}' | '\u{7f}'..='\u{9f}' | '\u{2028}' | '\u{2029}' | '\u{feff}' | '\u{fffe}'
            | '\u{ffff}'
    )
}

// The words that some reader of YAML takes for another value than the text.
const WORDS: [&str; 9] = ["null", "true", "false", "yes", "no", "on", "off", "y", "n"];

fn is_word(text: &str) -> bool {
    WORDS.iter().any(|word| text.eq_ignore_ascii_case(word))
}

// Whether some reader of YAML may take the text for a number or a time: a number of JSON, or digits
// and what numbers have beside them. Dates and ranges, digits with hyphens between, are none.
fn is_like_number(text: &str) -> bool {
    let bytes = text.as_bytes();
    if is_number(text) {
        return true;
    }
    match bytes {
        [b'0'..=b'9' | b'+' | b'-', rest @ ..] => {
            let is_range = rest.contains(&b'-') && rest.iter().all(|b| is_digit_or_hyphen(*b));
            !is_range && rest.iter().all(|b| is_number_byte(*b))
        }
        _ => false,
    }
}

fn is_digit_or_hyphen(byte: u8) -> bool {
    byte.is_ascii_digit() || byte == b'-'
}

fn is_number_byte(byte: u8) -> bool {
    byte.is_ascii_hexdigit() || b"xXoO_.:+-".contains(&byte)
}

// ---- blocks

// Whether a literal block says the text: it has several lines, the first begins with a sign, none
// is of blanks alone, and at most one line feed is at the end.
fn is_block(text: &str) -> bool {
    match text.as_bytes() {
        [] | [b' ' | b'\t' | b'\n', ..] | [.., b'\n', b'\n'] => false,
        bytes => {
            bytes.contains(&b'\n')
                && text.chars().all(|c| c == '\n' || is_printed(c))
                && text
                    .lines()
                    .all(|line| line.is_empty() || !line.trim().is_empty())
        }
    }
}

fn push_block(out: &mut String, text: &str, column: usize) -> Result<(), AllocError> {
    out.push('|')?;
    if !text.ends_with('\n') {
        out.push('-')?;
    }
    for line in text.lines() {
        out.push('\n')?;
        if !line.is_empty() {
            for _ in 0..column {
                out.push(' ')?;
            }
            out.push_str(line)?;
        }
    }
    Ok(())
}

// ---- quotes

// Single quotes, or double quotes where a character has to be escaped.
fn push_quoted(out: &mut String, text: &str) -> Result<(), AllocError> {
    if text.chars().all(|c| is_printed(c)) {
        push_single(out, text)
    } else {
        push_double(out, text)
    }
}

fn push_single(out: &mut String, text: &str) -> Result<(), AllocError> {
    out.push('\'')?;
    for c in text.chars() {
        if c == '\'' {
            out.push('\'')?;
        }
        out.push(c)?;
    }
    out.push('\'')
}

fn push_double(out: &mut String, text: &str) -> Result<(), AllocError> {
    out.push('"')?;
    for c in text.chars() {
        match c {
            '"' => out.push_str("\\\"")?,
            '\\' => out.push_str("\\\\")?,
            '\n' => out.push_str("\\n")?,
            '\r' => out.push_str("\\r")?,
            '\t' => out.push_str("\\t")?,
            c if is_printed(c) => out.push(c)?,
            c => push_escape(out, c)?,
        }
    }
    out.push('"')
}

// Four digits behind `\u`: no character beyond U+FFFF is escaped.
fn push_escape(out: &mut String, c: char) -> Result<(), AllocError> {
    out.push_str("\\u")?;
    let number = u32::from(c);
    for shift in [12, 8, 4, 0] {
        out.push(digit((number >> shift) & 15))?;
    }
    Ok(())
}

fn digit(number: u32) -> char {
    char::from_digit(number, 16).unwrap_or('0')
}
