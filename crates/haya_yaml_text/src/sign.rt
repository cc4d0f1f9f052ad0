//! What a sign is in a scalar, and what an escape means.
ghost use Rattle.std.specs.Prelude.{◌≡◌, ◌+◌, ◌<◌, ◌≤◌, IfSome, drop, length};
ghost use Rattle.haya_yaml_text.specs.Escapes.{character, digit, escape, escape_if, hex2, hex4};
ghost use Rattle.haya_yaml_text.specs.Escapes.{hex8, is_character, is_high, is_low, long};
ghost use Rattle.haya_yaml_text.specs.Escapes.{low_escape, pair, short, unicode_if};
ghost use Rattle.haya_yaml_text.specs.Scalars.{double_sign, if_lines, plain_sign};
ghost use Rattle.haya_yaml_text.specs.Scalars.{sign_of, single_sign};

use crate::scalar::Style;
use crate::white::{begins_with, ends_key, is_bracket, is_hash};

/// What a sign is in a scalar.
#[derive(Clone, Copy, Debug, Drop, PartialEq, Eq)]
pub enum Sign {
    /// A plain scalar ends before it.
    Ends,
    /// The quote that closes it.
    Closes,
    /// An escape that means nothing.
    Wrong,
    /// It stands for itself.
    Stands,
    /// It takes away the line end behind it.
    Joins,
    /// It means a character, together with so many signs behind it.
    Means(char, usize),
}

fn hex_digit(byte: u8) -> Option<u32>
    ensures value { result ≡ digit byte }
    ensures small { IfSome result (λ n. n < 16) }
{
    match byte {
        b'0'..=b'9' => Some((byte - b'0') as u32),
        b'A'..=b'F' => Some((byte - 55) as u32),
        b'a'..=b'f' => Some((byte - 87) as u32),
        _ => None,
    }
}

fn hex2(bytes: &[u8]) -> Option<u32>
    ensures value { result ≡ hex2 bytes.now }
    ensures small { IfSome result (λ n. n < 256) }
{
    match bytes {
        [high, low, ..] => {
            let high = hex_digit(*high)?;
            let low = hex_digit(*low)?;
            Some(high * 16 + low)
        }
        _ => None,
    }
}

// The bytes behind so many.
fn bytes_behind(count: usize, bytes: &[u8]) -> &[u8]
    ensures { result.now ≡ drop count bytes.now }
{
    if bytes.len() <= count {
        return &[];
    }
    let (_, rest) = bytes.split_at(count);
    rest
}

fn hex4(bytes: &[u8]) -> Option<u32>
    ensures value { result ≡ hex4 bytes.now }
    ensures small { IfSome result (λ n. n < 65536) }
{
    let high = hex2(bytes)?;
    let low = hex2(bytes_behind(2, bytes))?;
    Some(high * 256 + low)
}

fn hex8(bytes: &[u8]) -> Option<u32>
    ensures { result ≡ hex8 bytes.now }
{
    let high = hex4(bytes)?;
    let low = hex4(bytes_behind(4, bytes))?;
    Some(high * 65536 + low)
}

fn is_high(code: u32) -> bool
    ensures { result ≡ is_high code }
{
    0xD800 <= code && code < 0xDC00
}

fn is_low(code: u32) -> bool
    ensures { result ≡ is_low code }
{
    0xDC00 <= code && code < 0xE000
}

// What a number means that is written with so many signs.
fn character(count: usize, code: Option<u32>) -> Sign
    ensures { result ≡ character count code }
{
    match code {
        None => Sign::Wrong,
        Some(code) => match char::from_u32(code) {
            None => Sign::Wrong,
            Some(c) => Sign::Means(c, count),
        },
    }
}

// The number of a low surrogate's escape.
fn low_escape(bytes: &[u8]) -> Option<u32>
    ensures value { result ≡ low_escape bytes.now }
    ensures small { IfSome result (λ n. n < 65536) }
{
    match bytes {
        [first, second, rest @ ..] => {
            if *first == b'\\' && *second == b'u' {
                hex4(rest)
            } else {
                None
            }
        }
        _ => None,
    }
}

fn pair(high: u32, low: Option<u32>) -> Sign
    requires { (55296 ≤ high) × (high < 56320) }
    ensures { result ≡ pair high low }
{
    match low {
        None => Sign::Wrong,
        Some(low) => {
            if !is_low(low) {
                return Sign::Wrong;
            }
            character(11, Some(0x10000 + (high - 0xD800) * 1024 + (low - 0xDC00)))
        }
    }
}

fn unicode(bytes: &[u8]) -> Sign
    ensures { result ≡ unicode_if bytes.now (hex4 bytes.now) }
{
    match hex4(bytes) {
        None => Sign::Wrong,
        Some(code) => {
            if is_high(code) {
                return pair(code, low_escape(bytes_behind(4, bytes)));
            }
            character(5, Some(code))
        }
    }
}

fn long(first: u8, rest: &[u8]) -> Sign
    ensures { result ≡ long first rest.now }
{
    match first {
        b'x' => character(3, hex2(rest)),
        b'u' => unicode(rest),
        b'U' => character(9, hex8(rest)),
        _ => Sign::Wrong,
    }
}

fn short(byte: u8) -> Option<char>
    ensures { result ≡ short byte }
{
    match byte {
        b'0' => Some('\0'),
        b'a' => Some('\u{7}'),
        b'b' => Some('\u{8}'),
        b't' | b'\t' => Some('\t'),
        b'n' => Some('\n'),
        b'v' => Some('\u{b}'),
        b'f' => Some('\u{c}'),
        b'r' => Some('\r'),
        b'e' => Some('\u{1b}'),
        b' ' => Some(' '),
        b'"' => Some('"'),
        b'/' => Some('/'),
        b'\\' => Some('\\'),
        b'N' => Some('\u{85}'),
        b'_' => Some('\u{a0}'),
        b'L' => Some('\u{2028}'),
        b'P' => Some('\u{2029}'),
        _ => None,
    }
}

// What stands behind `\`.
fn escape(bytes: &[u8]) -> Sign
    ensures { result ≡ escape bytes.now }
{
    match bytes {
        [] => Sign::Wrong,
        [first, rest @ ..] => {
            if *first == b'\n' {
                return Sign::Joins;
            }
            escape_sign(*first, rest)
        }
    }
}

fn escape_sign(first: u8, rest: &[u8]) -> Sign
    ensures { result ≡ escape_if (short first) first rest.now }
{
    match short(first) {
        Some(c) => Sign::Means(c, 1),
        None => long(first, rest),
    }
}

fn plain_sign(flow: bool, apart: bool, text: &str) -> Sign
    ensures { result ≡ plain_sign flow apart text.now }
{
    let bytes = text.as_bytes();
    if (is_hash(text) && apart) || ends_key(flow, bytes) || is_bracket(flow, bytes) {
        Sign::Ends
    } else {
        Sign::Stands
    }
}

fn single_sign(bytes: &[u8]) -> Sign
    ensures { result ≡ single_sign bytes.now }
{
    match bytes {
        [] => Sign::Wrong,
        [byte, rest @ ..] => {
            if *byte != b'\'' {
                return Sign::Stands;
            }
            if begins_with(b'\'', rest) {
                Sign::Means('\'', 1)
            } else {
                Sign::Closes
            }
        }
    }
}

fn double_sign(bytes: &[u8]) -> Sign
    ensures { result ≡ double_sign bytes.now }
{
    match bytes {
        [] => Sign::Wrong,
        [byte, rest @ ..] => {
            if *byte == b'"' {
                return Sign::Closes;
            }
            if *byte == b'\\' {
                return escape(rest);
            }
            Sign::Stands
        }
    }
}

fn if_lines(lines: bool, sign: Sign) -> Sign
    ensures { result ≡ if_lines lines sign }
{
    match sign {
        Sign::Joins => { if lines { Sign::Joins } else { Sign::Wrong } }
        _ => sign,
    }
}

/// What the sign that begins a text is in a scalar.
pub fn sign_of(lines: bool, style: Style, apart: bool, text: &str) -> Sign
    ensures { result ≡ sign_of lines style apart text.now }
{
    match style {
        Style::Plain => plain_sign(false, apart, text),
        Style::PlainInBrackets => plain_sign(true, apart, text),
        Style::SingleQuoted => single_sign(text.as_bytes()),
        Style::DoubleQuoted => if_lines(lines, double_sign(text.as_bytes())),
    }
}
