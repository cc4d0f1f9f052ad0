//! The lines of a text.
ghost use Rattle.std.specs.Prelude.{◌≡◌, ◌+◌, ◌<◌, ◌≤◌, ◌∷◌, IfOk, drop, length, map, take};
ghost use Rattle.std.specs.List.{position_or_len};
ghost use Rattle.std.specs.Simd.Lanes.{mask_l};
ghost use Rattle.std.specs.Str.Lines.{lines};
ghost use Rattle.haya_yaml.specs.Documents.{ended};
ghost use Rattle.haya_yaml.specs.Line.{is_feed, texts};

use crate::controls::{LANES, first_mark};
use haya_yaml_text::white::tail;
use std::alloc::{AllocError, Global};
use std::simd::prelude::*;

// Which of the first bytes are line feeds: a bit for each.
#[inline(always)]
fn feeds(bytes: &[u8]) -> u64
    requires { LANES ≤ length bytes.now }
    ensures { result ≡ mask_l (map is_feed (take LANES bytes.now)) }
{
    u8x32::from_slice(bytes)
        .simd_eq(u8x32::splat(b'\n'))
        .to_bitmask()
}

// How many of the first bytes come before a line feed.
#[inline(always)]
fn sure(bytes: &[u8]) -> usize
    requires { LANES ≤ length bytes.now }
    ensures within { result ≤ LANES }
    ensures more { position_or_len is_feed bytes.now
        ≡ result + position_or_len is_feed (drop result bytes.now) }
{
    first_mark(feeds(bytes))
}

// How many bytes come before the first line feed: further ones may, too.
#[inline(always)]
fn sure_length(bytes: &[u8]) -> usize
    ensures within { result ≤ length bytes.now }
    ensures more { position_or_len is_feed bytes.now
        ≡ result + position_or_len is_feed (drop result bytes.now) }
{
    let mut count = 0;
    'lanes: while bytes.len() - count >= LANES {
        let more = sure(&bytes[count..]);
        count += more;
        if more < LANES {
            return count;
        }
    }
    count
}

// How many bytes come before the first line feed.
fn line_length(bytes: &[u8]) -> usize
    ensures { result ≡ position_or_len is_feed bytes.now }
{
    let mut count = sure_length(bytes);
    'bytes: while count < bytes.len() && bytes[count] != b'\n' {
        count += 1;
    }
    count
}

/// A text without the carriage return at its end.
pub(crate) fn ended(text: &str) -> &str
    ensures { result.now ≡ ended text.now }
{
    let bytes = text.as_bytes();
    if bytes.is_empty() || bytes[bytes.len() - 1] != b'\r' {
        return text;
    }
    let (front, _) = text.split_at(bytes.len() - 1);
    front
}

// The first line of a text, and what follows it.
fn first_line(text: &str) -> (&str, &str)
    requires { 0 < length text.now }
    ensures lines { lines text.now ≡ result.0.now ∷ lines result.1.now }
    ensures fewer { length result.1.now < length text.now }
{
    let (line, rest) = text.split_at(line_length(text.as_bytes()));
    if rest.is_empty() {
        return (line, rest);
    }
    (ended(line), tail(rest))
}

/// The lines of a text. The error: there was no memory for them.
pub(crate) fn lines_of(alloc: Global, text: &str) -> Result<Vec<&str>, AllocError>
    ensures lines { IfOk result (λ found. texts found.items ≡ lines text.now) }
{
    let mut found = Vec::new(alloc);
    let mut rest = text;
    'lines: while !rest.is_empty() {
        let (line, more) = first_line(rest);
        found.push(line)?;
        rest = more;
    }
    Ok(found)
}
