//! The texts of scalars.
ghost use Rattle.std.specs.Prelude.{◌≡◌, ◌+◌, ◌<◌, ◌≤◌, ◌^◌, ◌++◌, [], drop, length, replicate};
ghost use Rattle.std.specs.Prelude.{string_bytes, take, IfOk, OnOk, Err, None, map};
ghost use Rattle.std.specs.Prelude.{◌==◌, if◌then◌else◌};
ghost use Rattle.std.specs.Int.{w64, trailing_zeros};
ghost use Rattle.std.specs.Simd.Lanes.{mask_l};
ghost use Rattle.haya_yaml_text.specs.Lanes.{may_stop, pairs};
ghost use Rattle.haya_yaml_text.specs.declared.scalar.Style.TheVariants as Style;
ghost use Rattle.std.specs.Prelude.{IsTrue, Some, false, true, ℕ, List, Bool};
ghost use Rattle.haya_yaml_text.specs.Scalars.{behind, fold_break, gap_text, is_apart, more_feeds};
ghost use Rattle.haya_yaml_text.specs.Scalars.{scalar, scalar_of, without_comment, may_end};
ghost use Rattle.haya_yaml_text.specs.Signs.{is_gap};
ghost use Rattle.haya_yaml_text.specs.Turns.{Shortens, Turned, feeds, goes_on, is_ordinary};
ghost use Rattle.haya_yaml_text.specs.Turns.{plain_length, run, stops};

use crate::fault::{FaultKind, ReadError, Refusal};
use crate::sign::{Sign, sign_of};
use crate::white::{begins_with, behind, is_hash, line_end, split_blanks};
use std::alloc::{AllocError, Global};
use std::simd::prelude::*;

// How much room a scalar's text is given at first: most are no longer.
const ROOM: usize = 256;

/// An empty text with room for the scalar that begins this text, where that is short. The error:
/// there was no memory for it.
pub fn room_for(alloc: Global, text: &str) -> Result<String, AllocError>
    ensures { IfOk result (λ room. string_bytes room ≡ []) }
{
    String::with_capacity(alloc, text.len().min(ROOM))
}

/// How a scalar is written.
#[derive(Clone, Copy, Debug, Drop, PartialEq, Eq)]
pub enum Style {
    /// Without quotes.
    Plain,
    /// Without quotes, in brackets.
    PlainInBrackets,
    /// In single quotes.
    SingleQuoted,
    /// In double quotes.
    DoubleQuoted,
}

/// What comes before a sign in a scalar.
#[derive(Clone, Copy, Debug, Drop, PartialEq, Eq)]
pub enum Fold {
    /// Something on its line.
    Inside,
    /// The end of a line, and so many empty lines.
    Feeds(usize),
    /// A `\`, the end of its line, and so many empty lines.
    Joined(usize),
}

/// Adds so many line feeds. The error: there was no memory for them.
pub fn push_feeds(out: &mut String, count: usize) -> Result<(), AllocError>
    ensures ok { OnOk result (string_bytes out.new ≡ string_bytes out.old ++ replicate count 10) }
{
    let mut left = count;
    'feeds: while left > 0 {
        out.push('\n')?;
        left -= 1;
    }
    Ok(())
}

/// Adds what stands between two parts, with so many empty lines between them: a space where there
/// is none, or a line feed for each. The error: there was no memory for it.
pub fn push_fold(out: &mut String, count: usize) -> Result<(), AllocError>
    ensures ok { OnOk result (string_bytes out.new ≡ string_bytes out.old ++ fold_break count) }
{
    if count == 0 {
        out.push(' ')?;
        return Ok(());
    }
    push_feeds(out, count)?;
    Ok(())
}

// Adds what is read of the gap before a sign.
fn push_gap(out: &mut String, fold: Fold, white: &str) -> Result<(), AllocError>
    ensures ok { OnOk result (string_bytes out.new
        ≡ string_bytes out.old ++ gap_text fold white.now) }
{
    match fold {
        Fold::Inside => {
            out.push_str(white)?;
        }
        Fold::Feeds(count) => {
            push_fold(out, count)?;
        }
        Fold::Joined(count) => {
            push_feeds(out, count)?;
        }
    }
    Ok(())
}

// Whether white space or a line's end comes before.
fn is_apart(fold: Fold, white: &str) -> bool
    ensures { result ≡ is_apart fold white.now }
{
    match fold {
        Fold::Inside => !white.is_empty(),
        _ => true,
    }
}

// One more line end before.
fn more_feeds(fold: Fold) -> Fold
    requires { feeds fold + 1 < 2 ^ 64 }
    ensures { result ≡ more_feeds fold }
{
    match fold {
        Fold::Inside => Fold::Feeds(0),
        Fold::Feeds(count) => Fold::Feeds(count + 1),
        Fold::Joined(count) => Fold::Joined(count + 1),
    }
}

// How many bytes begin a text that stand for themselves, as its first sign does, with single spaces
// between them.
fn run(style: Style, text: &str) -> usize
    requires { 0 < length text.now }
    ensures { result ≡ run style text.now }
{
    let (_, rest) = text.as_bytes().split_at(1);
    1 + plain_length(style, rest)
}

// How many signs are looked at together.
const LANES: usize = 16;

// Which signs may not go on in a plain scalar before the next ones: a bit for each.
#[inline(always)]
fn doubtful(signs: u8x16, next: u8x16) -> u64
    ensures { result ≡ mask_l (map may_stop (pairs signs next)) }
{
    let special = signs.simd_le(u8x16::splat(b'#')) | signs.simd_eq(u8x16::splat(b':'));
    let alone = next.simd_le(u8x16::splat(b'#'))
        | next.simd_eq(u8x16::splat(b':'))
        | signs.simd_ne(u8x16::splat(b' '));
    (special & alone).to_bitmask()
}

// How many bits come before the first that is set, or `LANES` where none is.
#[inline(always)]
fn first_mark(marks: u64) -> usize
    ensures { result ≡ if marks == 0 then LANES else trailing_zeros w64 marks }
{
    if marks == 0 {
        LANES
    } else {
        marks.trailing_zeros() as usize
    }
}

// How many of the first signs come before one that may not go on in a plain scalar.
#[inline(always)]
fn sure(bytes: &[u8]) -> usize
    requires { LANES < length bytes.now }
    ensures within { result ≤ LANES }
    ensures more { plain_length Style.Plain bytes.now
        ≡ result + plain_length Style.Plain (drop result bytes.now) }
{
    let signs = u8x16::from_slice(bytes);
    let next = u8x16::from_slice(&bytes[1..]);
    first_mark(doubtful(signs, next))
}

// How many signs begin a text that go on in a plain scalar: further ones may, too.
#[inline(always)]
fn sure_length(bytes: &[u8]) -> usize
    ensures within { result ≤ length bytes.now }
    ensures more { plain_length Style.Plain bytes.now
        ≡ result + plain_length Style.Plain (drop result bytes.now) }
{
    let mut count = 0;
    'lanes: while bytes.len() - count > LANES {
        let more = sure(&bytes[count..]);
        count += more;
        if more < LANES {
            return count;
        }
    }
    'signs: while goes_on(Style::Plain, &bytes[count..]) {
        count += 1;
    }
    count
}

// The same in a scalar of this style.
#[inline(always)]
fn sure_in(style: Style, bytes: &[u8]) -> usize
    ensures within { result ≤ length bytes.now }
    ensures more { plain_length style bytes.now
        ≡ result + plain_length style (drop result bytes.now) }
{
    match style {
        Style::Plain => sure_length(bytes),
        _ => 0,
    }
}

/// How many bytes begin a text that stand for themselves, and single spaces between such bytes.
pub(crate) fn plain_length(style: Style, bytes: &[u8]) -> usize
    ensures is { result ≡ plain_length style bytes.now }
    ensures bound { result ≤ length bytes.now }
{
    let mut count = 0;
    let mut rest = bytes;
    'signs: loop {
        let sure = sure_in(style, rest);
        let (_, left) = rest.split_at(sure);
        if !goes_on(style, left) {
            return count + sure;
        }
        (_, rest) = left.split_at(1);
        count += sure + 1;
    }
}

/// Whether a text is a scalar without quotes in which each byte stands for itself. Where it is and
/// the answer is no, the scalar is only read more slowly.
pub(crate) fn is_alone(style: Style, text: &str) -> bool
    ensures { IsTrue result → scalar_of true style text.now ≡ Some (text.now, []) }
{
    may_end(style) && plain_length(style, text.as_bytes()) == text.len()
}

// Whether the first byte stands for itself, or is a space before one that does.
fn goes_on(style: Style, bytes: &[u8]) -> bool
    ensures { result ≡ goes_on style bytes.now }
{
    match bytes {
        [] => false,
        [byte] => is_ordinary(style, *byte),
        [byte, next, ..] => {
            is_ordinary(style, *byte) || (*byte == b' ' && is_ordinary(style, *next))
        }
    }
}

fn is_ordinary(style: Style, byte: u8) -> bool
    ensures { result ≡ is_ordinary style byte }
{
    if byte >= b'a' && byte <= b'z' {
        return true;
    }
    match style {
        Style::Plain => !matches!(byte, b' ' | b'\t' | b'\n' | b'#' | b':'),
        Style::PlainInBrackets => !matches!(
            byte,
            b' ' | b'\t' | b'\n' | b'#' | b':' | b',' | b'[' | b']' | b'{' | b'}'
        ),
        Style::SingleQuoted => !matches!(byte, b' ' | b'\t' | b'\n' | b'\''),
        Style::DoubleQuoted => !matches!(byte, b' ' | b'\t' | b'\n' | b'"' | b'\\'),
    }
}

/// What is left of a text once a part of a scalar was read.
#[derive(Drop)]
pub enum Turn<'a> {
    /// The scalar goes on.
    On(Fold, &'a str),
    /// What follows the scalar.
    Done(&'a str),
}

// A text without the comment that it begins with.
fn without_comment(text: &str) -> &str
    ensures { result.now ≡ without_comment text.now }
{
    if is_hash(text) { line_end(text) } else { text }
}

// Whether a scalar may end anywhere.
fn may_end(style: Style) -> bool
    ensures { result ≡ may_end style }
{
    match style {
        Style::Plain | Style::PlainInBrackets => true,
        Style::SingleQuoted | Style::DoubleQuoted => false,
    }
}

// Whether nothing more can belong to a scalar.
fn stops(lines: bool, bytes: &[u8]) -> bool
    ensures { result ≡ stops lines bytes.now }
{
    match bytes {
        [] => true,
        [byte, ..] => *byte == b'\n' && !lines,
    }
}

// Adds the sign that begins a text, and those behind it that stand for themselves.
fn push_run<'a>(out: &mut String, style: Style, text: &'a str) -> Result<&'a str, AllocError>
    requires { 0 < length text.now }
    ensures ok { IfOk result (λ rest. (rest.now ≡ drop (run style text.now) text.now)
        × (string_bytes out.new ≡ string_bytes out.old ++ take (run style text.now) text.now)
        × (length rest.now < length text.now)) }
{
    let (front, rest) = text.split_at(run(style, text));
    out.push_str(front)?;
    Ok(rest)
}

// Adds what the sign that begins a text is, and the gap before it.
fn put_sign<'a>(
    out: &mut String,
    lines: bool,
    style: Style,
    fold: Fold,
    white: &str,
    text: &'a str,
) -> Result<Turn<'a>, ReadError>
    requires some { 0 < length text.now }
    requires solid { is_gap text.now ≡ false }
    requires fits { length text.now < 2 ^ 64 }
    ensures ok { IfOk result (λ t. Turned lines style t (string_bytes out.new)
        (behind (string_bytes out.old) (scalar lines style 0 fold white.now text.now))) }
    ensures shorter { IfOk result (λ t. Shortens t 0 (length text.now)) }
    ensures refused { (f : Refusal) → result ≡ Err (ReadError.Refused f)
        → scalar lines style 0 fold white.now text.now ≡ None }
{
    match sign_of(lines, style, is_apart(fold, white), text) {
        Sign::Ends => Ok(Turn::Done(without_comment(text))),
        Sign::Closes => {
            push_gap(out, fold, white)?;
            Ok(Turn::Done(behind(1, text)))
        }
        Sign::Wrong => Err(Refusal::here(FaultKind::Escape, text)),
        Sign::Stands => {
            push_gap(out, fold, white)?;
            let rest = push_run(out, style, text)?;
            Ok(Turn::On(Fold::Inside, rest))
        }
        Sign::Joins => {
            push_gap(out, fold, white)?;
            Ok(Turn::On(Fold::Joined(0), behind(2, text)))
        }
        Sign::Means(c, count) => {
            push_gap(out, fold, white)?;
            out.push(c)?;
            Ok(Turn::On(Fold::Inside, behind(count + 1, text)))
        }
    }
}

// Adds a part of a scalar, at whose quote so many bytes were left.
fn take_turn<'a>(
    out: &mut String,
    lines: bool,
    style: Style,
    fold: Fold,
    begin: usize,
    text: &'a str,
) -> Result<Turn<'a>, ReadError>
    requires { feeds fold + length text.now < 2 ^ 64 }
    ensures ok { IfOk result (λ t. Turned lines style t (string_bytes out.new)
        (behind (string_bytes out.old) (scalar lines style 0 fold [] text.now))) }
    ensures shorter { IfOk result (λ t. Shortens t (feeds fold) (length text.now)) }
    ensures refused { (f : Refusal) → result ≡ Err (ReadError.Refused f)
        → scalar lines style 0 fold [] text.now ≡ None }
{
    let (white, more) = split_blanks(true, text);
    if stops(lines, more.as_bytes()) {
        if !may_end(style) {
            return Err(Refusal::at(FaultKind::Unclosed, begin));
        }
        return Ok(Turn::Done(more));
    }
    if begins_with(b'\n', more.as_bytes()) {
        return Ok(Turn::On(more_feeds(fold), behind(1, more)));
    }
    put_sign(out, lines, style, fold, white, more)
}

/// Adds the text of the scalar that begins a text, behind its quote if it has one, and returns what
/// follows it: `lines` where it may go on over lines.
///
/// `Refused`: it has a quote that isn't closed, or an escape that means nothing. `OutOfMemory`:
/// there was no memory for it.
pub fn read_scalar<'a>(
    out: &mut String,
    lines: bool,
    style: Style,
    text: &'a str,
) -> Result<&'a str, ReadError>
    ensures ok { IfOk result (λ rest. behind (string_bytes out.old)
        (scalar_of lines style text.now) ≡ Some (string_bytes out.new, rest.now)) }
    ensures refused { (f : Refusal) → result ≡ Err (ReadError.Refused f)
        → scalar_of lines style text.now ≡ None }
{
    let begin = text.len().saturating_add(1);
    let mut fold = Fold::Inside;
    let mut rest = text;
    'turns: loop {
        match take_turn(out, lines, style, fold, begin, rest)? {
            Turn::On(next, more) => {
                fold = next;
                rest = more;
            }
            Turn::Done(more) => return Ok(more),
        }
    }
}
