//! Block scalars.
ghost use Rattle.std.specs.Prelude.{◌≡◌, ◌+◌, ◌<◌, ◌≤◌, ◌++◌, ◌∷◌, drop, length, max, option_map};
ghost use Rattle.std.specs.Prelude.{replicate, slice_index, string_bytes, OnOk};
ghost use Rattle.std.specs.Prelude.{Err, None, Some, true};
ghost use Rattle.json.specs.Json.{string};
ghost use Rattle.haya_yaml_text.specs.Writing.{KeepsBefore};
ghost use Rattle.haya_yaml.specs.Line.{indent, texts};
ghost use Rattle.haya_yaml.specs.Literal.{behind_digit, behind_sign, block_rest, block_text};
ghost use Rattle.haya_yaml.specs.Literal.{break_before, end_of, header, header_end, is_bare};
ghost use Rattle.haya_yaml.specs.Literal.{is_content, is_digit, is_folded, is_inside, is_spaced};
ghost use Rattle.haya_yaml.specs.Literal.{last_of, width, width_if, width_of};
ghost use Rattle.haya_yaml.specs.Saying.{Adds, said};

use crate::line::{are_skipped, fault};
use haya_yaml_text::fault::{FaultKind, ReadError, Refusal};
use haya_yaml_text::output::Output;
use haya_yaml_text::scalar::{push_feeds, push_fold};
use haya_yaml_text::white::{blanks, is_end, is_gap, is_hash, is_white, skip, tail};
use std::alloc::AllocError;

/// What becomes of the line feeds at the end of a block scalar.
#[derive(Clone, Copy, Debug, Drop, PartialEq, Eq)]
pub enum Chomp {
    /// None stays.
    Strip,
    /// One stays, if there is a text.
    Clip,
    /// All stay.
    Keep,
}

/// What comes before a place in a block scalar.
#[derive(Clone, Copy, Debug, Drop, PartialEq, Eq)]
pub enum Last {
    /// No line with a text.
    Start,
    /// A line that may be folded with the next.
    Solid,
    /// A line that may not.
    Spaced,
}

// Whether nothing stands behind the mark and its signs, or a comment.
fn header_end(chomp: Chomp, digit: usize, text: &str) -> Option<(Chomp, usize)>
    ensures { result ≡ header_end chomp digit text.now }
{
    if is_gap(text.as_bytes()) && is_end(skip(true, text)) {
        Some((chomp, digit))
    } else {
        None
    }
}

fn is_digit(byte: u8) -> bool
    ensures { result ≡ is_digit byte }
{
    b'0' < byte && byte <= b'9'
}

fn behind_sign(chomp: Chomp, text: &str) -> Option<(Chomp, usize)>
    ensures { result ≡ behind_sign chomp text.now }
{
    match text.as_bytes() {
        [] => Some((chomp, 0)),
        [byte, ..] => {
            if is_digit(*byte) {
                return header_end(chomp, (*byte - b'0') as usize, tail(text));
            }
            header_end(chomp, 0, text)
        }
    }
}

fn behind_digit(digit: usize, text: &str) -> Option<(Chomp, usize)>
    ensures { result ≡ behind_digit digit text.now }
{
    match text.as_bytes() {
        [] => Some((Chomp::Clip, digit)),
        [b'-', ..] => header_end(Chomp::Strip, digit, tail(text)),
        [b'+', ..] => header_end(Chomp::Keep, digit, tail(text)),
        _ => header_end(Chomp::Clip, digit, text),
    }
}

// What the signs behind `|` or `>` ask for.
fn header(text: &str) -> Option<(Chomp, usize)>
    ensures { result ≡ header text.now }
{
    match text.as_bytes() {
        [] => Some((Chomp::Clip, 0)),
        [b'-', ..] => behind_sign(Chomp::Strip, tail(text)),
        [b'+', ..] => behind_sign(Chomp::Keep, tail(text)),
        [byte, ..] => {
            if is_digit(*byte) {
                return behind_digit((*byte - b'0') as usize, tail(text));
            }
            header_end(Chomp::Clip, 0, text)
        }
    }
}

// Whether an indent is deeper than the entry that is there.
fn is_inside(edge: Option<usize>, indent: usize) -> bool
    ensures { result ≡ is_inside edge indent }
{
    match edge {
        None => indent > 0,
        Some(column) => column < indent,
    }
}

// Whether there are only spaces.
fn is_bare(line: &str) -> bool
    ensures { result ≡ is_bare line.now }
{
    skip(false, line).is_empty()
}

fn longer(a: usize, b: usize) -> usize
    ensures { result ≡ max a b }
{
    if a < b { b } else { a }
}

fn width_if(longest: usize, indent: usize) -> Option<usize>
    ensures { result ≡ width_if longest indent }
{
    if indent < longest { None } else { Some(indent) }
}

// How many spaces each line loses.
fn width(edge: Option<usize>, lines: &[&str]) -> Option<usize>
    ensures { result ≡ width edge 0 (texts lines.now) }
{
    let mut longest = 0;
    'lines: for line in lines {
        if !is_bare(line) {
            let indent = blanks(false, line);
            if is_inside(edge, indent) {
                return width_if(longest, indent);
            }
            return Some(longest);
        }
        longest = longer(longest, line.len());
    }
    Some(longest)
}

// The width that a digit asks for, or that of the lines.
fn width_of(edge: Option<usize>, digit: usize, lines: &[&str]) -> Option<usize>
    ensures { result ≡ width_of edge digit (texts lines.now) }
{
    if digit == 0 {
        return width(edge, lines);
    }
    match edge {
        None => Some(digit),
        Some(column) => column.checked_add(digit),
    }
}

// Whether a text begins with white space.
fn is_spaced(text: &str) -> bool
    ensures { result ≡ is_spaced text.now }
{
    match text.as_bytes() {
        [] => false,
        [byte, ..] => is_white(*byte),
    }
}

fn last_of(folded: bool, text: &str) -> Last
    ensures { result ≡ last_of folded text.now }
{
    if folded && !is_spaced(text) {
        Last::Solid
    } else {
        Last::Spaced
    }
}

// Whether the line is content.
fn is_content(edge: Option<usize>, width: usize, line: &str) -> bool
    ensures { result ≡ is_content edge width line.now }
{
    if is_bare(line) {
        return true;
    }
    let indent = blanks(false, line);
    is_inside(edge, indent) && width <= indent
}

// A line without its first signs, which are spaces.
fn behind(width: usize, line: &str) -> &str
    requires { width < length line.now → width ≤ indent line.now }
    ensures { result.now ≡ drop width line.now }
{
    if line.len() <= width {
        return "";
    }
    let (_, rest) = line.split_at(width);
    rest
}

// Adds one line feed and so many more.
fn push_more_feeds(out: &mut String, more: usize) -> Result<(), AllocError>
    ensures ok { OnOk result
        (string_bytes out.new ≡ string_bytes out.old ++ 10 ∷ replicate more 10) }
{
    out.push('\n')?;
    push_feeds(out, more)?;
    Ok(())
}

// Adds what comes before a line.
fn push_before(out: &mut String, last: Last, feeds: usize, text: &str) -> Result<(), AllocError>
    ensures ok { OnOk result
        (string_bytes out.new ≡ string_bytes out.old ++ break_before last feeds text.now) }
{
    match last {
        Last::Start => push_feeds(out, feeds),
        Last::Solid => {
            if is_spaced(text) {
                return push_more_feeds(out, feeds);
            }
            push_fold(out, feeds)
        }
        Last::Spaced => push_more_feeds(out, feeds),
    }
}

// Adds what comes at the end.
fn push_end(out: &mut String, chomp: Chomp, last: Last, feeds: usize) -> Result<(), AllocError>
    ensures ok { OnOk result
        (string_bytes out.new ≡ string_bytes out.old ++ end_of chomp last feeds) }
{
    match (chomp, last) {
        (Chomp::Strip, _) | (Chomp::Clip, Last::Start) => Ok(()),
        (Chomp::Clip, _) => push_feeds(out, 1),
        (Chomp::Keep, Last::Start) => push_feeds(out, feeds),
        (Chomp::Keep, _) => push_more_feeds(out, feeds),
    }
}

// A line that is no content, and behind which not all lines are skipped: its tab, or what follows
// its spaces.
fn outside(number: usize, line: &str) -> ReadError {
    let rest = skip(false, line);
    let kind = match rest.as_bytes() {
        [b'\t', ..] => FaultKind::Tab,
        _ => FaultKind::Indent,
    };
    fault(kind, number, rest)
}

// Adds the text of the lines of a block scalar, which stand behind the line of this number.
fn push_lines(
    out: &mut String,
    folded: bool,
    chomp: Chomp,
    edge: Option<usize>,
    width: usize,
    head: usize,
    lines: &[&str],
) -> Result<(), ReadError>
    ensures ok { OnOk result (Adds (block_rest folded chomp edge width Last.Start 0
        (texts lines.now)) (string_bytes out.old) (string_bytes out.new)) }
    ensures refused { (f : Refusal) → result ≡ Err (ReadError.Refused f)
        → block_rest folded chomp edge width Last.Start 0 (texts lines.now) ≡ None }
{
    let mut last = Last::Start;
    let mut feeds = 0;
    let mut place = 0;
    'lines: while place < lines.len() {
        let line = lines[place];
        place += 1;
        if !is_content(edge, width, line) {
            let (_, more) = lines.split_at(place);
            if !(is_hash(skip(false, line)) && are_skipped(more)) {
                return Err(outside(head.saturating_add(place), line));
            }
            push_end(out, chomp, last, feeds)?;
            return Ok(());
        }
        let text = behind(width, line);
        if text.is_empty() {
            feeds += 1;
            continue;
        }
        push_line(out, last, feeds, text)?;
        last = last_of(folded, text);
        feeds = 0;
    }
    push_end(out, chomp, last, feeds)?;
    Ok(())
}

// Adds a line and what comes before it.
fn push_line(out: &mut String, last: Last, feeds: usize, text: &str) -> Result<(), AllocError>
    ensures ok { OnOk result (string_bytes out.new
        ≡ string_bytes out.old ++ (break_before last feeds text.now ++ text.now)) }
{
    push_before(out, last, feeds, text)?;
    out.push_str(text)?;
    Ok(())
}

// Whether the text begins with `>`.
fn is_folded(text: &str) -> bool
    ensures { result ≡ is_folded text.now }
{
    match text.as_bytes() {
        [] => false,
        [byte, ..] => *byte == b'>',
    }
}

// The first space too many of a line of spaces that comes before the first line with a text.
fn blank(head: usize, text: &str, lines: &[&str]) -> ReadError {
    let mut indent = 0;
    'firsts: for line in lines {
        if !is_bare(line) {
            indent = blanks(false, line);
            break;
        }
    }
    let mut number = head;
    'lines: for line in lines {
        number = number.saturating_add(1);
        if line.len() > indent {
            return ReadError::Refused(Refusal {
                kind: FaultKind::Blank,
                line: number,
                left: line.len() - indent,
            });
        }
    }
    fault(FaultKind::Header, head, text)
}

/// Writes the text of a block scalar, whose first line, of this number, is this from its mark on.
///
/// `Refused`: the signs behind the mark ask for nothing, or a line isn't indented as the text is.
/// `OutOfMemory`: there was no memory for it.
pub(crate) fn write_block(
    out: &mut Output,
    edge: Option<usize>,
    head: usize,
    text: &str,
    lines: &[&str],
) -> Result<(), ReadError>
    requires some { 0 < length text.now }
    requires ascii { slice_index text.now 0 < 128 }
    ensures ok { OnOk result (said out.old.writer.tokens
        (option_map string (block_text edge text.now (texts lines.now)))
        ≡ Some out.new.writer.tokens) }
    ensures before { OnOk result (KeepsBefore out.old.writer out.new.writer) }
    ensures refused { (f : Refusal) → result ≡ Err (ReadError.Refused f)
        → option_map string (block_text edge text.now (texts lines.now)) ≡ None }
{
    let Some((chomp, digit)) = header(tail(text)) else {
        return Err(fault(FaultKind::Header, head, text));
    };
    let Some(width) = width_of(edge, digit, lines) else {
        return Err(blank(head, text, lines));
    };
    let mut content = String::new(out.alloc);
    push_lines(
        &mut content,
        is_folded(text),
        chomp,
        edge,
        width,
        head,
        lines,
    )?;
    out.writer.string(content.as_str())?;
    Ok(())
}
