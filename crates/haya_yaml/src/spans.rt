//! How deep lines are, and how many of those behind one are as deep.
ghost use Rattle.std.specs.Prelude.{◌≡◌, ◌+◌, ◌<◌, IfOk, drop, length, slice_index_or, true};
ghost use Rattle.haya_yaml.specs.Line.{texts};
ghost use Rattle.haya_yaml.specs.Spans.{are_as_deep, depth_of, have_spans, is_as_deep};
ghost use Rattle.haya_yaml.specs.declared.spans.Span.{Span as SpanData};

use crate::line::{begins_letter, is_closer, is_skipped};
use haya_yaml_text::white::split_blanks;
use std::alloc::{AllocError, Global};

/// How deep a line is, and how many lines right behind it are as deep or deeper.
#[derive(Clone, Copy, Debug, Drop, PartialEq, Eq)]
pub struct Span {
    /// Its indent; none where the line belongs to each entry above it.
    pub depth: Option<usize>,
    /// How many lines.
    pub more: usize,
}

// How deep a line is.
fn depth_of(line: &str) -> Option<usize>
    ensures { result ≡ depth_of line.now }
{
    let (spaces, rest) = split_blanks(false, line);
    if begins_letter(rest.as_bytes()) {
        return Some(spaces.len());
    }
    if is_skipped(line) || is_closer(line) {
        return None;
    }
    Some(spaces.len())
}

// Whether the second is as deep as the first, or deeper.
fn is_as_deep(first: Option<usize>, second: Option<usize>) -> bool
    ensures { result ≡ is_as_deep first second }
{
    match (first, second) {
        (_, None) => true,
        (None, Some(_)) => false,
        (Some(least), Some(indent)) => least <= indent,
    }
}

// How deep each line is. The error: there was no memory for it.
fn depths_of(alloc: Global, lines: &[&str]) -> Result<Vec<Span>, AllocError>
    ensures { IfOk result (λ spans. have_spans spans.items lines.now ≡ true) }
{
    let mut spans = Vec::with_capacity(alloc, lines.len())?;
    'lines: for line in lines {
        spans.push(Span {
            depth: depth_of(line),
            more: 0,
        })?;
    }
    Ok(spans)
}

// How many lines right behind the one at this place are as deep. Those that a line's span has are
// passed together with it.
fn as_deep(lines: &[&str], spans: &[Span], place: usize) -> usize
    requires spans { have_spans spans.now lines.now ≡ true }
    requires within { place < length spans.now }
    ensures { (none : SpanData) → are_as_deep (slice_index_or spans.now place none).depth result
        (texts (drop (place + 1) lines.now)) ≡ true }
{
    let depth = spans[place].depth;
    let mut next = place + 1;
    'lines: while next < spans.len() && is_as_deep(depth, spans[next].depth) {
        next = next.saturating_add(spans[next].more).saturating_add(1);
    }
    next - place - 1
}

/// The spans of lines. The error: there was no memory for them.
pub(crate) fn spans_of(alloc: Global, lines: &[&str]) -> Result<Vec<Span>, AllocError>
    ensures { IfOk result (λ spans. have_spans spans.items lines.now ≡ true) }
{
    let mut spans = depths_of(alloc, lines)?;
    let mut place = spans.len();
    'spans: while place > 0 {
        place -= 1;
        spans[place].more = as_deep(lines, spans.as_slice(), place);
    }
    Ok(spans)
}
