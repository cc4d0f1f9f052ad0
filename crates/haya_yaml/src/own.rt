//! Lines that belong to the entry above them.
ghost use Rattle.std.specs.Prelude.{◌≡◌, ◌≤◌, ◌&&◌, ◌∷◌, [], MatchOption, drop, length, take, true};
ghost use Rattle.haya_yaml.specs.Block.{cut, entries_of};
ghost use Rattle.haya_yaml.specs.Line.{is_dash_at, texts};
ghost use Rattle.haya_yaml.specs.Spans.{have_spans, is_inside};

use crate::line::is_dash_at;
use crate::spans::Span;

/// Lines with their spans.
#[derive(Clone, Copy, Drop)]
pub(crate) struct SpannedLines<'l, 'a> {
    /// The lines.
    pub(crate) texts: &'l [&'a str],
    /// How deep each is, and how many behind it are as deep.
    pub(crate) spans: &'l [Span],
    ghost spanned: { have_spans spans.now texts.now ≡ true },
}

impl<'l, 'a> SpannedLines<'l, 'a> {
    /// The first lines, as many as this number says, and the others.
    pub(crate) fn split_at(self, count: usize) -> (SpannedLines<'l, 'a>, SpannedLines<'l, 'a>)
        requires { count ≤ length self.texts.now }
        ensures front { result.0.texts.now ≡ take count self.entry.texts.now }
        ensures back { result.1.texts.now ≡ drop count self.entry.texts.now }
    {
        let (own, rest) = self.texts.split_at(count);
        let (own_spans, rest_spans) = self.spans.split_at(count);
        (
            SpannedLines {
                texts: own,
                spans: own_spans,
            },
            SpannedLines {
                texts: rest,
                spans: rest_spans,
            },
        )
    }

    /// The first line, and those behind it.
    pub(crate) fn split_first(self) -> Option<(&'a str, SpannedLines<'l, 'a>)>
        ensures { MatchOption result (self.entry.texts.now ≡ [])
            (λ parts. self.entry.texts.now ≡ parts.0 ∷ parts.1.texts.now) }
    {
        if self.texts.is_empty() {
            return None;
        }
        let line = self.texts[0];
        let (_, rest) = self.split_at(1);
        Some((line, rest))
    }
}

// Whether a line this deep belongs to an entry above it that begins at the column.
fn is_inside(column: usize, depth: Option<usize>) -> bool
    ensures { result ≡ is_inside column depth }
{
    match depth {
        None => true,
        Some(indent) => column < indent,
    }
}

// Whether a line is an item of a list that belongs to an entry at the item's own column.
fn is_own_item(dashes: bool, column: usize, line: &str) -> bool
    ensures { result ≡ (dashes && is_dash_at column line.now) }
{
    dashes && is_dash_at(column, line)
}

/// How many of the lines belong to the entry above them, which begins at this column. Lines that are
/// as deep as one in front of them are passed with it.
pub(crate) fn own_lines(
    map: bool,
    dashes: bool,
    column: usize,
    lines: SpannedLines<'_, '_>,
) -> usize
    ensures bound { result ≤ length lines.entry.texts.now }
    ensures cut { cut map dashes column (texts lines.entry.texts.now) ≡ record {
      front = texts (take result lines.entry.texts.now);
      entries = entries_of map column (texts (drop result lines.entry.texts.now));
    } }
{
    let mut count = 0;
    'lines: while count < lines.texts.len() {
        let span = lines.spans[count];
        if is_inside(column, span.depth) {
            count = count.saturating_add(span.more).saturating_add(1);
            continue;
        }
        if !is_own_item(dashes, column, lines.texts[count]) {
            return count;
        }
        count += 1;
    }
    lines.texts.len()
}
