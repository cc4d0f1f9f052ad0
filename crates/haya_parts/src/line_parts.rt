//! A text, divided into its lines.
ghost use Rattle.std.specs.Prelude.{◌≡◌, ◌≤◌, ◌<◌, [], ℕ, List, IfSome, IfNone, drop, length, take};
ghost use Rattle.std.specs.Str.Lines.{strip_carriage_return};
ghost use Rattle.haya_parts.specs.Divided.{Begins};
ghost use Rattle.haya_parts.specs.LineParts.{IsLineEnd, LinesDivide};
ghost use Rattle.haya_line_stream.specs.Turns.{HasNoFeed};

use crate::divider::{Divider, Last, Next, Split};
use memchr::memchr;

/// Divides a text into its lines, empty ones too: each without its line feed, and the carriage
/// return in front of that.
#[derive(Clone, Copy, Debug, Drop, PartialEq, Eq)]
pub struct LineParts {
    // In so many of the first bytes of what is held is no line feed.
    looked: usize,
}

impl LineParts {
    /// In front of a text.
    pub fn new() -> LineParts
        ensures { Begins LinesDivide result [] [] [] }
    {
        LineParts { looked: 0 }
    }
}

/// The place of the first line feed, of which there is none in so many of the first bytes.
pub fn line_end(held: &[u8], looked: usize) -> Option<usize>
    requires within { looked ≤ length held.now }
    requires none { HasNoFeed (take looked held.now) }
    ensures feed { IfSome result (IsLineEnd held.now) }
    ensures none { IfNone result (HasNoFeed held.now) }
{
    let (_, rest) = held.split_at(looked);
    match memchr(b'\n', rest) {
        Some(at) => Some(looked + at),
        None => None,
    }
}

/// The line without the carriage return at its end, if it has one.
pub fn without_return(line: &[u8]) -> &[u8]
    ensures { result.now ≡ strip_carriage_return line.now }
{
    match line.split_last() {
        Some((b'\r', front)) => front,
        _ => line,
    }
}

impl Divider for LineParts {
    ghost use Rattle.haya_parts.specs.LineParts.{AreLines, LinesDivide};

    ghost divides = { LinesDivide };

    ghost are_parts = { AreLines };

    fn next<'t>(&mut self, held: &'t [u8]) -> Next<'t> {
        let Some(end) = line_end(held, self.looked) else {
            self.looked = held.len();
            return Next::More;
        };
        self.looked = 0;
        Next::Part(
            without_return(&held[..end]),
            Split {
                front: &held[..end + 1],
                behind: &held[end + 1..],
            },
        )
    }

    fn last<'t>(&self, held: &'t [u8]) -> Last<'t> {
        match line_end(held, self.looked) {
            Some(_) => Last::Broken,
            None if held.is_empty() => Last::Nothing,
            None => Last::Part(held),
        }
    }
}
