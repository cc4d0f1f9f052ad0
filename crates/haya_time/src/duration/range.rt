//! Ranges of durations.
ghost use Rattle.std.specs.Prelude.{◌≡◌, unwrap_or};
ghost use Rattle.std.specs.Str.{chars};
ghost use Rattle.haya_time.specs.DurationBack.{range_reads_back};
ghost use Rattle.haya_text.specs.Characters.{hyphen};
ghost use Rattle.haya_time.specs.DurationReading.{longer_range, range_read};
ghost use Rattle.haya_time.specs.TextFront.{behind};

use super::front::Front;
use super::scan::skip_hyphens;
use super::{Duration, DurationError};
use crate::text::{behind, is_blank};
use haya_text::{OutOfMemory, ReadText, TryClone};
use std::alloc::Global;
use std::str::FromStr;

/// A stretch of time, from a start to an end.
#[derive(Clone, Copy, Debug, PartialEq, Eq, Hash)]
pub struct DurationRange {
    /// Where it begins.
    pub start: Duration,
    /// Where it ends.
    pub end: Duration,
}

impl DurationRange {
    /// The range from the start to the end, or to the start where there is no end.
    pub fn new(start: Duration, end: Option<Duration>) -> DurationRange
        ensures { result ≡ record { start = start; end = unwrap_or end start } }
    {
        DurationRange {
            start,
            end: end.unwrap_or(start),
        }
    }

    /// Whether the printed text reads as this range again: both durations do.
    pub fn reads_back(&self) -> bool
        ensures { result ≡ range_reads_back self.now }
    {
        self.start.reads_back() && self.end.reads_back()
    }

    // The range from a start to the end that stands behind a hyphen or more.
    fn to_end(start: Duration, rest: &str) -> Result<DurationRange, DurationError>
        ensures { result ≡ longer_range start (behind hyphen (chars rest.now)) }
    {
        let Some(tail) = behind(rest, '-') else {
            return Err(DurationError::Malformed);
        };
        let end = skip_hyphens(tail).parse::<Duration>()?;
        Ok(DurationRange { start, end })
    }
}

impl FromStr for DurationRange {
    type Err = DurationError;

    ghost use Rattle.std.specs.Prelude.{◌≡◌};
    ghost use Rattle.std.specs.Str.{chars};
    ghost use Rattle.haya_time.specs.DurationReading.{range_read};

    ghost from_str_gives = { λ text result. result ≡ range_read (chars text) };

    /// The range that the text writes: a duration, or two with one or more hyphens
    /// between. `Malformed` if the text hasn't this form, `TooLarge` if a duration is. A
    /// start that is too large is answered before what follows its fraction, or the hyphen
    /// behind its seconds, is looked at.
    fn from_str(text: &str) -> Result<DurationRange, DurationError> {
        let Some(front) = Front::take(text) else {
            return Err(DurationError::Malformed);
        };
        if !front.is_start() {
            return Err(DurationError::Malformed);
        }
        let start = front.duration.check_bounds()?;
        if is_blank(front.rest) {
            return Ok(DurationRange::new(start, None));
        }
        DurationRange::to_end(start, front.rest)
    }
}

impl ReadText for DurationRange {
    type Fault = DurationError;

    ghost use Rattle.std.specs.Result.{result_ok};
    ghost use Rattle.std.specs.Str.{chars};
    ghost use Rattle.haya_time.specs.DurationReading.{range_read};
    ghost use Rattle.haya_time.specs.declared.duration.range.DurationRange.{DurationRange};

    ghost Value = { DurationRange };

    ghost value = { λ r. r };

    ghost reads = { λ text. result_ok (range_read (chars text)) };

    /// The range that the text writes, as `FromStr` reads it. It takes no memory.
    fn from_str(_alloc: Global, text: &str) -> Result<DurationRange, DurationError>
        ensures { result ≡ range_read (chars text.now) }
    {
        text.parse()
    }
}

impl TryClone for DurationRange {
    ghost use Rattle.haya_time.specs.declared.duration.range.DurationRange as range;

    ghost View = { range.DurationRange };

    ghost view = { λ r. r };

    /// The same range. It takes no memory.
    fn try_clone(&self, _alloc: Global) -> Result<DurationRange, OutOfMemory>
        ensures { result ≡ Ok self.now }
    {
        Ok(*self)
    }
}
