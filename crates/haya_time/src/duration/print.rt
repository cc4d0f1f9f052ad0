//! Durations and ranges as they are printed.
use super::{Duration, DurationRange};
use std::fmt;

// Days with their colon, where there are some.
#[derive(Clone, Copy)]
struct Days(u32);

impl fmt::Display for Days {
    ghost use Rattle.std.specs.Prelude.{Some};
    ghost use Rattle.haya_time.specs.DurationPrint.{days_text};

    ghost output = { λ days. Some (days_text days.0) };

    fn fmt<W: fmt::Write>(&self, f: &mut fmt::Formatter<W>) -> fmt::Result {
        let days = self.0;
        if days > 0 {
            write!(f, "{days}:")
        } else {
            Ok(())
        }
    }
}

// Hours with their colon, where there are some, or days before them.
#[derive(Clone, Copy)]
struct Hours {
    hours: u32,
    has_days: bool,
}

impl fmt::Display for Hours {
    ghost use Rattle.std.specs.Prelude.{Some};
    ghost use Rattle.haya_time.specs.DurationPrint.{hours_text};

    ghost output = { λ h. Some (hours_text h.has_days h.hours) };

    fn fmt<W: fmt::Write>(&self, f: &mut fmt::Formatter<W>) -> fmt::Result {
        let hours = self.hours;
        if self.has_days || hours > 0 {
            write!(f, "{hours:02}:")
        } else {
            Ok(())
        }
    }
}

// Milliseconds behind their comma, where there are some.
#[derive(Clone, Copy)]
struct Milliseconds(u16);

impl fmt::Display for Milliseconds {
    ghost use Rattle.std.specs.Prelude.{Some};
    ghost use Rattle.haya_time.specs.DurationPrint.{fraction_text};

    ghost output = { λ ms. Some (fraction_text ms.0) };

    fn fmt<W: fmt::Write>(&self, f: &mut fmt::Formatter<W>) -> fmt::Result {
        let milliseconds = self.0;
        if milliseconds > 0 {
            write!(f, ",{milliseconds:03}")
        } else {
            Ok(())
        }
    }
}

/// Days and hours only where there are days, or hours; then minutes and seconds, in two digits or
/// more; milliseconds in three digits or more where there are some.
impl fmt::Display for Duration {
    ghost use Rattle.std.specs.Prelude.{Some};
    ghost use Rattle.haya_time.specs.DurationPrint.{duration_text};

    ghost output = { λ d. Some (duration_text d) };

    fn fmt<W: fmt::Write>(&self, f: &mut fmt::Formatter<W>) -> fmt::Result {
        let days = Days(self.days);
        let hours = Hours {
            hours: self.hours,
            has_days: self.days > 0,
        };
        let minutes = self.minutes;
        let seconds = self.seconds;
        let fraction = Milliseconds(self.milliseconds);
        write!(f, "{days}{hours}{minutes:02}:{seconds:02}{fraction}")
    }
}

/// The start, and behind a hyphen the end where it differs.
impl fmt::Display for DurationRange {
    ghost use Rattle.std.specs.Prelude.{Some};
    ghost use Rattle.haya_time.specs.DurationPrint.{range_text};

    ghost output = { λ r. Some (range_text r) };

    fn fmt<W: fmt::Write>(&self, f: &mut fmt::Formatter<W>) -> fmt::Result {
        let start = self.start;
        let end = self.end;
        if start == end {
            write!(f, "{start}")
        } else {
            write!(f, "{start}-{end}")
        }
    }
}
