//! Durations and ranges of them, as media and the parts of media have them.
mod front;
mod order;
mod print;
mod range;
mod reading;
mod scan;

use haya_text::{OutOfMemory, TryClone};
pub use range::DurationRange;
pub use reading::DurationError;
use std::alloc::Global;

/// A length of time, in days down to milliseconds. A hand-made value may have more of a unit
/// than make up the next one.
#[derive(Clone, Copy, Debug, Default, PartialEq, Eq, Hash)]
pub struct Duration {
    /// Days.
    pub days: u32,
    /// Hours beside the days.
    pub hours: u32,
    /// Minutes beside the hours.
    pub minutes: u32,
    /// Seconds beside the minutes.
    pub seconds: u8,
    /// Milliseconds beside the seconds.
    pub milliseconds: u16,
}

impl Duration {
    ghost use Rattle.std.specs.Prelude.{◌≡◌};
    ghost use Rattle.haya_time.specs.DurationBack.{reads_back};

    /// Whether the printed text reads as this duration again: hours are below 24, minutes and
    /// seconds below 60, milliseconds below 1000.
    pub fn reads_back(&self) -> bool
        ensures { result ≡ reads_back self.now }
    {
        self.hours < 24 && self.minutes < 60 && self.seconds < 60 && self.milliseconds < 1000
    }
}

impl TryClone for Duration {
    ghost use Rattle.std.specs.Prelude.{◌≡◌};
    ghost use Rattle.haya_time.specs.declared.duration.Duration as duration;

    ghost View = { duration.Duration };

    ghost view = { λ d. d };

    /// The same duration. It takes no memory.
    fn try_clone(&self, _alloc: Global) -> Result<Duration, OutOfMemory>
        ensures { result ≡ Ok self.now }
    {
        Ok(*self)
    }
}
