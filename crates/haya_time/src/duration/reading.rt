//! Durations as texts.
ghost use Rattle.std.specs.Prelude.{◌≡◌};
ghost use Rattle.std.specs.Str.{chars};
ghost use Rattle.haya_time.specs.DurationReading.{duration_read};

use super::Duration;
use super::front::Front;
use haya_text::{ReadFault, ReadText};
use std::alloc::Global;
use std::str::FromStr;
use thiserror::Error;

/// Why a text is no duration or no range of durations.
#[derive(Clone, Copy, Debug, PartialEq, Eq, Hash, Error)]
pub enum DurationError {
    /// The text hasn't the form.
    #[error("duration string malformed")]
    Malformed,
    /// A value is more than the next greater unit leaves, or the fraction
    /// rounds up to a whole second.
    #[error("duration value too large")]
    TooLarge,
}

impl ReadFault for DurationError {
    ghost use Rattle.std.specs.Prelude.{false};

    ghost out_of_memory = { λ _. false };

    fn is_out_of_memory(&self) -> bool {
        false
    }
}

impl FromStr for Duration {
    type Err = DurationError;

    ghost use Rattle.std.specs.Prelude.{◌≡◌};
    ghost use Rattle.std.specs.Str.{chars};
    ghost use Rattle.haya_time.specs.DurationReading.{duration_read};

    ghost from_str_gives = { λ text result. result ≡ duration_read (chars text) };

    /// The duration that the text writes: days, hours, minutes and seconds with colons between,
    /// where days and hours may be absent, and after a comma a fraction of a second, which is
    /// rounded half up to milliseconds. First minutes carry into hours, and first hours into days.
    /// `Malformed` if the text hasn't this form, `TooLarge` if it has and hours are above 23,
    /// minutes or seconds above 59, or the fraction rounds up to a second.
    fn from_str(text: &str) -> Result<Duration, DurationError> {
        match Front::take(text) {
            Some(front) if front.is_ended() => front.duration.check_bounds(),
            _ => Err(DurationError::Malformed),
        }
    }
}

impl ReadText for Duration {
    type Fault = DurationError;

    ghost use Rattle.std.specs.Result.{result_ok};
    ghost use Rattle.std.specs.Str.{chars};
    ghost use Rattle.haya_time.specs.DurationReading.{duration_read};
    ghost use Rattle.haya_time.specs.declared.duration.Duration.{Duration};

    ghost Value = { Duration };

    ghost value = { λ d. d };

    ghost reads = { λ text. result_ok (duration_read (chars text)) };

    /// The duration that the text writes, as `FromStr` reads it. It takes no memory.
    fn from_str(_alloc: Global, text: &str) -> Result<Duration, DurationError>
        ensures { result ≡ duration_read (chars text.now) }
    {
        text.parse()
    }
}
