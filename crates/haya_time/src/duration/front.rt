//! The duration at the front of a text.
ghost use Rattle.std.specs.Prelude.{◌≡◌, ◌<◌, ◌^◌, nat_lt, if◌then◌else◌, ℕ, Some, None, true};
ghost use Rattle.std.specs.Prelude.{IfSome, MatchOption, length, option_map};
ghost use Rattle.std.specs.Char.{is_ascii_digit};
ghost use Rattle.std.specs.List.{list_all};
ghost use Rattle.std.specs.Str.{chars};
ghost use Rattle.haya_time.specs.DurationFront.{Takes};
ghost use Rattle.haya_time.specs.DurationText.{number};
ghost use Rattle.haya_time.specs.DurationReading.{clock_at, days_at, front_at, hours_at, is_ended};
ghost use Rattle.haya_time.specs.DurationReading.{is_start, long_at, minutes_at, two_at};
ghost use Rattle.haya_time.specs.DurationReading.{two_colon_at, check_bounds};
ghost use Rattle.haya_time.specs.DurationValues.{is_too_large, milliseconds};

use super::scan::{count_colons, take_digits};
use super::{Duration, DurationError};
use crate::text::{behind, is_at_end, is_blank};

// A duration at the front of a text: its values, carried, whether it has a fraction of a
// second, and what follows it.
#[derive(Clone, Copy)]
pub(crate) struct Front<'a> {
    pub duration: Duration,
    pub has_fraction: bool,
    pub rest: &'a str,
}

// The number that these digits write, if it fits.
#[tactic(auto, using(crate::proofs::DurationNumbers::parsed))]
fn parse_digits(digits: &str) -> Option<u32>
    requires digits { list_all is_ascii_digit digits.now ≡ true }
    requires some { 0 < length digits.now }
    ensures { let n = number digits.now in
        result ≡ (if nat_lt n (2 ^ 32) then Some n else None) }
{
    digits.parse::<u32>().ok()
}

// The first value, of at least so many digits, and what stands behind its colon.
fn take_long(text: &str, least: usize) -> Option<(u32, &str)>
    requires { 0 < least }
    ensures { Takes result (long_at least (chars text.now)) }
{
    let (digits, rest) = take_digits(text)?;
    if digits.len() < least {
        return None;
    }
    let value = parse_digits(digits)?;
    let rest = behind(rest, ':')?;
    Some((value, rest))
}

// The number of exactly two digits, and what follows it.
fn take_two(text: &str) -> Option<(u8, &str)>
    ensures { Takes result (two_at (chars text.now)) }
{
    let (digits, rest) = take_digits(text)?;
    if digits.len() != 2 {
        return None;
    }
    let value = parse_digits(digits)?;
    Some((value as u8, rest))
}

// The value of two digits, and what stands behind its colon.
fn take_two_colon(text: &str) -> Option<(u32, &str)>
    ensures { Takes result (two_colon_at (chars text.now)) }
{
    let (value, rest) = take_two(text)?;
    let rest = behind(rest, ':')?;
    Some((u32::from(value), rest))
}

// Minutes and seconds. The minutes carry into hours, and these into days.
fn take_minutes(text: &str) -> Option<(Duration, &str)>
    ensures { Takes result (minutes_at (chars text.now)) }
{
    let (minutes, rest) = take_long(text, 2)?;
    let (seconds, rest) = take_two(rest)?;
    let hours = minutes / 60;
    let duration = Duration {
        days: hours / 24,
        hours: hours % 24,
        minutes: minutes % 60,
        seconds,
        milliseconds: 0,
    };
    Some((duration, rest))
}

// Hours, minutes and seconds. The hours carry into days.
fn take_hours(text: &str) -> Option<(Duration, &str)>
    ensures { Takes result (hours_at (chars text.now)) }
{
    let (hours, rest) = take_long(text, 2)?;
    let (minutes, rest) = take_two_colon(rest)?;
    let (seconds, rest) = take_two(rest)?;
    let duration = Duration {
        days: hours / 24,
        hours: hours % 24,
        minutes,
        seconds,
        milliseconds: 0,
    };
    Some((duration, rest))
}

// Days, hours, minutes and seconds.
fn take_days(text: &str) -> Option<(Duration, &str)>
    ensures { Takes result (days_at (chars text.now)) }
{
    let (days, rest) = take_long(text, 1)?;
    let (hours, rest) = take_two_colon(rest)?;
    let (minutes, rest) = take_two_colon(rest)?;
    let (seconds, rest) = take_two(rest)?;
    let duration = Duration {
        days,
        hours,
        minutes,
        seconds,
        milliseconds: 0,
    };
    Some((duration, rest))
}

// The values down to the seconds, with what follows them. How many they are say the colons.
fn take_clock(text: &str) -> Option<(Duration, &str)>
    ensures { Takes result (clock_at (chars text.now)) }
{
    match count_colons(text) {
        1 => take_minutes(text),
        2 => take_hours(text),
        3 => take_days(text),
        _ => None,
    }
}

// The fraction of a second that these digits write, in milliseconds, rounded half up: the fifth
// digit and those behind it don't tell.
fn milliseconds(fraction: &str) -> u16
    requires { list_all is_ascii_digit fraction.now ≡ true }
    ensures { result ≡ milliseconds fraction.now }
{
    let mut ten_thousandths: u16 = 0;
    let mut weight: u16 = 1000;
    'digits: for digit in fraction.as_bytes() {
        ten_thousandths += weight * u16::from(*digit - b'0');
        weight /= 10;
    }
    (ten_thousandths + 5) / 10
}

impl<'a> Front<'a> {
    ghost use Rattle.haya_time.specs.DurationFront.{front_view};

    // The duration at the front, or `None` if none stands there.
    pub(crate) fn take(text: &'a str) -> Option<Front<'a>>
        ensures { option_map front_view result ≡ front_at (chars text.now) }
    {
        let (duration, rest) = take_clock(text)?;
        let Some(fraction) = behind(rest, ',') else {
            return Some(Front {
                duration,
                has_fraction: false,
                rest,
            });
        };
        let (digits, rest) = take_digits(fraction)?;
        if digits.is_empty() {
            return None;
        }
        let milliseconds = milliseconds(digits);
        Some(Front {
            duration: Duration {
                milliseconds,
                ..duration
            },
            has_fraction: true,
            rest,
        })
    }

    // Whether the text ends with this duration. White space may follow a fraction.
    pub(crate) fn is_ended(&self) -> bool
        ensures { result ≡ is_ended (front_view self.now) }
    {
        if self.has_fraction {
            is_blank(self.rest)
        } else {
            is_at_end(self.rest)
        }
    }

    // Whether a range may start with this duration, as far as that is told before its bounds.
    pub(crate) fn is_start(&self) -> bool
        ensures { result ≡ is_start (front_view self.now) }
    {
        self.has_fraction || is_at_end(self.rest) || behind(self.rest, '-').is_some()
    }
}

impl Duration {
    // The duration, if it has no more of a unit than the next one leaves.
    pub(crate) fn check_bounds(self) -> Result<Duration, DurationError>
        ensures { result ≡ check_bounds self }
    {
        if self.hours > 23 || self.minutes > 59 || self.seconds > 59 || self.milliseconds > 999 {
            Err(DurationError::TooLarge)
        } else {
            Ok(self)
        }
    }
}
