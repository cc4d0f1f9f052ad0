//! Laws of durations and of their ranges.
ghost use Rattle.std.specs.Prelude.{◌≡◌, ◌↔◌, ◌⊎◌, ◌<◌, ◌^◌, ℕ, List, true, Ok, Err};
ghost use Rattle.std.specs.Cmp.{IsTotalOrder};
ghost use Rattle.std.specs.Str.{chars};
ghost use Rattle.haya_text.specs.Equality.{EqualsByValue, HashesAlike};
ghost use Rattle.haya_time.specs.DurationBack.{reads_back, range_reads_back};
ghost use Rattle.haya_time.specs.DurationGrammar.{IsDuration, RangeTooLarge, ReadsAs, ReadsAsRange};
ghost use Rattle.haya_time.specs.DurationGrammar.{ReadsTooLarge};
ghost use Rattle.haya_time.specs.DurationOrder.{duration_cmp};
ghost use Rattle.haya_time.specs.DurationPrint.{duration_text, range_text};
ghost use Rattle.haya_time.specs.DurationReading.{duration_read, range_read};
ghost use Rattle.haya_time.specs.DurationValues.{clock};
ghost use Rattle.haya_time.specs.declared.duration.Duration as duration;
ghost use Rattle.haya_time.specs.declared.duration.range.DurationRange as range;
ghost use Rattle.haya_time.specs.declared.duration.reading.DurationError.TheVariants as error;

use crate::{Duration, DurationError, DurationRange};
use std::cmp::Ordering;
use std::hash::Hash;

/// The default duration is no time at all.
pub fn default_duration_is_zero()
    ensures { (d : duration.Duration) → ⟦<Duration as Default>⟧.is_default d → d ≡ clock 0 0 0 0 }
{}

/// A text reads as a duration exactly where its parts are that duration's and it isn't too large.
/// It is too large exactly where its parts are those of a duration that is, and malformed exactly
/// where it has no such parts.
pub fn reads_durations()
    ensures read { (text : List ℕ) (d : duration.Duration) →
        (duration_read text ≡ Ok d) ↔ ReadsAs text d }
    ensures too_large { (text : List ℕ) →
        (duration_read text ≡ Err error.TooLarge) ↔ ReadsTooLarge text }
    ensures malformed { (text : List ℕ) →
        (duration_read text ≡ Err error.Malformed) ↔ ¬ ((d : duration.Duration)
        × IsDuration text d) }
{}

/// A text reads as a range exactly where its parts are that range's. It is too large exactly where
/// its start is, whatever follows it, or its end is, and malformed everywhere else.
pub fn reads_ranges()
    ensures read { (text : List ℕ) (r : range.DurationRange) →
        (range_read text ≡ Ok r) ↔ ReadsAsRange text r }
    ensures too_large { (text : List ℕ) →
        (range_read text ≡ Err error.TooLarge) ↔ RangeTooLarge text }
    ensures malformed { (text : List ℕ) →
        (range_read text ≡ Err error.Malformed)
        ↔ ¬ (((r : range.DurationRange) × ReadsAsRange text r) ⊎ RangeTooLarge text) }
{}

/// The order of durations is total, and says equal exactly where `==` does, which is where
/// all values are the same.
pub fn order_of_durations()
    ensures same { (a b : duration.Duration) →
        ⟦<Duration as Ord>⟧.cmp a b ≡ duration_cmp a b }
    ensures total { IsTotalOrder duration_cmp }
    ensures equal { (a b : duration.Duration) →
        (duration_cmp a b ≡ Ordering.Equal) ↔ (a ≡ b) }
    ensures eq { EqualsByValue ⟦<Duration as PartialEq>⟧.eq }
    ensures range_eq { EqualsByValue ⟦<DurationRange as PartialEq>⟧.eq }
{}

/// `==` of faults of durations holds exactly where both are the same.
pub fn faults_equal_by_value()
    ensures { EqualsByValue ⟦<DurationError as PartialEq>⟧.eq }
{}

/// Durations, ranges and faults of them that are equal by `==` hash alike.
pub fn equal_durations_hash_alike()
    ensures duration { HashesAlike ⟦<Duration as PartialEq>⟧.eq ⟦<Duration as Hash>⟧.hash_input }
    ensures range { HashesAlike ⟦<DurationRange as PartialEq>⟧.eq
        ⟦<DurationRange as Hash>⟧.hash_input }
    ensures fault { HashesAlike ⟦<DurationError as PartialEq>⟧.eq
        ⟦<DurationError as Hash>⟧.hash_input }
{}

/// What `Duration::reads_back` and `DurationRange::reads_back` accept is read back from its printed
/// text as itself. The days of a duration fit 32 bits.
pub fn reads_back()
    ensures duration { (d : duration.Duration) → d.days < 2 ^ 32 → reads_back d ≡ true →
        duration_read (chars (duration_text d)) ≡ Ok d }
    ensures range { (r : range.DurationRange) → r.start.days < 2 ^ 32 → r.end.days < 2 ^ 32 →
        range_reads_back r ≡ true → range_read (chars (range_text r)) ≡ Ok r }
{}

/// A duration that was read from a text is read again from its print, and so is a range, whether
/// it was read as one or made of two durations that were.
pub fn read_durations_read_back()
    ensures duration { (text : List ℕ) (d : duration.Duration) → duration_read text ≡ Ok d →
        duration_read (chars (duration_text d)) ≡ Ok d }
    ensures range { (text : List ℕ) (r : range.DurationRange) → range_read text ≡ Ok r →
        range_read (chars (range_text r)) ≡ Ok r }
    ensures ends { (first second : List ℕ) (r : range.DurationRange) →
        duration_read first ≡ Ok r.start → duration_read second ≡ Ok r.end →
        range_read (chars (range_text r)) ≡ Ok r }
{}
