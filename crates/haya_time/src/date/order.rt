//! The orders of dates.
ghost use Rattle.std.specs.Prelude.{◌≡◌};
ghost use Rattle.std.specs.Ordering.{bool_cmp};
ghost use Rattle.haya_time.specs.DateOrder.{approximate_without, date_csl_cmp, date_partial_cmp};
ghost use Rattle.haya_time.specs.DateOrder.{day_of_month, known_alike_cmp, missing_first_cmp};
ghost use Rattle.haya_time.specs.DateOrder.{season_cmp, tie_cmp};
ghost use Rattle.haya_time.specs.DateOrderLaws.{date_laws};

use super::{Date, Season};
use std::cmp::Ordering;

impl PartialOrd for Date {
    ghost partial_cmp = { date_partial_cmp };

    ghost laws = { date_laws };

    /// By year, month and day. A date that tells less has no answer beside one that tells more; two
    /// that tell as much tie by `approximate`, where exact dates stand first, and then by the rest.
    fn partial_cmp(&self, other: &Date) -> Option<Ordering> {
        let by_year = self.year.cmp(&other.year);
        if by_year.is_ne() {
            return Some(by_year);
        }
        let by_month = cmp_known_alike(self.month, other.month)?;
        if by_month.is_ne() {
            return Some(by_month);
        }
        let by_day = cmp_known_alike(self.day_of_month(), other.day_of_month())?;
        if by_day.is_ne() {
            return Some(by_day);
        }
        Some(self.cmp_tied(other))
    }
}

impl Date {
    /// The order of citation styles (CSL): by year, month and day, where a missing month or day
    /// stands first. Two that are missing go by `approximate`, exact dates first.
    pub fn csl_cmp(&self, other: &Date) -> Ordering
        ensures { result ≡ date_csl_cmp self.now other.now }
    {
        self.year
            .cmp(&other.year)
            .then(self.month.cmp(&other.month))
            .then(
                self.approximate_without(self.month)
                    .cmp(&other.approximate_without(other.month)),
            )
            .then(self.day.cmp(&other.day))
            .then(
                self.approximate_without(self.day)
                    .cmp(&other.approximate_without(other.day)),
            )
    }

    // The day, where the month is known.
    fn day_of_month(&self) -> Option<u8>
        ensures { result ≡ day_of_month self.now }
    {
        if self.month.is_some() { self.day } else { None }
    }

    // The order of two dates that tell the same day, month or year.
    fn cmp_tied(&self, other: &Date) -> Ordering
        ensures { result ≡ tie_cmp self.now other.now }
    {
        self.approximate
            .cmp(&other.approximate)
            .then(self.day.cmp(&other.day))
            .then(cmp_seasons(self.season, other.season))
    }

    // Whether the date is approximate, where this part of it is missing.
    fn approximate_without(&self, part: Option<u8>) -> bool
        ensures { result ≡ approximate_without part self.now }
    {
        part.is_none() && self.approximate
    }
}

// Compares two numbers where both or neither are there.
fn cmp_known_alike(a: Option<u8>, b: Option<u8>) -> Option<Ordering>
    ensures { result ≡ known_alike_cmp a b }
{
    match (a, b) {
        (None, None) => Some(Ordering::Equal),
        (Some(a), Some(b)) => Some(a.cmp(&b)),
        _ => None,
    }
}

// Compares seasons, where a missing one stands first.
fn cmp_seasons(a: Option<Season>, b: Option<Season>) -> Ordering
    ensures { result ≡ season_cmp a b }
{
    a.cmp(&b)
}
