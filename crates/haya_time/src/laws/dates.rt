//! Laws of dates.
ghost use Rattle.std.specs.Prelude.{◌≡◌, ◌↔◌, ℕ, List, None, Some, Err, Ok};
ghost use Rattle.std.specs.Cmp.{IsTotalOrder};
ghost use Rattle.std.specs.declared.cmp.Ordering.TheVariants.{Equal};
ghost use Rattle.std.specs.Ordering.{nat_cmp};
ghost use Rattle.std.specs.Str.{chars};
ghost use Rattle.haya_text.specs.Equality.{EqualsByValue, HashesAlike};
ghost use Rattle.haya_time.specs.declared.date.Date as date;
ghost use Rattle.haya_time.specs.declared.date.DateError as error;
ghost use Rattle.haya_time.specs.declared.date.Season as season;
ghost use Rattle.haya_time.specs.DateForms.{IsRefusedAs, ReadsAs};
ghost use Rattle.haya_time.specs.DateOrder.{HasNoOrder, date_csl_cmp, season_place};
ghost use Rattle.haya_time.specs.DatePrinted.{date_text};
ghost use Rattle.haya_time.specs.DateReadBack.{ReadsBack};
ghost use Rattle.haya_time.specs.DateReading.{date_read};

use crate::{Date, DateError, Season};
use std::hash::Hash;

/// The order is equal exactly where the dates are, and has no answer exactly where one side alone
/// tells the month of the same year, or the day of the same month.
pub fn order_of_dates()
    ensures equal { (a b : date.Date) →
        (⟦<Date as PartialOrd>⟧.partial_cmp a b ≡ Some Equal) ↔ (a ≡ b) }
    ensures unanswered { (a b : date.Date) →
        (⟦<Date as PartialOrd>⟧.partial_cmp a b ≡ None) ↔ HasNoOrder a b }
{}

/// The order of citation styles is a total preorder.
pub fn csl_order_of_dates()
    ensures { IsTotalOrder date_csl_cmp }
{}

/// Seasons are in the order of the year, from spring to winter.
pub fn order_of_seasons()
    ensures { (a b : season.Season) →
        ⟦<Season as Ord>⟧.cmp a b ≡ nat_cmp (season_place a) (season_place b) }
{}

/// `==` holds exactly where all fields are equal.
pub fn dates_equal_by_value()
    ensures { EqualsByValue ⟦<Date as PartialEq>⟧.eq }
{}

/// `==` of seasons and of faults of dates holds exactly where both are the same, with the same day.
pub fn kinds_equal_by_value()
    ensures season { EqualsByValue ⟦<Season as PartialEq>⟧.eq }
    ensures fault { EqualsByValue ⟦<DateError as PartialEq>⟧.eq }
{}

/// Dates and seasons that are equal by `==` hash alike.
pub fn equal_dates_hash_alike()
    ensures date { HashesAlike ⟦<Date as PartialEq>⟧.eq ⟦<Date as Hash>⟧.hash_input }
    ensures season { HashesAlike ⟦<Season as PartialEq>⟧.eq ⟦<Season as Hash>⟧.hash_input }
{}

/// A text has one value or one fault, and the forms of dates say which: each text
/// reads as exactly one of them.
pub fn reads_the_forms_of_dates()
    ensures value { (text : List ℕ) (d : date.Date) → (date_read text ≡ Ok d) ↔ ReadsAs text d }
    ensures fault { (text : List ℕ) (e : error.DateError) →
        (date_read text ≡ Err e) ↔ IsRefusedAs text e }
{}

/// A date of the years -9999 to 9999, on the calendar and with no season, is read
/// back from its printed text.
pub fn dates_read_back()
    ensures { (d : date.Date) → ReadsBack d → date_read (chars (date_text d)) ≡ Ok d }
{}
