//! How a value stands to what a test wants.
ghost use Rattle.std.specs.Prelude.{◌≡◌};
ghost use Rattle.haya_numbers.specs.Numeric.{numeric_view};
ghost use Rattle.haya_numbers.specs.Pages.{parts};
ghost use Rattle.haya_questions.specs.Orders.{date_against, first_number, number_against};
ghost use Rattle.haya_questions.specs.Orders.{pages_against, part_against, value_against};
ghost use Rattle.haya_questions.specs.Test.{wanted_view};
ghost use Rattle.haya_questions.specs.Value.{value_view};

use crate::test::Wanted;
use crate::value::Value;
use haya_numbers::{Numeric, NumericValue, PageRanges};
use haya_time::Date;
use std::cmp::Ordering;

/// How a value stands to what is wanted, where both are of a kind that has an order and the value
/// has the parts that are wanted.
#[tactic(auto, unfolding(crate::specs::Orders::value_against))]
pub(crate) fn value_against(value: Value, wanted: &Wanted) -> Option<Ordering>
    ensures { result ≡ value_against (value_view value.entry) (wanted_view wanted.now) }
{
    match (value, wanted) {
        (Value::Date(date), Wanted::Date(wanted)) => date_against(*date, *wanted),
        (Value::Number(number), Wanted::Number(wanted)) => number_against(number, *wanted),
        (Value::Pages(pages), Wanted::Number(wanted)) => pages_against(pages, *wanted),
        (Value::Duration(duration), Wanted::Duration(wanted)) => Some(duration.cmp(wanted)),
        (Value::Range(range), Wanted::Duration(wanted)) => Some(range.start.cmp(wanted)),
        _ => None,
    }
}

// A date beside the one that is wanted, by the parts that this one has.
fn date_against(date: Date, wanted: Date) -> Option<Ordering>
    ensures { result ≡ date_against date wanted }
{
    let by_year = date.year.cmp(&wanted.year);
    if by_year.is_ne() {
        return Some(by_year);
    }
    let by_month = part_against(date.month, wanted.month)?;
    if by_month.is_ne() {
        return Some(by_month);
    }
    part_against(date.day, wanted.day)
}

// A month or a day beside the one that is wanted, if one is.
fn part_against(mine: Option<u8>, wanted: Option<u8>) -> Option<Ordering>
    ensures { result ≡ part_against mine wanted }
{
    match (mine, wanted) {
        (_, None) => Some(Ordering::Equal),
        (None, Some(_)) => None,
        (Some(mine), Some(wanted)) => Some(mine.cmp(&wanted)),
    }
}

// The first number beside the one that is wanted.
fn number_against(number: &Numeric, wanted: i64) -> Option<Ordering>
    ensures { result ≡ number_against (numeric_view number.now) wanted }
{
    let first = first_number(number)?;
    Some(i64::from(first).cmp(&wanted))
}

// The first of the numbers.
fn first_number(number: &Numeric) -> Option<i32>
    ensures { result ≡ first_number (numeric_view number.now) }
{
    match &number.value {
        NumericValue::Number(number) => Some(*number),
        NumericValue::Set(set) => {
            let (number, _) = set.first()?;
            Some(*number)
        }
    }
}

// The first number of the first page beside the one that is wanted.
fn pages_against(pages: &PageRanges, wanted: i64) -> Option<Ordering>
    ensures { result ≡ pages_against (parts pages.now) wanted }
{
    number_against(pages.first()?, wanted)
}
