//! What values are sorted by.
ghost use Rattle.std.specs.Prelude.{◌≡◌, [], ◌∷◌, IfOk, IfSome, map, string_bytes};
ghost use Rattle.std.specs.Cmp.Lexicographic.{slice_cmp};
ghost use Rattle.haya_time.specs.DateOrder.{date_csl_cmp};
ghost use Rattle.haya_questions.specs.Order.{is_missing, kinds_before, rank_of, rank_order};
ghost use Rattle.haya_questions.specs.Order.{ranks_order, text_rank};
ghost use Rattle.haya_questions.specs.Ranked.{rank_view};
ghost use Rattle.haya_questions.specs.Value.{value_view};

use crate::case_aside::folded;
use crate::shown::long_text;
use crate::value::Value;
use haya_numbers::{Numeric, PageRanges};
use haya_people::Person;
use haya_text::OutOfMemory;
use haya_time::{Date, Duration};
use std::alloc::Global;
use std::cmp::Ordering;

/// The kinds of values, in the order in which they are sorted.
#[derive(Clone, Copy)]
pub(crate) enum RankKind {
    Date,
    Number,
    Pages,
    Duration,
    Person,
    Text,
    /// A text in the place of a number, pages or a time.
    Untyped,
}

impl RankKind {
    // How many kinds come before.
    fn kinds_before(self) -> u8
        ensures { result ≡ kinds_before self }
    {
        match self {
            RankKind::Date => 0,
            RankKind::Number => 1,
            RankKind::Pages => 2,
            RankKind::Duration => 3,
            RankKind::Person => 4,
            RankKind::Text => 5,
            RankKind::Untyped => 6,
        }
    }
}

/// What a value is sorted by: what it is, and a text by its case fold and then by itself.
#[derive(Drop)]
pub(crate) enum ValueRank {
    Date(Date),
    Number(Numeric),
    Pages(PageRanges),
    Duration(Duration),
    Person(Person),
    Text(String, String),
    /// A text in the place of a number, pages or a time.
    Untyped(String),
}

impl ValueRank {
    /// What the value is sorted by.
    #[tactic(auto, unfolding(crate::specs::Order::rank_of, crate::specs::Ranked::rank_view))]
    pub(crate) fn of(alloc: Global, value: Value) -> Result<ValueRank, OutOfMemory>
        ensures { IfOk result (λ rank. rank_view rank ≡ rank_of (value_view value.entry)) }
    {
        match value {
            Value::Date(date) => Ok(ValueRank::Date(*date)),
            Value::Number(number) => Ok(ValueRank::Number(number.try_clone(alloc)?)),
            Value::Pages(pages) => Ok(ValueRank::Pages(pages.try_clone(alloc)?)),
            Value::Duration(duration) => Ok(ValueRank::Duration(*duration)),
            Value::Range(range) => Ok(ValueRank::Duration(range.start)),
            Value::Person(person) | Value::InRole(_, person) => {
                Ok(ValueRank::Person(person.try_clone(alloc)?))
            }
            Value::Key(text) | Value::Plain(text) => {
                ValueRank::of_text(alloc, String::from_str(alloc, text)?)
            }
            Value::Text(text) => ValueRank::of_text(alloc, long_text(alloc, text)?),
            Value::Untyped(text) => Ok(ValueRank::Untyped(String::from_str(alloc, text)?)),
        }
    }

    // What a text is sorted by.
    #[tactic(auto, unfolding(crate::specs::Ranked::rank_view))]
    fn of_text(alloc: Global, text: String) -> Result<ValueRank, OutOfMemory>
        ensures { IfOk result (λ rank. rank_view rank ≡ text_rank (string_bytes text)) }
    {
        let fold = folded(alloc, text.as_str())?;
        Ok(ValueRank::Text(fold, text))
    }

    // The kind of the value.
    #[tactic(auto, unfolding(crate::specs::Ranked::rank_view))]
    fn kind(&self) -> RankKind
        ensures { result ≡ (rank_view self.now).kind }
    {
        match self {
            ValueRank::Date(_) => RankKind::Date,
            ValueRank::Number(_) => RankKind::Number,
            ValueRank::Pages(_) => RankKind::Pages,
            ValueRank::Duration(_) => RankKind::Duration,
            ValueRank::Person(_) => RankKind::Person,
            ValueRank::Text(_, _) => RankKind::Text,
            ValueRank::Untyped(_) => RankKind::Untyped,
        }
    }

    /// By kind, and then by what the values are.
    #[tactic(auto, unfolding(crate::specs::Order::rank_order, crate::specs::Ranked::rank_view))]
    fn cmp(&self, other: &ValueRank) -> Ordering
        ensures { result ≡ rank_order (rank_view self.now) (rank_view other.now) }
    {
        match (self, other) {
            (ValueRank::Date(a), ValueRank::Date(b)) => cmp_dates(a, b),
            (ValueRank::Number(a), ValueRank::Number(b)) => a.csl_cmp(b),
            (ValueRank::Pages(a), ValueRank::Pages(b)) => a.csl_cmp(b),
            (ValueRank::Duration(a), ValueRank::Duration(b)) => a.cmp(b),
            (ValueRank::Person(a), ValueRank::Person(b)) => a.cmp(b),
            (ValueRank::Text(a_fold, a), ValueRank::Text(b_fold, b)) => {
                a_fold.cmp(b_fold).then_with(|| a.cmp(b))
            }
            (ValueRank::Untyped(a), ValueRank::Untyped(b)) => a.cmp(b),
            _ => self.kind().kinds_before().cmp(&other.kind().kinds_before()),
        }
    }
}

// Dates as citation styles have them: mostly the years decide.
fn cmp_dates(a: &Date, b: &Date) -> Ordering
    ensures { result ≡ date_csl_cmp a.now b.now }
{
    let by_year = a.year.cmp(&b.year);
    by_year.then_with(|| a.csl_cmp(b))
}

/// What each value is sorted by.
pub(crate) fn ranks_of(alloc: Global, values: &[Value]) -> Result<Vec<ValueRank>, OutOfMemory>
    ensures { IfOk result (λ ranks. map rank_view ranks.items
        ≡ map rank_of (map value_view values.now)) }
{
    let mut ranks = Vec::with_capacity(alloc, values.len())?;
    'values: for value in values {
        ranks.push(ValueRank::of(alloc, *value)?)?;
    }
    Ok(ranks)
}

/// The order of two lists of values, or the other way round; whichever way, no value comes last.
pub(crate) fn cmp_ranks(is_reversed: bool, a: &[ValueRank], b: &[ValueRank]) -> Ordering
    ensures { result ≡ ranks_order is_reversed (map rank_view a.now) (map rank_view b.now) }
{
    match (only(a), only(b)) {
        (Some(x), Some(y)) => cmp_alone(is_reversed, x, y),
        _ => cmp_each(is_reversed, a, b),
    }
}

// The value that is alone in the list.
fn only(ranks: &[ValueRank]) -> Option<&ValueRank>
    ensures { IfSome result (λ rank. map rank_view ranks.now ≡ rank_view rank.now ∷ []) }
{
    match ranks {
        [rank] => Some(rank),
        _ => None,
    }
}

// The order of two values, each alone in its list.
#[tactic(auto, using(crate::proofs::Thens::then_tied), unfolding(crate::specs::Order::ranks_order))]
fn cmp_alone(is_reversed: bool, a: &ValueRank, b: &ValueRank) -> Ordering
    ensures { result ≡ ranks_order is_reversed (rank_view a.now ∷ []) (rank_view b.now ∷ []) }
{
    if is_reversed { b.cmp(a) } else { a.cmp(b) }
}

// The order of any two lists.
#[tactic(auto, unfolding(crate::specs::Order::ranks_order))]
fn cmp_each(is_reversed: bool, a: &[ValueRank], b: &[ValueRank]) -> Ordering
    ensures { result ≡ ranks_order is_reversed (map rank_view a.now) (map rank_view b.now) }
{
    let by_missing = is_missing(a).cmp(&is_missing(b));
    if by_missing.is_ne() {
        return by_missing;
    }
    if is_reversed {
        cmp_lists(b, a)
    } else {
        cmp_lists(a, b)
    }
}

// Whether there is no value.
fn is_missing(ranks: &[ValueRank]) -> bool
    ensures { result ≡ is_missing (map rank_view ranks.now) }
{
    ranks.split_first().is_none()
}

// Value by value; a first part comes before the longer.
fn cmp_lists(a: &[ValueRank], b: &[ValueRank]) -> Ordering
    ensures { result ≡ slice_cmp rank_order (map rank_view a.now) (map rank_view b.now) }
{
    let mut left = a;
    let mut right = b;
    'values: while let (Some((x, left_behind)), Some((y, right_behind))) = (
        left.split_first(),
        right.split_first(),
    ) {
        let order = x.cmp(y);
        if order != Ordering::Equal {
            return order;
        }
        left = left_behind;
        right = right_behind;
    }
    is_missing(right).cmp(&is_missing(left))
}
