//! What is asked of the hits of a selector.
ghost use Rattle.std.specs.Prelude.{◌≡◌, IfOk, IsTrue, filter, map};
ghost use Rattle.std.specs.List.{list_all};
ghost use Rattle.haya_questions.specs.Test.{holds, test_view};
ghost use Rattle.haya_asked.specs.Asked.{AreAsked, AreLeft, asks_nothing, at_most, passes};

use crate::duplicates::duplicate_hits;
use crate::uniques::unique_hits;
use haya_questions::{Place, SortKey, Test, sort_hits};
use haya_text::OutOfMemory;
use hayagriva::{HashKeys, Hit};
use std::alloc::Global;

/// What becomes of hits that share their first values at all of some places.
#[derive(Debug, Drop, PartialEq, Eq)]
pub enum Repeats {
    /// All stay.
    Kept,
    /// Of those that share values the first stays.
    Dropped(Vec<Place>),
    /// They alone stay, those that share values one after the other.
    Alone(Vec<Place>),
}

/// What is asked of the hits of a selector, in this order.
#[derive(Debug, Drop, PartialEq, Eq)]
pub struct Questions {
    /// The tests that they have to pass.
    pub tests: Vec<Test>,
    /// The keys by which they are sorted.
    pub keys: Vec<SortKey>,
    /// What becomes of those that share values.
    pub repeats: Repeats,
    /// How many are wanted at most.
    pub max: Option<usize>,
}

impl Questions {
    /// Nothing: all hits are wanted, as they are.
    pub fn none(alloc: Global) -> Questions
        ensures { IsTrue (asks_nothing result) }
    {
        Questions {
            tests: Vec::new(alloc),
            keys: Vec::new(alloc),
            repeats: Repeats::Kept,
            max: None,
        }
    }

    /// Whether nothing is asked.
    pub fn asks_nothing(&self) -> bool
        ensures { result ≡ asks_nothing self.now }
    {
        self.tests.as_slice().is_empty()
            && self.keys.as_slice().is_empty()
            && matches!(self.repeats, Repeats::Kept)
            && self.max.is_none()
    }

    /// The hits that are asked for: those that pass all tests, sorted by the keys, without those
    /// that share values with an earlier one or those that share none, and of these as many as are
    /// wanted at most, from the first on. A map of values hashes with the keys. The only error is
    /// out of memory.
    pub fn asked_hits<'s>(
        &self,
        alloc: Global,
        keys: HashKeys,
        hits: Vec<Hit<'s>>,
    ) -> Result<Vec<Hit<'s>>, OutOfMemory>
        ensures { IfOk result (λ asked. AreAsked self.now hits.entry.items asked.items) }
    {
        let passing = passing_hits(alloc, hits, self.tests.as_slice())?;
        let sorted = sort_hits(alloc, passing, self.keys.as_slice())?;
        let left = left_hits(alloc, keys, sorted, &self.repeats)?;
        Ok(at_most(left, self.max))
    }
}

// The hits that pass all tests.
fn passing_hits<'s>(
    alloc: Global,
    hits: Vec<Hit<'s>>,
    tests: &[Test],
) -> Result<Vec<Hit<'s>>, OutOfMemory>
    ensures { IfOk result (λ passing. passing.items
        ≡ filter (passes (map test_view tests.now)) hits.entry.items) }
{
    if tests.is_empty() {
        return Ok(hits);
    }
    let mut passing = Vec::new(alloc);
    'hits: for hit in hits {
        if passes(alloc, &hit, tests)? {
            passing.push(hit)?;
        }
    }
    Ok(passing)
}

/// Whether a hit passes all tests. The only error is out of memory.
pub fn passes(alloc: Global, hit: &Hit, tests: &[Test]) -> Result<bool, OutOfMemory>
    ensures { IfOk result (λ answer. answer ≡ passes (map test_view tests.now) hit.now) }
{
    'tests: for test in tests {
        if !test.holds(alloc, hit)? {
            return Ok(false);
        }
    }
    Ok(true)
}

// So many at most, from the first on.
fn at_most(hits: Vec<Hit<'_>>, max: Option<usize>) -> Vec<Hit<'_>>
    ensures { result.items ≡ at_most max hits.entry.items }
{
    let Some(max) = max else {
        return hits;
    };
    let mut first = hits;
    first.truncate(max);
    first
}

// The hits that are left of those that share values.
fn left_hits<'s>(
    alloc: Global,
    keys: HashKeys,
    hits: Vec<Hit<'s>>,
    repeats: &Repeats,
) -> Result<Vec<Hit<'s>>, OutOfMemory>
    ensures { IfOk result (λ left. AreLeft repeats.now hits.entry.items left.items) }
{
    match repeats {
        Repeats::Kept => Ok(hits),
        Repeats::Dropped(places) => unique_hits(alloc, keys, hits, places.as_slice()),
        Repeats::Alone(places) => duplicate_hits(alloc, keys, hits, places.as_slice()),
    }
}
