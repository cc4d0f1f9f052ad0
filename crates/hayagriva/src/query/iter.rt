//! Hits one at a time.
ghost use Rattle.std.specs.Prelude.{◌≡◌, ◌≢◌, ◌≤◌};
ghost use Rattle.std.specs.Iterator.{at_most, item_count};
ghost use Rattle.hayagriva.specs.QueryIter.{NextGives, SearchGives};
ghost use Rattle.hayagriva.specs.QueryState.{query_state};

use super::Hit;
use crate::Entries;
use haya_entry::Steps;
use haya_selectors::{PreparedSelector, SelectorError};
use haya_text::OutOfMemory;
use std::marker::Model;

/// The hits of a selector over a library, in the library's order: each entry is evaluated when the
/// hits before its place were given and another is asked for.
///
/// An item is an error where an allocation fails, `OutOfMemory` alone. No item comes after it, nor
/// after the last hit.
#[derive(Drop)]
pub struct Query<'s> {
    selector: PreparedSelector<'s>,
    rest: Entries<'s>,
    steps: Steps,
    // Whether an allocation has failed.
    failed: bool,
}

impl<'s> Model for Query<'s> {
    ghost use Rattle.std.specs.Prelude.{[], if◌then◌else◌};
    ghost use Rattle.hayagriva.specs.QueryState.{QueryState, query_state, query_state_coded};

    ghost Value = { QueryState };

    ghost coded = { query_state_coded };

    ghost view = { λ q.
        query_state q.selector (if q.failed then [] else q.rest) q.steps };
}

impl<'s> Query<'s> {
    pub(super) fn new(selector: PreparedSelector<'s>, rest: Entries<'s>) -> Query<'s>
        ensures { result ≡ query_state selector.entry rest.entry 0 }
    {
        Query {
            selector,
            rest,
            steps: Steps::new(),
            failed: false,
        }
    }

    /// How often the evaluator was called so far: once a hit was given, for the entries up to that
    /// hit's; at the end for all; after an error at most as often as for all.
    pub fn steps(&self) -> &Steps
        ensures { result.now ≡ self.now.ticks }
    {
        &self.steps
    }
}

impl<'s> Iterator for Query<'s> {
    type Item = Result<Hit<'s>, SelectorError>;

    ghost next_gives = { NextGives };

    ghost remaining = { item_count (λ q. q.left) };

    fn next(&mut self) -> Option<Result<Hit<'s>, SelectorError>> {
        if self.failed {
            return None;
        }
        match next_hit(&mut self.selector, &mut self.rest, &mut self.steps) {
            Ok(Some(hit)) => Some(Ok(hit)),
            Ok(None) => None,
            Err(error) => {
                self.failed = true;
                Some(Err(SelectorError::from(error)))
            }
        }
    }
}

// The hit of the first entry that is left and picked, with a tick for each call of the evaluator.
pub(super) fn next_hit<'s>(
    selector: &mut PreparedSelector<'s>,
    rest: &mut Entries<'s>,
    steps: &mut Steps,
) -> Result<Option<Hit<'s>>, OutOfMemory>
    ensures { SearchGives (query_state selector.old rest.old steps.old) result
        (query_state selector.new rest.new steps.new) }
{
    'missed: while let Some(entry) = rest.next() {
        if let Some(bindings) = selector.apply(entry, steps)? {
            return Ok(Some(Hit { entry, bindings }));
        }
    }
    Ok(None)
}
