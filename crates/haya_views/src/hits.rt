//! Hits one at a time, and the numbers of the entries that names stand for.
ghost use Rattle.std.specs.Prelude.{◌≡◌, ◌≢◌, ℕ, Some, IfOk, MatchOption, map, slice_get};
ghost use Rattle.haya_entry.specs.Tree.{Tree, view};
ghost use Rattle.haya_selectors.specs.Applied.{AreBindings};
ghost use Rattle.haya_selectors.specs.Binds.{bound_to};
ghost use Rattle.haya_selectors.specs.Syntax.{Syntax};
ghost use Rattle.haya_views.specs.Hits.{IsFoundAt, NextIs};
ghost use Rattle.haya_views.specs.InOrder.{Means, in_order};

use crate::entry_id::EntryId;
use crate::in_order::all_of;
use haya_entry::{Entry, Steps};
use haya_selectors::CompiledSelector;
use haya_text::OutOfMemory;
use hayagriva::Library;
use std::alloc::Global;
use std::collections::HashMap;

/// A hit: the place of its entry, and what the names stand for there.
#[derive(Drop)]
pub struct Found<'l> {
    pub place: usize,
    pub bindings: HashMap<String, &'l Entry>,
}

/// The first entry of a library, from a place on, where the selector holds. The only error is out
/// of memory.
pub fn next_hit<'l>(
    library: &'l Library,
    selector: &CompiledSelector,
    from: usize,
) -> Result<Option<Found<'l>>, OutOfMemory>
    ensures { IfOk result (NextIs selector.now library.now from) }
{
    'missed: for place in from..library.len() {
        if let Some(bindings) = found_at(library, selector, place)? {
            return Ok(Some(Found { place, bindings }));
        }
    }
    Ok(None)
}

/// The number of the entry that a name stands for at a hit of the library, if there is one. The
/// only error is out of memory.
pub fn bound_id(
    alloc: Global,
    library: &Library,
    found: &Found<'_>,
    name: &str,
) -> Result<Option<EntryId>, OutOfMemory>
    ensures { IfOk result (λ id. (s : Syntax) (x : Tree) →
        slice_get library.now found.now.place ≡ Some x → AreBindings s x found.now.bindings →
        Means library.now id (bound_to s x name.now)) }
{
    let Some(bound) = found.bindings.get(name) else {
        return Ok(None);
    };
    let Some(entry) = library.nth(found.place) else {
        return Ok(None);
    };
    match step_of(alloc, entry, bound)? {
        Some(step) => Ok(Some(EntryId {
            place: found.place,
            step,
        })),
        None => Ok(None),
    }
}

// What the names stand for at the entry at a place, if the selector holds there.
fn found_at<'l>(
    library: &'l Library,
    selector: &CompiledSelector,
    place: usize,
) -> Result<Option<HashMap<String, &'l Entry>>, OutOfMemory>
    ensures { IfOk result (IsFoundAt selector.now library.now place) }
{
    match library.nth(place) {
        Some(entry) => selector.apply(entry, &mut Steps::new()),
        None => Ok(None),
    }
}

/// The number of an ancestor of an entry, or 0 for itself: that of the first that is equal to it.
/// The only error is out of memory.
pub fn step_of(alloc: Global, entry: &Entry, wanted: &Entry) -> Result<Option<usize>, OutOfMemory>
    ensures { IfOk result (λ found. MatchOption found
        ((k : ℕ) → slice_get (in_order (view entry.now)) k ≢ Some (view wanted.now))
        (λ step. slice_get (in_order (view entry.now)) step ≡ Some (view wanted.now))) }
{
    let all = all_of(alloc, entry)?;
    Ok(place_of(&all, wanted))
}

// The place of the first of these entries that is equal to another.
fn place_of(entries: &[&Entry], wanted: &Entry) -> Option<usize>
    ensures { MatchOption result
        ((k : ℕ) → slice_get (map (λ e. view e.now) entries.now) k ≢ Some (view wanted.now))
        (λ place. slice_get (map (λ e. view e.now) entries.now) place ≡ Some (view wanted.now)) }
{
    haya_entry::laws::entries_equal_by_value();
    'entries: for (place, entry) in entries.iter().enumerate() {
        if **entry == *wanted {
            return Some(place);
        }
    }
    None
}
