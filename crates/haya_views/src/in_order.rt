//! Entries and their ancestors in order.
ghost use Rattle.std.specs.Prelude.{◌≡◌, ◌+◌, ◌++◌, Some, IfOk, MatchResult, OnOk, length, map};
ghost use Rattle.std.specs.Prelude.{option_map, slice_get};
ghost use Rattle.std.specs.List.{flat_map};
ghost use Rattle.haya_entry.specs.Tree.{view};
ghost use Rattle.haya_views.specs.InOrder.{in_order};

use haya_entry::Entry;
use haya_text::OutOfMemory;
use std::alloc::Global;

/// The entry itself, or its ancestor of this number in order, if there is one.
pub(crate) fn nth(entry: &Entry, step: usize) -> Option<&Entry>
    ensures { option_map (λ e. view e.now) result ≡ slice_get (in_order (view entry.now)) step }
{
    if step == 0 {
        return Some(entry);
    }
    match reach(entry.parents(), step - 1) {
        Ok(ancestor) => Some(ancestor),
        Err(_) => None,
    }
}

/// The entry itself and its ancestors, in order.
#[tactic(auto, using(crate::proofs::Orders::in_order_is))]
pub(crate) fn all_of(alloc: Global, entry: &Entry) -> Result<Vec<&Entry>, OutOfMemory>
    ensures { IfOk result (λ all. map (λ e. view e.now) all.items ≡ in_order (view entry.now)) }
{
    let mut all = Vec::new(alloc);
    all.push(entry)?;
    push_all(entry.parents(), &mut all)?;
    Ok(all)
}

// Of entries and their ancestors in order, that of the number. The error is how many more the
// number asks for than there are. It goes up to the ancestors by calls.
fn reach(entries: &[Entry], step: usize) -> Result<&Entry, usize>
    ensures { MatchResult result
        (λ e. slice_get (flat_map in_order (map view entries.now)) step ≡ Some (view e.now))
        (λ left. step ≡ length (flat_map in_order (map view entries.now)) + left) }
{
    let mut left = step;
    'entries: for entry in entries {
        if left == 0 {
            return Ok(entry);
        }
        match reach(&entry.parents, left - 1) {
            Ok(found) => return Ok(found),
            Err(more) => left = more,
        }
    }
    Err(left)
}

/// Puts entries and their ancestors in order behind others. It goes up to the ancestors by calls.
pub(crate) fn push_all<'e>(
    entries: &'e [Entry],
    all: &mut Vec<&'e Entry>,
) -> Result<(), OutOfMemory>
    ensures { OnOk result (map (λ e. view e.now) all.new.items
        ≡ map (λ e. view e.now) all.old.items ++ flat_map in_order (map view entries.now)) }
{
    'entries: for entry in entries {
        all.push(entry)?;
        push_all(&entry.parents, all)?;
    }
    Ok(())
}
