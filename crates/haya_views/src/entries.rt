//! Entries of a library by key and by number.
ghost use Rattle.std.specs.Prelude.{◌≡◌, IfOk, IfSome, option_map};
ghost use Rattle.haya_entry.specs.Tree.{view};
ghost use Rattle.hayagriva.specs.Library.{get};
ghost use Rattle.haya_views.specs.InOrder.{Means, entry_at, parent_at};

use crate::entry_id::EntryId;
use crate::in_order::{nth, push_all};
use haya_entry::Entry;
use haya_text::OutOfMemory;
use hayagriva::Library;
use std::alloc::Global;

/// The entry that is meant, if there is one.
pub fn entry_at<'l>(library: &'l Library, id: &EntryId) -> Option<&'l Entry>
    ensures { option_map (λ e. view e.now) result ≡ entry_at library.now id.now }
{
    let entry = library.nth(id.place)?;
    nth(entry, id.step)
}

/// The number of the library's entry with a key, if there is one.
pub fn entry_of_key(library: &Library, key: &str) -> Option<EntryId>
    ensures { Means library.now result (get key.now library.now) }
{
    'entries: for place in 0..library.len() {
        let Some(entry) = library.nth(place) else {
            return None;
        };
        if key == entry.key() {
            return Some(EntryId { place, step: 0 });
        }
    }
    None
}

/// The number of the parent at a place of the entry that is meant, if there is one. The only error
/// is out of memory.
pub fn parent_of(
    alloc: Global,
    library: &Library,
    id: &EntryId,
    place: usize,
) -> Result<Option<EntryId>, OutOfMemory>
    ensures { IfOk result
        (λ parent. Means library.now parent (parent_at library.now id.now place)) }
{
    let Some(entry) = entry_at(library, id) else {
        return Ok(None);
    };
    if place >= entry.parents().len() {
        return Ok(None);
    }
    let mut before = Vec::new(alloc);
    push_all(&entry.parents()[..place], &mut before)?;
    match before.len().checked_add(1) {
        Some(more) => match id.step.checked_add(more) {
            Some(step) => Ok(Some(EntryId {
                place: id.place,
                step,
            })),
            None => Err(OutOfMemory),
        },
        None => Err(OutOfMemory),
    }
}
