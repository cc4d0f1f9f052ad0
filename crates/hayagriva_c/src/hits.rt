//! Hits one at a time, behind pointers.
ghost use Rattle.std.specs.Prelude.{◌<◌, IfOk, OnOk, length, map, option_map, string_bytes};
ghost use Rattle.std.specs.Option.{option_copied};
ghost use Rattle.hayagriva_c.specs.Hits.{AreSlots, Gives, IsSlot, NextGives};

use crate::codes;
use crate::content::{Asked, Shelf};
use haya_text::OutOfMemory;
use haya_views::{EntryId, Found, bound_id, next_hit};

/// Which entry is meant where there is none.
const NOWHERE: EntryId = EntryId {
    place: usize::MAX,
    step: usize::MAX,
};

/// The first entry of a library from a place on where a selector holds, and those that its names
/// stand for. The place is then the next one; behind the last hit it is that of no entry.
pub fn next_of(
    shelf: Option<&Shelf>,
    asked: Option<&Asked>,
    place: &mut usize,
    hit: &mut EntryId,
    bound: &mut [EntryId],
) -> u32
    ensures { NextGives (option_map (λ s. s.now.library) shelf.entry)
        (option_copied asked.entry) result
        place.old place.new hit.old hit.new bound.old bound.new }
{
    let Some(shelf) = shelf else {
        return codes::WRONG_KIND;
    };
    let Some(asked) = asked else {
        return codes::WRONG_KIND;
    };
    let Ok(found) = next_hit(&shelf.library, &asked.selector, *place) else {
        return codes::OUT_OF_MEMORY;
    };
    match found {
        Some(found) => give(shelf, asked, &found, place, hit, bound),
        None => {
            *place = shelf.library.len();
            codes::END
        }
    }
}

// Gives a hit, and what its names stand for. The place is then the next one.
fn give(
    shelf: &Shelf,
    asked: &Asked,
    found: &Found<'_>,
    place: &mut usize,
    hit: &mut EntryId,
    bound: &mut [EntryId],
) -> u32
    requires { found.now.place < length shelf.now.library }
    ensures { Gives shelf.now.library asked.now found.now result
        place.old place.new hit.old hit.new bound.old bound.new }
{
    let Ok(()) = put_bound(shelf, asked, found, bound) else {
        return codes::OUT_OF_MEMORY;
    };
    prove!(found.place < shelf.library.len());
    *place = found.place + 1;
    *hit = EntryId {
        place: found.place,
        step: 0,
    };
    codes::OK
}

// Puts what the names stand for at a hit into slots, as many as there are of both.
fn put_bound(
    shelf: &Shelf,
    asked: &Asked,
    found: &Found<'_>,
    bound: &mut [EntryId],
) -> Result<(), OutOfMemory>
    ensures { OnOk result (AreSlots shelf.now.library found.now
        (map string_bytes asked.now.names.items) bound.old bound.new) }
{
    if asked.names.is_empty() {
        return Ok(());
    }
    let mut k = 0;
    'slots: while k < bound.len() && k < asked.names.len() {
        let name = &asked.names[k];
        bound[k] = slot_of(shelf, found, name.as_str())?;
        k += 1;
    }
    Ok(())
}

// What a name stands for at a hit.
fn slot_of(shelf: &Shelf, found: &Found<'_>, name: &str) -> Result<EntryId, OutOfMemory>
    ensures { IfOk result (IsSlot shelf.now.library found.now name.now) }
{
    match bound_id(shelf.alloc, &shelf.library, found, name)? {
        Some(id) => Ok(id),
        None => Ok(NOWHERE),
    }
}
