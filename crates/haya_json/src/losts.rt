//! Lists of what is lost.
ghost use Rattle.std.specs.Prelude.{◌≡◌, ◌++◌, [], ◌∷◌, IfOk, OnOk};
ghost use Rattle.haya_json.specs.Notes.{all_behind, lost_here, lost_of, lost_view, losts_view};
ghost use Rattle.haya_json.specs.Notes.{named, unread};
ghost use Rattle.haya_json.specs.Refusal.{refusal_at, to_item, to_member};

use crate::fault::{Step, Why};
use crate::notes::Lost;
use haya_text::OutOfMemory;
use json::Value;
use std::alloc::Global;

/// This alone is lost.
pub fn only(alloc: Global, lost: Lost) -> Result<Vec<Lost>, OutOfMemory>
    ensures { IfOk result (λ losts. losts_view losts.items ≡ lost_view lost ∷ []) }
{
    let mut losts = Vec::new(alloc);
    losts.push(lost)?;
    Ok(losts)
}

/// A value alone is lost, under this name.
pub fn only_named(alloc: Global, name: &str) -> Result<Vec<Lost>, OutOfMemory>
    ensures { IfOk result (λ losts.
        losts_view losts.items ≡ lost_here (named name.now) ∷ []) }
{
    only(alloc, Lost::named(alloc, name)?)
}

/// A value alone is lost, which isn't read for this reason.
pub fn only_unread(alloc: Global, why: Why, json: &Value<'_>) -> Result<Vec<Lost>, OutOfMemory>
    ensures { IfOk result (λ losts. losts_view losts.items ≡ lost_here (unread why) ∷ []) }
{
    only(alloc, Lost::unread(alloc, why, json)?)
}

/// What is refused of a value is lost alone.
pub fn only_refused(
    alloc: Global,
    path: Vec<Step>,
    why: Why,
    json: &Value<'_>,
) -> Result<Vec<Lost>, OutOfMemory>
    ensures { IfOk result (λ losts.
        losts_view losts.items ≡ lost_of (refusal_at path.items why) ∷ []) }
{
    only(alloc, Lost::refused(alloc, path, why, json)?)
}

/// Puts what is lost behind what was lost before.
pub fn add_lost(all: &mut Vec<Lost>, lost: Vec<Lost>) -> Result<(), OutOfMemory>
    ensures { OnOk result (losts_view all.new.items
        ≡ losts_view all.old.items ++ losts_view lost.items) }
{
    let mut more = lost;
    let added = all.append(&mut more);
    drop(more);
    match added {
        Ok(()) => Ok(()),
        Err(_) => Err(OutOfMemory),
    }
}

/// The same of what is lost of a value, seen from the object that has it under this name.
pub fn add_in_member(
    alloc: Global,
    all: &mut Vec<Lost>,
    lost: Vec<Lost>,
    name: &str,
) -> Result<(), OutOfMemory>
    ensures { OnOk result (losts_view all.new.items ≡ losts_view all.old.items
        ++ all_behind (to_member name.now) (losts_view lost.items)) }
{
    if lost.is_empty() {
        return Ok(());
    }
    add_lost(all, all_in_member(alloc, lost, name)?)
}

/// The same, seen from the array that has it at this place.
pub fn add_in_item(
    alloc: Global,
    all: &mut Vec<Lost>,
    lost: Vec<Lost>,
    place: usize,
) -> Result<(), OutOfMemory>
    ensures { OnOk result (losts_view all.new.items ≡ losts_view all.old.items
        ++ all_behind (to_item place) (losts_view lost.items)) }
{
    if lost.is_empty() {
        return Ok(());
    }
    add_lost(all, all_in_item(alloc, lost, place)?)
}

/// What is lost of a value, seen from the object that has it under this name.
pub fn all_in_member(alloc: Global, losts: Vec<Lost>, name: &str) -> Result<Vec<Lost>, OutOfMemory>
    ensures { IfOk result (λ all.
        losts_view all.items ≡ all_behind (to_member name.now) (losts_view losts.items)) }
{
    let mut all = Vec::with_capacity(alloc, losts.len())?;
    'losts: for lost in losts {
        all.push(lost.in_member(alloc, name)?)?;
    }
    Ok(all)
}

/// What is lost of a value, seen from the array that has it at this place.
pub fn all_in_item(alloc: Global, losts: Vec<Lost>, place: usize) -> Result<Vec<Lost>, OutOfMemory>
    ensures { IfOk result (λ all.
        losts_view all.items ≡ all_behind (to_item place) (losts_view losts.items)) }
{
    let mut all = Vec::with_capacity(alloc, losts.len())?;
    'losts: for lost in losts {
        all.push(lost.in_item(place)?)?;
    }
    Ok(all)
}
