//! Places of parents: the candidates of a selector, and those that have names.
ghost use Rattle.std.specs.Prelude.{◌≡◌, IfOk, false, map, option_map, slice_get};
ghost use Rattle.std.specs.List.{list_any};
ghost use Rattle.haya_entry.specs.Names.{has_all};
ghost use Rattle.haya_entry.specs.Tree.{view};
ghost use Rattle.haya_selectors.specs.Candidates.{AreCandidates, GivesCandidates, candidate_places};
ghost use Rattle.haya_selectors.specs.Evaluation.{views};
ghost use Rattle.haya_selectors.specs.Holds.{kept_places, some_places};
ghost use Rattle.haya_selectors.specs.Places.{at_place, places};

use crate::names::NameSet;
use haya_entry::Entry;
use haya_text::OutOfMemory;
use std::alloc::Global;

// The places of the parents that a selector stands for: only a list of several takes memory.
#[derive(Drop)]
pub(crate) enum Candidates {
    All,
    One(usize),
    Nothing,
    Kept(Vec<usize>),
}

// All places of the parents, or none where there is no parent.
pub(crate) fn all_places(parents: &[Entry]) -> Option<Candidates>
    ensures { AreCandidates (views parents.now) result (some_places (places (views parents.now))) }
{
    match parents.len() {
        0 => None,
        1 => Some(Candidates::One(0)),
        _ => Some(Candidates::All),
    }
}

// The first of the candidates.
pub(crate) fn first_place(candidates: &Candidates, parents: &[Entry]) -> Option<usize>
    ensures { result ≡ slice_get (candidate_places (views parents.now) candidates.now) 0 }
{
    match candidates {
        Candidates::All => {
            if parents.is_empty() {
                return None;
            }
            Some(0)
        }
        Candidates::One(place) => Some(*place),
        Candidates::Nothing => None,
        Candidates::Kept(places) => places.first().copied(),
    }
}

// The candidates that have every name, or none where no candidate does. Where there are no
// candidates, nothing is tested.
pub(crate) fn kept_places(
    alloc: Global,
    names: &NameSet,
    parents: &[Entry],
    candidates: Candidates,
) -> Result<Option<Candidates>, OutOfMemory>
    ensures { GivesCandidates (views parents.now) result
        (kept_places names.now (views parents.now)
        (candidate_places (views parents.now) candidates)) }
{
    match candidates {
        Candidates::Nothing => Ok(Some(Candidates::Nothing)),
        Candidates::One(place) => {
            if !has_all_at(names, parents, place) {
                return Ok(None);
            }
            Ok(Some(Candidates::One(place)))
        }
        Candidates::All => {
            if parents.is_empty() {
                return Ok(Some(Candidates::All));
            }
            if !any_has(names, parents) {
                return Ok(None);
            }
            let all = listed(alloc, parents)?;
            Ok(kept_of(names, parents, all))
        }
        Candidates::Kept(places) => Ok(kept_of(names, parents, places)),
    }
}

// The same of a list.
fn kept_of(names: &NameSet, parents: &[Entry], candidates: Vec<usize>) -> Option<Candidates>
    ensures { AreCandidates (views parents.now) result
        (kept_places names.now (views parents.now) candidates.items) }
{
    if candidates.is_empty() {
        return Some(Candidates::Nothing);
    }
    let mut left = candidates;
    left.retain(|place| has_all_at(names, parents, *place));
    if left.is_empty() {
        return None;
    }
    Some(Candidates::Kept(left))
}

// Whether any parent has every name.
pub(crate) fn any_has(names: &NameSet, parents: &[Entry]) -> bool
    ensures { result ≡ list_any (has_all names.now) (views parents.now) }
{
    parents.iter().any(|parent| names.is_had(parent))
}

// All places in a list.
fn listed(alloc: Global, parents: &[Entry]) -> Result<Vec<usize>, OutOfMemory>
    ensures { IfOk result (λ v. v.items ≡ places (views parents.now)) }
{
    Ok((0..parents.len()).collect(alloc)?)
}

// Whether there is a parent at the place, with every name.
pub(crate) fn has_all_at(names: &NameSet, parents: &[Entry], place: usize) -> bool
    ensures { result ≡ at_place false (has_all names.now) (views parents.now) place }
{
    match parents.get(place) {
        Some(parent) => names.is_had(parent),
        None => false,
    }
}
