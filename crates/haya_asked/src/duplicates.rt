//! Hits that share their values with others.
ghost use Rattle.std.specs.Prelude.{◌≡◌, ◌<◌, ℕ, All, IfOk, IfSome, IsPermutation, IsSorted, OnOk};
ghost use Rattle.std.specs.Prelude.{filter, length, map, slice_index};
ghost use Rattle.std.specs.List.{count_by, position_from};
ghost use Rattle.std.specs.List.Sorted.{IsStable};
ghost use Rattle.std.specs.Option.{option_cmp};
ghost use Rattle.std.specs.Ordering.{nat_cmp, on};
ghost use Rattle.haya_questions.specs.Place.{place_view};
ghost use Rattle.haya_questions.specs.Ranked.{IsSortOf};
ghost use Rattle.haya_asked.specs.Alike.{is_like};
ghost use Rattle.haya_asked.specs.Firsts.{first_order, is_shared};
ghost use Rattle.haya_asked.specs.Placed.{is_at, is_counted};

use crate::seen::{Seen, first_place};
use haya_questions::Place;
use haya_text::OutOfMemory;
use hayagriva::{HashKeys, Hit};
use std::alloc::Global;

// A hit, and the place of the first that is like it, itself or an earlier one; none where it lacks
// a value.
#[derive(Drop)]
struct PlacedHit<'s> {
    hit: Hit<'s>,
    first: Option<usize>,
}

/// The hits that others are like, as `unique_hits` has it, those that are like each other one after
/// the other, in the order of the first of them: of `a b A c B`, by their letters case aside,
/// `a A b B`. A map of the values hashes with the keys. The only error is out of memory.
pub fn duplicate_hits<'s>(
    alloc: Global,
    keys: HashKeys,
    hits: Vec<Hit<'s>>,
    places: &[Place],
) -> Result<Vec<Hit<'s>>, OutOfMemory>
    ensures { let alike = is_like (map place_view places.now) in let all = hits.entry.items in
        IfOk result (λ found.
        IsSortOf (first_order alike all) (filter (is_shared alike all) all) found.items) }
{
    let placed = placed_hits(alloc, keys, hits, places)?;
    let counts = counts_of(alloc, placed.as_slice())?;
    let mut shared = shared_hits(alloc, placed, counts.as_slice())?;
    sort_placed(&mut shared)?;
    Ok(hits_of(alloc, shared)?)
}

// The hits with the places of the first that are like them.
fn placed_hits<'s>(
    alloc: Global,
    keys: HashKeys,
    hits: Vec<Hit<'s>>,
    places: &[Place],
) -> Result<Vec<PlacedHit<'s>>, OutOfMemory>
    ensures hits { IfOk result (λ placed. map (λ p. p.hit) placed.items ≡ hits.entry.items) }
    ensures firsts { let alike = is_like (map place_view places.now) in IfOk result (λ placed.
        All (λ p. p.first ≡ position_from (alike p.hit) 0 hits.entry.items) placed.items) }
{
    let mut seen = Seen::new(alloc, keys);
    let mut placed = Vec::with_capacity(alloc, hits.len())?;
    'hits: for hit in hits {
        let first = first_place(alloc, &mut seen, &hit, places, placed.len())?;
        placed.push(PlacedHit { hit, first })?;
    }
    Ok(placed)
}

// How many hits have the first that is like them at each place.
fn counts_of(alloc: Global, placed: &[PlacedHit]) -> Result<Vec<usize>, OutOfMemory>
    requires { All (λ p. IfSome p.first (λ i. i < length placed.now)) placed.now }
    ensures { IfOk result (λ counts. (i : ℕ) →
        slice_index counts.items i ≡ count_by (λ p. is_at i p.first) placed.now) }
{
    let mut counts = vec![in alloc; 0usize; placed.len()]?;
    'placed: for one in placed {
        if let Some(first) = one.first {
            counts[first] += 1;
        }
    }
    Ok(counts)
}

// Those of which the first counts more than one.
fn shared_hits<'s>(
    alloc: Global,
    placed: Vec<PlacedHit<'s>>,
    counts: &[usize],
) -> Result<Vec<PlacedHit<'s>>, OutOfMemory>
    ensures { IfOk result (λ shared. shared.items
        ≡ filter (λ p. is_counted counts.now p.first) placed.entry.items) }
{
    let mut shared = Vec::new(alloc);
    'placed: for one in placed {
        if is_counted(counts, one.first) {
            shared.push(one)?;
        }
    }
    Ok(shared)
}

fn is_counted(counts: &[usize], first: Option<usize>) -> bool
    ensures { result ≡ is_counted counts.now first }
{
    match first {
        Some(place) => counts.get(place).copied().unwrap_or(0) > 1,
        None => false,
    }
}

// Sorts hits by the places of the first that are like them.
fn sort_placed(placed: &mut Vec<PlacedHit>) -> Result<(), OutOfMemory>
    ensures same { IsPermutation placed.old.items placed.new.items }
    ensures sorted { OnOk result
        (IsSorted (on (λ p. p.first) (option_cmp nat_cmp)) placed.new.items) }
    ensures stable { IsStable (on (λ p. p.first) (option_cmp nat_cmp))
        placed.old.items placed.new.items }
{
    placed.sort_by(|a, b| a.first.cmp(&b.first))?;
    Ok(())
}

// The hits alone.
fn hits_of<'s>(alloc: Global, placed: Vec<PlacedHit<'s>>) -> Result<Vec<Hit<'s>>, OutOfMemory>
    ensures { IfOk result (λ hits. hits.items ≡ map (λ p. p.hit) placed.entry.items) }
{
    let mut hits = Vec::with_capacity(alloc, placed.len())?;
    'placed: for one in placed {
        let PlacedHit { hit, first: _ } = one;
        hits.push(hit)?;
    }
    Ok(hits)
}
