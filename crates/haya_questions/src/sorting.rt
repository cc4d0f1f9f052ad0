//! Hits in the order of the values at places.
ghost use Rattle.std.specs.Prelude.{◌≡◌, [], ◌∷◌, IfOk, IsPermutation, IsSorted, OnOk, map};
ghost use Rattle.std.specs.List.Sorted.{IsStable};
ghost use Rattle.std.specs.Ordering.{on};
ghost use Rattle.haya_questions.specs.Order.{hit_order, ranks_at};
ghost use Rattle.haya_questions.specs.Place.{place_view};
ghost use Rattle.haya_questions.specs.Ranked.{IsSortOf, boxed_ranks, directions, first_ranks};
ghost use Rattle.haya_questions.specs.Ranked.{other_ranks, rank_view, ranked, ranked_order};
ghost use Rattle.haya_questions.specs.Ranked.{ranks_of};
ghost use Rattle.haya_questions.specs.SortText.{sort_key_view};

use crate::at_place::values_at;
use crate::place::Place;
use crate::rank::{ValueRank, cmp_ranks, ranks_of};
use crate::sort_key::SortKey;
use haya_text::OutOfMemory;
use hayagriva::Hit;
use std::alloc::Global;
use std::cmp::Ordering;

// A hit, and what it is sorted by at the place of the first key, and at those of the others.
#[derive(Drop)]
struct RankedHit<'s> {
    hit: Hit<'s>,
    first: Vec<ValueRank>,
    others: Vec<Vec<ValueRank>>,
}

/// The hits in the order of the values at the places of the keys: by the first key in which they
/// differ, and in the order that they had where they tie. Dates, numbers and pages go as citation
/// styles have them, a text in the place of a number behind all numbers; durations by length, and
/// ranges of time by their start; persons by the parts of their names, one after another; texts by
/// their default case folds and then by their bytes. Hits without a value come last, whichever way
/// a key goes. The only error is out of memory.
pub fn sort_hits<'s>(
    alloc: Global,
    hits: Vec<Hit<'s>>,
    keys: &[SortKey],
) -> Result<Vec<Hit<'s>>, OutOfMemory>
    ensures { IfOk result (λ sorted.
        IsSortOf (hit_order (map sort_key_view keys.now)) hits.entry.items sorted.items) }
{
    match keys.split_first() {
        Some((first, others)) => sorted_hits(alloc, hits, first, others),
        None => Ok(hits),
    }
}

// The same by one key or more.
fn sorted_hits<'s>(
    alloc: Global,
    hits: Vec<Hit<'s>>,
    first: &SortKey,
    others: &[SortKey],
) -> Result<Vec<Hit<'s>>, OutOfMemory>
    ensures { IfOk result (λ sorted.
        IsSortOf (hit_order (map sort_key_view (first.now ∷ others.now)))
        hits.entry.items sorted.items) }
{
    let mut kept = ranked_hits(alloc, hits, first, others)?;
    sort_ranked(&mut kept, first, others)?;
    Ok(hits_of(alloc, kept)?)
}

// The hits with what they are sorted by.
fn ranked_hits<'s>(
    alloc: Global,
    hits: Vec<Hit<'s>>,
    first: &SortKey,
    others: &[SortKey],
) -> Result<Vec<Box<RankedHit<'s>>>, OutOfMemory>
    ensures hits { IfOk result (λ kept. map (λ k. k.value.hit) kept.items ≡ hits.entry.items) }
    ensures ranks { IfOk result (λ kept. map boxed_ranks kept.items
        ≡ map (ranked (map sort_key_view (first.now ∷ others.now))) hits.entry.items) }
{
    let mut kept = Vec::with_capacity(alloc, hits.len())?;
    'hits: for hit in hits {
        let row = RankedHit {
            first: ranks_at(alloc, &hit, &first.place)?,
            others: hit_ranks(alloc, &hit, others)?,
            hit,
        };
        kept.push(Box::new(alloc, row)?)?;
    }
    Ok(kept)
}

// What a hit is sorted by at the place of each key.
fn hit_ranks(alloc: Global, hit: &Hit, keys: &[SortKey]) -> Result<Vec<Vec<ValueRank>>, OutOfMemory>
    ensures { IfOk result (λ all. map (λ ranks. map rank_view ranks.items) all.items
        ≡ ranked (map sort_key_view keys.now) hit.now) }
{
    let mut all = Vec::with_capacity(alloc, keys.len())?;
    'keys: for key in keys {
        all.push(ranks_at(alloc, hit, &key.place)?)?;
    }
    Ok(all)
}

// What a hit is sorted by at a place.
fn ranks_at(alloc: Global, hit: &Hit, place: &Place) -> Result<Vec<ValueRank>, OutOfMemory>
    ensures { IfOk result (λ ranks. map rank_view ranks.items
        ≡ ranks_at (place_view place.now) hit.now) }
{
    let values = values_at(alloc, hit, place)?;
    ranks_of(alloc, values.as_slice())
}

// Sorts hits by what is kept beside them.
fn sort_ranked(
    kept: &mut Vec<Box<RankedHit>>,
    first: &SortKey,
    others: &[SortKey],
) -> Result<(), OutOfMemory>
    ensures same { IsPermutation kept.old.items kept.new.items }
    ensures sorted { let ways = directions (first.now ∷ others.now) in
        OnOk result (IsSorted (on boxed_ranks (ranked_order ways)) kept.new.items) }
    ensures stable { let ways = directions (first.now ∷ others.now) in
        IsStable (on boxed_ranks (ranked_order ways)) kept.old.items kept.new.items }
{
    kept.sort_by(|a, b| cmp_kept(first, others, a.as_ref(), b.as_ref()))?;
    Ok(())
}

// By the first key, and then by the others.
fn cmp_kept(first: &SortKey, others: &[SortKey], a: &RankedHit, b: &RankedHit) -> Ordering
    ensures { result
        ≡ on ranks_of (ranked_order (directions (first.now ∷ others.now))) a.now b.now }
{
    let by_first = cmp_ranks(first.is_reversed, a.first.as_slice(), b.first.as_slice());
    if by_first.is_ne() {
        return by_first;
    }
    cmp_others(others, a.others.as_slice(), b.others.as_slice())
}

// By the first key in which they differ.
fn cmp_others(keys: &[SortKey], a: &[Vec<ValueRank>], b: &[Vec<ValueRank>]) -> Ordering
    ensures { result ≡ ranked_order (directions keys.now)
        (map (λ ranks. map rank_view ranks.items) a.now)
        (map (λ ranks. map rank_view ranks.items) b.now) }
{
    let mut left = a;
    let mut right = b;
    'keys: for key in keys {
        let (x, left_behind) = split_ranks(left);
        let (y, right_behind) = split_ranks(right);
        let order = cmp_ranks(key.is_reversed, x, y);
        if order != Ordering::Equal {
            return order;
        }
        left = left_behind;
        right = right_behind;
    }
    Ordering::Equal
}

// The first of the lists, and the others.
fn split_ranks(lists: &[Vec<ValueRank>]) -> (&[ValueRank], &[Vec<ValueRank>])
    ensures first { let all = map (λ ranks. map rank_view ranks.items) lists.now in
        map rank_view result.0.now ≡ first_ranks all }
    ensures others { let all = map (λ ranks. map rank_view ranks.items) lists.now in
        map (λ ranks. map rank_view ranks.items) result.1.now ≡ other_ranks all }
{
    match lists.split_first() {
        Some((first, others)) => (first.as_slice(), others),
        None => (no_ranks(), lists),
    }
}

fn no_ranks<'k>() -> &'k [ValueRank]
    ensures { result.now ≡ [] }
{
    &[]
}

// The hits alone.
fn hits_of<'s>(alloc: Global, kept: Vec<Box<RankedHit<'s>>>) -> Result<Vec<Hit<'s>>, OutOfMemory>
    ensures { IfOk result (λ hits. hits.items ≡ map (λ k. k.value.hit) kept.entry.items) }
{
    let mut hits = Vec::with_capacity(alloc, kept.len())?;
    'kept: for one in kept {
        let RankedHit { hit, .. } = Box::into_inner(one);
        hits.push(hit)?;
    }
    Ok(hits)
}
