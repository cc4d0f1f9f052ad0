//! Values that were seen.
ghost use Rattle.std.specs.Prelude.{◌≡◌, ℕ, List, None, IfOk, OnOk, map, option_and_then};
ghost use Rattle.std.specs.Prelude.{option_map, string_bytes, unwrap_or};
ghost use Rattle.haya_questions.specs.Place.{place_view};
ghost use Rattle.haya_asked.specs.Alike.{first_values};
ghost use Rattle.haya_asked.specs.Seen.{place_of, with_some, with_values};

use crate::values::first_values;
use haya_questions::Place;
use haya_text::OutOfMemory;
use hayagriva::{HashKeys, Hit};
use std::alloc::Global;
use std::collections::HashMap;

/// Values, each with the place under which they were put.
#[derive(Drop)]
pub(crate) struct Seen {
    places: HashMap<Vec<String>, usize, HashKeys>,
}

impl Seen {
    /// No values, in a map that hashes with these keys.
    pub(crate) fn new(alloc: Global, keys: HashKeys) -> Seen
        ensures { (values : List (List ℕ)) → place_of result values ≡ None }
    {
        Seen {
            places: HashMap::with_hasher(alloc, keys),
        }
    }

    /// The place under which the values were put before, if they were; otherwise they are put under
    /// this one.
    pub(crate) fn put(
        &mut self,
        values: Vec<String>,
        place: usize,
    ) -> Result<Option<usize>, OutOfMemory>
        ensures before { IfOk result (λ found. found
            ≡ place_of self.old (map string_bytes values.items)) }
        ensures after { OnOk result ((others : List (List ℕ)) → place_of self.new others
            ≡ with_values (place_of self.old) (map string_bytes values.items) place others) }
    {
        if let Some(found) = self.places.get(&values) {
            return Ok(Some(*found));
        }
        self.places.insert(values, place)?;
        Ok(None)
    }
}

/// The place under which a hit with the same values was put, if one was; otherwise this hit's are
/// put under this one. A hit that lacks a value is like none.
pub(crate) fn earlier_place(
    alloc: Global,
    seen: &mut Seen,
    hit: &Hit,
    places: &[Place],
    place: usize,
) -> Result<Option<usize>, OutOfMemory>
    ensures before { IfOk result (λ found. found
        ≡ option_and_then (place_of seen.old) (first_values (map place_view places.now) hit.now)) }
    ensures after { let values = first_values (map place_view places.now) hit.now in
        OnOk result ((others : List (List ℕ)) →
        place_of seen.new others ≡ with_some (place_of seen.old) values place others) }
{
    match first_values(alloc, hit, places)? {
        Some(values) => seen.put(values, place),
        None => Ok(None),
    }
}

/// The place of the first hit with the same values: of an earlier one, or this one's, under which
/// they are put. There is none where the hit lacks a value.
pub(crate) fn first_place(
    alloc: Global,
    seen: &mut Seen,
    hit: &Hit,
    places: &[Place],
    place: usize,
) -> Result<Option<usize>, OutOfMemory>
    ensures first { IfOk result (λ first. first
        ≡ option_map (λ values. unwrap_or (place_of seen.old values) place)
        (first_values (map place_view places.now) hit.now)) }
    ensures after { let values = first_values (map place_view places.now) hit.now in
        OnOk result ((others : List (List ℕ)) →
        place_of seen.new others ≡ with_some (place_of seen.old) values place others) }
{
    match first_values(alloc, hit, places)? {
        Some(values) => Ok(Some(seen.put(values, place)?.unwrap_or(place))),
        None => Ok(None),
    }
}
