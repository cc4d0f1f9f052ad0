//! The first of the hits that share values.
ghost use Rattle.std.specs.Prelude.{◌≡◌, IfOk, map};
ghost use Rattle.haya_questions.specs.Place.{place_view};
ghost use Rattle.haya_asked.specs.Alike.{is_like};
ghost use Rattle.haya_asked.specs.Firsts.{firsts};

use crate::seen::{Seen, earlier_place};
use haya_questions::Place;
use haya_text::OutOfMemory;
use hayagriva::{HashKeys, Hit};
use std::alloc::Global;

/// The hits that are like no earlier one, in their order. One is like another where both have a
/// value at each of the places, and their first values there are the same, case aside: so a hit
/// that lacks one stays. A map of the values hashes with the keys. The only error is out of memory.
pub fn unique_hits<'s>(
    alloc: Global,
    keys: HashKeys,
    hits: Vec<Hit<'s>>,
    places: &[Place],
) -> Result<Vec<Hit<'s>>, OutOfMemory>
    ensures { IfOk result (λ kept.
        kept.items ≡ firsts (is_like (map place_view places.now)) hits.entry.items) }
{
    let mut seen = Seen::new(alloc, keys);
    let mut kept = Vec::with_capacity(alloc, hits.len())?;
    'hits: for hit in hits {
        let place = kept.len();
        if earlier_place(alloc, &mut seen, &hit, places, place)?.is_none() {
            kept.push(hit)?;
        }
    }
    Ok(kept)
}
