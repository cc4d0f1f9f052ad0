//! The names that a hit binds, in order.
ghost use Rattle.std.specs.Prelude.{◌≡◌, IfOk, List, ℕ, option_map};
ghost use Rattle.std.specs.Cmp.Lexicographic.{slice_cmp};
ghost use Rattle.std.specs.List.Sorted.{IsStrictlySortedBy};
ghost use Rattle.std.specs.Map.{keys_of, lookup};
ghost use Rattle.std.specs.Ordering.{nat_cmp};
ghost use Rattle.std.specs.Str.{bytes_eq};
ghost use Rattle.haya_hits.specs.Line.{bound_key, names_of};

use haya_text::OutOfMemory;
use hayagriva::{Entry, Hit};
use std::alloc::Global;
use std::collections::BTreeMap;

/// The names that the hit binds, in the order of their bytes, each with its entry. The only error
/// is out of memory.
pub fn bindings<'h, 's>(
    alloc: Global,
    hit: &'h Hit<'s>,
) -> Result<BTreeMap<&'h String, &'h &'s Entry>, OutOfMemory>
    ensures all { IfOk result (λ map. (name : List ℕ) →
        lookup (bytes_eq name) (names_of map.entries) ≡ bound_key hit.now name) }
    ensures order { IfOk result (λ map.
        IsStrictlySortedBy (slice_cmp nat_cmp) (keys_of (names_of map.entries))) }
{
    Ok(hit.bindings.iter().collect::<BTreeMap<_, _>>(alloc)?)
}
