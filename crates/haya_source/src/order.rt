//! The elements of hits that come in the order of their library.
ghost use Rattle.std.specs.Prelude.{◌≡◌, List, IfOk, IfSome, Some, length, map};
ghost use Rattle.std.specs.List.{AllZip};
ghost use Rattle.hayagriva.specs.Library.{AreDistinct, from_entries, key_of};
ghost use Rattle.hayagriva.specs.Query.{hit_entry};
ghost use Rattle.haya_source.specs.Elements.{Element, entries_of, parts_of};
ghost use Rattle.haya_source.specs.Places.{part_for};

use haya_text::OutOfMemory;
use hayagriva::{Hit, Library};
use std::alloc::Global;

/// The element of each hit: where no key comes again, that at the place of its entry. `parts` are the
/// elements of the text that the library was read from. `None` where a key comes again, or where the
/// hits aren't in the order of the library: `Places` has the elements then.
pub fn parts_in_order<'t>(
    alloc: Global,
    parts: &[&'t str],
    library: &Library,
    hits: &[Hit],
) -> Result<Option<Vec<&'t str>>, OutOfMemory>
    ensures { (es : List Element) → map (λ s. s.now) parts.now ≡ parts_of es →
        library.now ≡ from_entries (entries_of es) → IfOk result (λ o. IfSome o (λ found.
        AllZip (λ hit part. part_for (key_of (hit_entry hit)) es ≡ Some part)
        hits.now (map (λ s. s.now) found.items))) }
{
    if parts.len() != library.len() {
        return Ok(None);
    }
    // No two entries of a library have one key.
    drop(library.iter());
    let mut found = Vec::with_capacity(alloc, hits.len())?;
    let mut place = 0;
    'hits: for hit in hits {
        match next_part(parts, library, &mut place, hit.entry.key()) {
            Some(part) => found.push(part)?,
            None => return Ok(None),
        }
    }
    Ok(Some(found))
}

// The element of the first entry with this key from a place on, which goes behind it.
fn next_part<'t>(
    parts: &[&'t str],
    library: &Library,
    place: &mut usize,
    key: &str,
) -> Option<&'t str>
    requires as_many { length parts.now ≡ length library.now }
    requires distinct { AreDistinct library.now }
    ensures { (es : List Element) → map (λ s. s.now) parts.now ≡ parts_of es →
        library.now ≡ entries_of es →
        IfSome result (λ part. part_for key.now es ≡ Some part.now) }
{
    'entries: while *place < parts.len() {
        let at = *place;
        *place += 1;
        match library.nth(at) {
            Some(entry) if entry.key() == key => return Some(parts[at]),
            _ => {}
        }
    }
    None
}
