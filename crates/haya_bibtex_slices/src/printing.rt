//! The items of hits, printed.
ghost use Rattle.std.specs.Prelude.{◌≡◌, All, IfOk, IfSome, IsTrue, Some, map, string_bytes};
ghost use Rattle.hayagriva.specs.Library.{get, key_of};
ghost use Rattle.hayagriva.specs.Query.{hit_entry};
ghost use Rattle.haya_bibtex_slices.specs.Adding.{AddsCalled};
ghost use Rattle.haya_bibtex_slices.specs.Printed.{AddsPicked, IsPickedText, IsTextOf, SaysHits};
ghost use Rattle.haya_bibtex_slices.specs.Views.{item_view};
ghost use Rattle.haya_entry.specs.Tree.{view};

use crate::item::BibtexItem;
use crate::joining::joined;
use crate::picking::{Index, push_called, push_definitions, push_items_at};
use haya_bibtex::{BibtexReadError, read_bibtex_with_hash_keys};
use haya_entry::Entry;
use haya_entry::laws::entries_equal_by_value;
use haya_text::OutOfMemory;
use hayagriva::{HashKeys, Hit, Library};
use std::alloc::Global;

/// The entries of hits as a `.bib` text, each as it is in its own, with an empty line between two:
/// the definitions of strings and the preambles of all texts, the entries of the hits, in order, and
/// those of the others that these inherit from. The text was read again, and says under each key the
/// entry of the hit. Of no hit it is empty. A map of what is read hashes with the keys.
///
/// `None` is meant for entries that together aren't as each was: where a string is defined twice, or
/// the entry that another inherits from isn't the one that is printed; no contract says when it is
/// answered.
pub fn picked_text(
    alloc: Global,
    keys: HashKeys,
    items: &[BibtexItem<'_>],
    hits: &[Hit],
) -> Result<Option<String>, OutOfMemory>
    ensures { IfOk result (λ found. IfSome found (λ text.
        IsTextOf (map item_view items.now) hits.now (string_bytes text))) }
{
    if hits.is_empty() {
        return Ok(Some(String::new(alloc)));
    }
    hits_text(alloc, keys, items, hits)
}

// The same of hits, of which there is one at least.
fn hits_text(
    alloc: Global,
    keys: HashKeys,
    items: &[BibtexItem<'_>],
    hits: &[Hit],
) -> Result<Option<String>, OutOfMemory>
    ensures { IfOk result (λ found. IfSome found (λ text.
        IsPickedText (map item_view items.now) hits.now (string_bytes text))) }
{
    let index = Index::new(alloc, items)?;
    let places = hit_places(alloc, &index, hits)?;
    let sources = index.source_places(alloc, items, places.as_slice())?;
    let mut parts = Vec::new(alloc);
    push_definitions(items, &mut parts)?;
    if !push_hits(items, &index, hits, &mut parts)? {
        return Ok(None);
    }
    push_items_at(items, sources.as_slice(), &mut parts)?;
    let text = joined(alloc, parts.as_slice())?;
    if says_hits(alloc, keys, text.as_str(), hits)? {
        return Ok(Some(text));
    }
    Ok(None)
}

// Whether a text, read again, says the entry of each hit under its key. `false` says nothing of it.
fn says_hits(alloc: Global, keys: HashKeys, text: &str, hits: &[Hit]) -> Result<bool, OutOfMemory>
    ensures { IfOk result (λ said. IsTrue said → SaysHits text.now hits.now) }
{
    let (library, _) = match read_bibtex_with_hash_keys(alloc, keys, text) {
        Ok(read) => read,
        Err(BibtexReadError::NotBibtex(_)) => return Ok(false),
        Err(BibtexReadError::OutOfMemory) => return Err(OutOfMemory),
    };
    Ok(has_entries(&library, hits))
}

// Whether the library has the entry of each hit under its key.
fn has_entries(library: &Library, hits: &[Hit]) -> bool
    ensures { IsTrue result → All (λ hit.
        get (key_of (hit_entry hit)) library.now ≡ Some (hit_entry hit)) hits.now }
{
    'hits: for hit in hits {
        if !has_entry(library, hit.entry) {
            return false;
        }
    }
    true
}

// Whether the library has this entry under its key.
fn has_entry(library: &Library, entry: &Entry) -> bool
    ensures { IsTrue result →
        get (key_of (view entry.now)) library.now ≡ Some (view entry.now) }
{
    entries_equal_by_value();
    match library.get(entry.key()) {
        Some(found) => *found == *entry,
        None => false,
    }
}

// Where the items of hits are, in order.
fn hit_places(alloc: Global, index: &Index, hits: &[Hit]) -> Result<Vec<usize>, OutOfMemory> {
    let mut found = Vec::new(alloc);
    'hits: for hit in hits {
        if let Some(at) = index.place(hit.entry.key()) {
            found.push(at)?;
        }
    }
    Ok(found)
}

// Puts the bytes of the entries of hits behind others, in order: whether each has one.
fn push_hits<'t>(
    items: &[BibtexItem<'t>],
    index: &Index,
    hits: &[Hit],
    parts: &mut Vec<&'t str>,
) -> Result<bool, OutOfMemory>
    ensures { IfOk result (λ all. IsTrue all → AddsPicked (map item_view items.now) hits.now
        (map (λ s. s.now) parts.old.items) (map (λ s. s.now) parts.new.items)) }
{
    'hits: for hit in hits {
        if !push_hit(items, index, hit.entry, parts)? {
            return Ok(false);
        }
    }
    Ok(true)
}

// The same of the entry of one hit.
fn push_hit<'t>(
    items: &[BibtexItem<'t>],
    index: &Index,
    entry: &Entry,
    parts: &mut Vec<&'t str>,
) -> Result<bool, OutOfMemory>
    ensures { IfOk result (λ is. IsTrue is → AddsCalled (map item_view items.now)
        (key_of (view entry.now))
        (map (λ s. s.now) parts.old.items) (map (λ s. s.now) parts.new.items)) }
{
    match index.place(entry.key()) {
        Some(place) => push_called(items, place, entry.key(), parts),
        None => Ok(false),
    }
}
