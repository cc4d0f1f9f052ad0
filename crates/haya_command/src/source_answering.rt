//! What a library answers by the elements that it was read from.
ghost use Rattle.std.specs.Prelude.{◌≡◌, List, IfOk, Some, map, string_bytes};
ghost use Rattle.std.specs.List.{AllZip};
ghost use Rattle.hayagriva.specs.Library.{from_entries, key_of};
ghost use Rattle.hayagriva.specs.Query.{hit_entry};
ghost use Rattle.haya_source.specs.Elements.{Element, SayEntries, entries_of, parts_of};
ghost use Rattle.haya_source.specs.Places.{ArePlacesOf, part_for};
ghost use Rattle.haya_command.specs.KeptElements.{AreKept};
ghost use Rattle.haya_command.specs.Source.{IsSourceAnswer, IsSourceOf, IsSourceShown};

use crate::answering::{Answer, asked_hits, count_line};
use crate::error::CommandError;
use crate::options::Options;
use crate::picking::picks;
use crate::sources::{Elements, Sources};
use haya_source::{ElementKind, Places, parts_in_order, printed_text};
use hayagriva::{HashKeys, Hit, Library};
use std::alloc::Global;

/// The answer of a library to what is asked, by the elements that it was read from, of this kind. A
/// map of values hashes with the keys. `Selector`: the selector's text is none. `NoPart`: a hit's
/// element isn't there. `NotTogether`: the hits' elements, one behind the other, say something else.
pub(crate) fn ask_source(
    alloc: Global,
    keys: HashKeys,
    options: &Options,
    kind: ElementKind,
    sources: &Sources<'_>,
) -> Result<Answer, CommandError>
    ensures { (es : List Element) → AreKept kind es sources.now.library sources.now.elements →
        IfOk result (λ answer. IsSourceAnswer options.now kind es sources.now.library
        (string_bytes answer.text) answer.found) }
{
    let selector = options.selector.as_str();
    let hits = match picks(alloc, &sources.library, selector, options.invert) {
        Ok(hits) => hits,
        Err(error) => return Err(CommandError::Selector(error)),
    };
    let asked = asked_hits(alloc, keys, hits, &options.questions)?;
    let found = !asked.is_empty();
    let text = shown(alloc, keys, asked.as_slice(), options, kind, sources)?;
    Ok(Answer {
        text,
        found,
        notes: String::new(alloc),
    })
}

// What is printed of the hits.
fn shown(
    alloc: Global,
    keys: HashKeys,
    hits: &[Hit],
    options: &Options,
    kind: ElementKind,
    sources: &Sources<'_>,
) -> Result<String, CommandError>
    ensures { (es : List Element) → AreKept kind es sources.now.library sources.now.elements →
        IfOk result (λ text. IsSourceShown options.now kind es hits.now (string_bytes text)) }
{
    if options.quiet {
        return Ok(String::new(alloc));
    }
    if options.count {
        return count_line(alloc, hits.len());
    }
    source_text(alloc, keys, hits, kind, sources)
}

// The elements of the hits as one text.
fn source_text(
    alloc: Global,
    keys: HashKeys,
    hits: &[Hit],
    kind: ElementKind,
    sources: &Sources<'_>,
) -> Result<String, CommandError>
    ensures { (es : List Element) → AreKept kind es sources.now.library sources.now.elements →
        IfOk result (λ text. IsSourceOf kind es hits.now (string_bytes text)) }
{
    let parts = parts_of(alloc, keys, hits, kind, sources)?;
    match printed_text(alloc, kind, parts.as_slice())? {
        Some(text) => Ok(text),
        None => Err(CommandError::NotTogether),
    }
}

// The element of each hit.
fn parts_of<'t>(
    alloc: Global,
    keys: HashKeys,
    hits: &[Hit],
    kind: ElementKind,
    sources: &Sources<'t>,
) -> Result<Vec<&'t str>, CommandError>
    ensures { (es : List Element) → AreKept kind es sources.now.library sources.now.elements →
        IfOk result (λ parts.
        AllZip (λ hit part. part_for (key_of (hit_entry hit)) es ≡ Some part)
        hits.now (map (λ s. s.now) parts.items)) }
{
    match &sources.elements {
        Elements::InOrder(parts) => {
            ordered_parts(alloc, keys, hits, kind, &sources.library, parts.as_slice())
        }
        Elements::Keyed(places) => kept_parts(alloc, hits, places),
    }
}

// The same by the elements of the text that the library was read from, in order: by the hits' keys
// only where these aren't in the order of the library, or come again in the text.
fn ordered_parts<'t>(
    alloc: Global,
    keys: HashKeys,
    hits: &[Hit],
    kind: ElementKind,
    library: &Library,
    parts: &[&'t str],
) -> Result<Vec<&'t str>, CommandError>
    ensures { (es : List Element) → map (λ s. s.now) parts.now ≡ parts_of es →
        SayEntries kind es → library.now ≡ from_entries (entries_of es) →
        IfOk result (λ found.
        AllZip (λ hit part. part_for (key_of (hit_entry hit)) es ≡ Some part)
        hits.now (map (λ s. s.now) found.items)) }
{
    if let Some(found) = parts_in_order(alloc, parts, library, hits)? {
        return Ok(found);
    }
    let mut places = Places::new(alloc, keys);
    places.add(alloc, keys, kind, parts, library)?;
    kept_parts(alloc, hits, &places)
}

// The same by the places of the elements.
fn kept_parts<'t>(
    alloc: Global,
    hits: &[Hit],
    places: &Places<'t>,
) -> Result<Vec<&'t str>, CommandError>
    ensures { (es : List Element) → ArePlacesOf es places.now → IfOk result (λ parts.
        AllZip (λ hit part. part_for (key_of (hit_entry hit)) es ≡ Some part)
        hits.now (map (λ s. s.now) parts.items)) }
{
    let mut parts = Vec::new(alloc);
    'hits: for hit in hits {
        match places.part(hit.entry.key()) {
            Some(part) => parts.push(part)?,
            None => return Err(CommandError::NoPart),
        }
    }
    Ok(parts)
}
