//! The entries of a library, with all their fields.
ghost use Rattle.std.specs.Prelude.{◌≡◌, ◌<◌, ◌≤◌, ◌++◌, ℕ, All, List, IfOk, IfSome, OnOk, filter};
ghost use Rattle.std.specs.Prelude.{[], codes, false, get_or, length, map};
ghost use Rattle.std.specs.Str.{bytes_eq};
ghost use Rattle.haya_bibtex_inherited.specs.Entries.{EntryBytes};
ghost use Rattle.haya_bibtex_inherited.specs.Graphs.{IsInOrder};
ghost use Rattle.haya_bibtex_inherited.specs.Inherited.{AreAllFields, IsLibrary, all_fields};
ghost use Rattle.haya_bibtex_inherited.specs.Inherited.{entry_at, is_passed_over};
ghost use Rattle.haya_bibtex_inherited.specs.Inherited.{entries_with, passed_over_from};
ghost use Rattle.haya_bibtex_inherited.specs.Inherited.{reference_graph, reference_of, sources};
ghost use Rattle.haya_bibtex_inherited.specs.Inherited.{with_source};
ghost use Rattle.haya_bibtex_inherited.specs.Lists.{have_same_rank, lists_view};
ghost use Rattle.haya_bibtex_inherited.specs.FieldNames.{KnowsNames};
ghost use Rattle.haya_bibtex_inherited.specs.References.{ReferenceBytes, references};
ghost use Rattle.haya_bibtex_inherited.specs.Sources.{all_sources_view, source_view};
ghost use Rattle.haya_bibtex_inherited.specs.Sources.{sources_view};
ghost use Rattle.haya_bibtex_inherited.specs.Views.{entry_bytes, entry_view, fields_view};
ghost use Rattle.haya_bibtex_inherited.specs.Views.{reference_view};

use crate::changes::changes_between;
use crate::field::{FieldRef, Fields, add_given, own_fields, own_list};
use crate::order::{Order, in_order};
use crate::reference::{Reference, may_refer};
use crate::source::{Source, all_sources, reference_graph};
use haya_bibtex_text::Entry;
use std::alloc::{AllocError, Global};

/// An entry of a library, with all its fields.
#[derive(Drop)]
pub struct EntryRef<'a> {
    /// Its type, in lower case.
    pub kind: &'a str,
    /// Its key.
    pub key: &'a str,
    /// Its own fields, and behind them those that it inherits.
    pub fields: Vec<FieldRef<'a>>,
}

/// The entries of a library, and what is passed over.
#[derive(Drop)]
pub struct LibraryEntries<'a> {
    /// The entries, in order.
    pub entries: Vec<EntryRef<'a>>,
    /// The references that are passed over, in order: a key of no entry, or one that leads in a
    /// circle.
    pub passed_over: Vec<Reference<'a>>,
}

// Adds what a source of the entry at a place gives. The error: there was no memory for it.
fn add_source<'a>(
    fields: &mut Fields<'a>,
    entries: &'a [Entry],
    ranks: &[usize],
    lists: &[Vec<FieldRef<'a>>],
    place: usize,
    source: &Source<'a>,
) -> Result<(), AllocError>
    requires known { place < length entries.now }
    requires source { IfSome source.now.position (λ j. j < length entries.now) }
    requires ranks { length ranks.now ≡ length entries.now }
    requires lists { length lists.now ≡ length entries.now }
    requires knows { KnowsNames fields.old }
    ensures knows { OnOk result (KnowsNames fields.new) }
    ensures fields { OnOk result (fields_view fields.new.list.items
        ≡ with_source (have_same_rank ranks.now) (map entry_bytes entries.now)
        (lists_view lists.now) place (fields_view fields.old.list.items)
        (source_view source.now)) }
{
    let Some(other) = source.position else {
        return Ok(());
    };
    if ranks[other] == ranks[place] {
        return Ok(());
    }
    let changes = changes_between(
        source.reference.link,
        entries[other].kind.as_str(),
        entries[place].kind.as_str(),
    );
    add_given(fields, lists[other].as_slice(), changes)?;
    Ok(())
}

// The fields of the entry at a place, where those of its sources are known. The error: there was no
// memory for them.
fn all_fields<'a>(
    alloc: Global,
    entries: &'a [Entry],
    found: &[Source<'a>],
    ranks: &[usize],
    lists: &[Vec<FieldRef<'a>>],
    place: usize,
) -> Result<Vec<FieldRef<'a>>, AllocError>
    requires known { place < length entries.now }
    requires sources { sources_view found.now ≡ sources (map entry_bytes entries.now)
        (entry_at (map entry_bytes entries.now) place) }
    requires ranks { length ranks.now ≡ length entries.now }
    requires lists { length lists.now ≡ length entries.now }
    ensures { IfOk result (λ v. fields_view v.items
        ≡ all_fields (have_same_rank ranks.now) (map entry_bytes entries.now)
        (lists_view lists.now) place) }
{
    let own = entries[place].fields.as_slice();
    if found.is_empty() {
        return own_list(alloc, own);
    }
    let mut fields = own_fields(alloc, own)?;
    'sources: for source in found {
        add_source(&mut fields, entries, ranks, lists, place, source)?;
    }
    Ok(fields.list)
}

// As many empty lists. The error: there was no memory for them.
fn empty_lists<'a>(alloc: Global, count: usize) -> Result<Vec<Vec<FieldRef<'a>>>, AllocError>
    ensures { IfOk result (λ v. length v.items ≡ count) }
{
    let mut lists = Vec::with_capacity(alloc, count)?;
    'lists: while lists.len() < count {
        lists.push(Vec::new(alloc))?;
    }
    Ok(lists)
}

// The fields of all entries. The error: there was no memory for them.
fn lists<'a>(
    alloc: Global,
    entries: &'a [Entry],
    all: &[Vec<Source<'a>>],
    order: &Order,
) -> Result<Vec<Vec<FieldRef<'a>>>, AllocError>
    requires sources { all_sources_view all.now
        ≡ map (sources (map entry_bytes entries.now)) (map entry_bytes entries.now) }
    requires many { length order.now.ranks.items ≡ length entries.now }
    requires order { IsInOrder (reference_graph (map entry_bytes entries.now))
        order.now.ranks.items order.now.nodes.items }
    ensures { IfOk result (λ v. AreAllFields (have_same_rank order.now.ranks.items)
        (map entry_bytes entries.now) (lists_view v.items)) }
{
    let mut lists = empty_lists(alloc, entries.len())?;
    'nodes: for node in &order.nodes {
        let sources = all[*node].as_slice();
        let ranks = order.ranks.as_slice();
        let list = all_fields(alloc, entries, sources, ranks, lists.as_slice(), *node)?;
        lists[*node] = list;
    }
    Ok(lists)
}

// Whether a source of the entry at a place is passed over.
fn is_passed_over(ranks: &[usize], place: usize, source: &Source<'_>) -> bool
    requires known { place < length ranks.now }
    requires source { IfSome source.now.position (λ j. j < length ranks.now) }
    ensures { result
        ≡ is_passed_over (have_same_rank ranks.now) place (source_view source.now) }
{
    match source.position {
        Some(other) => ranks[other] == ranks[place],
        None => true,
    }
}

// Adds the references of the entry at a place that are passed over. The error: there was no memory.
fn push_passed_over<'a>(
    passed_over: &mut Vec<Reference<'a>>,
    ranks: &[usize],
    place: usize,
    sources: &[Source<'a>],
) -> Result<(), AllocError>
    requires known { place < length ranks.now }
    requires sources { All (λ s. IfSome s.position (λ j. j < length ranks.now))
        (sources_view sources.now) }
    ensures { OnOk result (map reference_view passed_over.new.items
        ≡ map reference_view passed_over.old.items ++ map reference_of
        (filter (is_passed_over (have_same_rank ranks.now) place) (sources_view sources.now))) }
{
    'sources: for source in sources {
        if !is_passed_over(ranks, place, source) {
            continue 'sources;
        }
        passed_over.push(source.reference)?;
    }
    Ok(())
}

// The references that are passed over. The error: there was no memory for them.
fn passed_over<'a>(
    alloc: Global,
    ranks: &[usize],
    all: &[Vec<Source<'a>>],
) -> Result<Vec<Reference<'a>>, AllocError>
    requires many { length all.now ≡ length ranks.now }
    requires sources { All (All (λ s. IfSome s.position (λ j. j < length ranks.now)))
        (all_sources_view all.now) }
    ensures { IfOk result (λ v. map reference_view v.items
        ≡ passed_over_from (have_same_rank ranks.now) 0 (all_sources_view all.now)) }
{
    let mut passed_over = Vec::new(alloc);
    'places: for place in 0..all.len() {
        push_passed_over(&mut passed_over, ranks, place, all[place].as_slice())?;
    }
    Ok(passed_over)
}

// Whether an entry is of the type `xdata`, which only gives others its fields.
fn is_xdata(entry: &Entry) -> bool
    ensures { result ≡ bytes_eq (entry_bytes entry.now).kind (codes "xdata") }
{
    entry.kind.as_str() == "xdata"
}

// The entries with these fields, but those of the type `xdata`. The error: there was no memory.
fn entries_with<'a>(
    alloc: Global,
    entries: &'a [Entry],
    mut lists: Vec<Vec<FieldRef<'a>>>,
) -> Result<Vec<EntryRef<'a>>, AllocError>
    requires { length lists.items ≡ length entries.now }
    ensures { IfOk result (λ v. map entry_view v.items
        ≡ entries_with (map entry_bytes entries.now) (lists_view lists.entry.items)) }
{
    let mut library = Vec::new(alloc);
    'lists: while let Some(fields) = lists.pop() {
        let entry = &entries[lists.len()];
        if is_xdata(entry) {
            continue 'lists;
        }
        library.push(EntryRef {
            kind: entry.kind.as_str(),
            key: entry.key.as_str(),
            fields,
        })?;
    }
    library.reverse();
    Ok(library)
}

// Whether any of the entries may refer to others.
fn may_any_refer(entries: &[Entry]) -> bool
    ensures { result ≡ false → All (λ e. references e ≡ []) (map entry_bytes entries.now) }
{
    'entries: for entry in entries {
        if may_refer(entry) {
            return true;
        }
    }
    false
}

// The entries with their own fields alone, but those of the type `xdata`. The error: there was no
// memory for them.
fn own_entries<'a>(alloc: Global, entries: &'a [Entry]) -> Result<Vec<EntryRef<'a>>, AllocError>
    ensures { IfOk result (λ v. map entry_view v.items ≡ entries_with
        (map entry_bytes entries.now) (map (λ e. e.fields) (map entry_bytes entries.now))) }
{
    let mut library = Vec::with_capacity(alloc, entries.len())?;
    'entries: for entry in entries {
        if is_xdata(entry) {
            continue 'entries;
        }
        let fields = own_list(alloc, entry.fields.as_slice())?;
        library.push(EntryRef {
            kind: entry.kind.as_str(),
            key: entry.key.as_str(),
            fields,
        })?;
    }
    Ok(library)
}

// The library of entries that may refer to each other.
fn referring_entries<'a>(
    alloc: Global,
    entries: &'a [Entry],
) -> Result<LibraryEntries<'a>, AllocError>
    ensures is { IfOk result (λ l. IsLibrary (map entry_bytes entries.now)
        (map entry_view l.entries.items) (map reference_view l.passed_over.items)) }
    ensures only { IfOk result (λ l. (es : List EntryBytes) (rs : List ReferenceBytes) →
        IsLibrary (map entry_bytes entries.now) es rs →
        (es ≡ map entry_view l.entries.items) × (rs ≡ map reference_view l.passed_over.items)) }
{
    let sources = all_sources(alloc, entries)?;
    let graph = reference_graph(alloc, sources.as_slice())?;
    let order = in_order(alloc, graph.as_slice())?;
    let lists = lists(alloc, entries, sources.as_slice(), &order)?;
    let passed_over = passed_over(alloc, order.ranks.as_slice(), sources.as_slice())?;
    let entries = entries_with(alloc, entries, lists)?;
    Ok(LibraryEntries {
        entries,
        passed_over,
    })
}

/// The entries of the library that entries of a `.bib` file make, each with its own fields and
/// those that it inherits, and the references that are passed over. The error: there was no memory
/// for them.
pub fn library_entries<'a>(
    alloc: Global,
    entries: &'a [Entry],
) -> Result<LibraryEntries<'a>, AllocError>
    ensures is { IfOk result (λ l. IsLibrary (map entry_bytes entries.now)
        (map entry_view l.entries.items) (map reference_view l.passed_over.items)) }
    ensures only { IfOk result (λ l. (es : List EntryBytes) (rs : List ReferenceBytes) →
        IsLibrary (map entry_bytes entries.now) es rs →
        (es ≡ map entry_view l.entries.items) × (rs ≡ map reference_view l.passed_over.items)) }
{
    if may_any_refer(entries) {
        return match referring_entries(alloc, entries) {
            Ok(library) => Ok(library),
            Err(error) => Err(error),
        };
    }
    let entries = own_entries(alloc, entries)?;
    Ok(LibraryEntries {
        entries,
        passed_over: Vec::new(alloc),
    })
}
