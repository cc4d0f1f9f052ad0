//! Which entries others refer to.
ghost use Rattle.std.specs.Prelude.{◌≡◌, IfOk, List, map, option_copied};
ghost use Rattle.std.specs.List.{filter_map};
ghost use Rattle.haya_bibtex_inherited.specs.Entries.{EntryBytes};
ghost use Rattle.haya_bibtex_inherited.specs.Graphs.{IsWhole};
ghost use Rattle.haya_bibtex_inherited.specs.Inherited.{reference_graph, sources};
ghost use Rattle.haya_bibtex_inherited.specs.References.{position_of};
ghost use Rattle.haya_bibtex_inherited.specs.Search.{graph_of};
ghost use Rattle.haya_bibtex_inherited.specs.Sources.{ArePositions, all_sources_view};
ghost use Rattle.haya_bibtex_inherited.specs.Sources.{sources_view};
ghost use Rattle.haya_bibtex_inherited.specs.Views.{entry_bytes};

use crate::reference::{Reference, references};
use haya_bibtex_text::Entry;
use std::alloc::{AllocError, Global};
use std::collections::BTreeMap;

/// A reference, and where the entry with its key is.
#[derive(Clone, Copy)]
pub(crate) struct Source<'a> {
    /// The reference.
    pub(crate) reference: Reference<'a>,
    /// The place of the entry, if there is one.
    pub(crate) position: Option<usize>,
}

// Where the first entry with each key is. Keys that are made to collide cost no more than others.
type Positions<'a> = BTreeMap<&'a str, usize>;

// Where the first entry with each key is. The error: there was no memory for it.
fn key_positions<'a>(alloc: Global, entries: &'a [Entry]) -> Result<Positions<'a>, AllocError>
    ensures { IfOk result (ArePositions (map entry_bytes entries.now)) }
{
    let mut positions = BTreeMap::new(alloc);
    let mut left = entries.len();
    'entries: while left > 0 {
        left -= 1;
        positions.insert(entries[left].key.as_str(), left)?;
    }
    Ok(positions)
}

// The place of the entry with a key.
fn position_of(positions: &Positions<'_>, key: &str) -> Option<usize>
    ensures { (es : List EntryBytes) → ArePositions es positions.now →
        result ≡ position_of es key.now }
{
    positions.get(key).copied()
}

// The sources of an entry. The error: there was no memory for them.
fn sources<'a>(
    alloc: Global,
    positions: &Positions<'a>,
    entry: &'a Entry,
) -> Result<Vec<Source<'a>>, AllocError>
    ensures { (es : List EntryBytes) → ArePositions es positions.now →
        IfOk result (λ v. sources_view v.items ≡ sources es (entry_bytes entry.now)) }
{
    let references = references(alloc, entry)?;
    let mut sources = Vec::with_capacity(alloc, references.len())?;
    'references: for reference in &references {
        let position = position_of(positions, reference.key);
        sources.push(Source {
            reference: *reference,
            position,
        })?;
    }
    Ok(sources)
}

/// The sources of all entries. The error: there was no memory for them.
pub(crate) fn all_sources<'a>(
    alloc: Global,
    entries: &'a [Entry],
) -> Result<Vec<Vec<Source<'a>>>, AllocError>
    ensures { IfOk result (λ v. all_sources_view v.items
        ≡ map (sources (map entry_bytes entries.now)) (map entry_bytes entries.now)) }
{
    let positions = key_positions(alloc, entries)?;
    let mut all = Vec::with_capacity(alloc, entries.len())?;
    'entries: for entry in entries {
        all.push(sources(alloc, &positions, entry)?)?;
    }
    Ok(all)
}

// Where sources are. The error: there was no memory for it.
fn targets(alloc: Global, sources: &[Source<'_>]) -> Result<Vec<usize>, AllocError>
    ensures { IfOk result (λ v.
        v.items ≡ filter_map (λ s. s.position) (sources_view sources.now)) }
{
    let mut targets = Vec::new(alloc);
    'sources: for source in sources {
        let Some(position) = source.position else {
            continue 'sources;
        };
        targets.push(position)?;
    }
    Ok(targets)
}

/// To which entries each refers. The error: there was no memory for it.
pub(crate) fn reference_graph(
    alloc: Global,
    all: &[Vec<Source<'_>>],
) -> Result<Vec<Vec<usize>>, AllocError>
    ensures { IfOk result (λ v. graph_of v.items
        ≡ map (filter_map (λ s. s.position)) (all_sources_view all.now)) }
{
    let mut graph = Vec::with_capacity(alloc, all.len())?;
    'all: for sources in all {
        graph.push(targets(alloc, sources.as_slice())?)?;
    }
    Ok(graph)
}
