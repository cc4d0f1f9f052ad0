//! Texts in chunks, and plain texts.
ghost use Rattle.std.specs.Prelude.{◌≡◌, ◌∷◌, [], None, Some, flat_map, map, option_map, true};
ghost use Rattle.std.specs.Prelude.{string_bytes};
ghost use Rattle.std.specs.Prelude.{IfOk, option_and_then, option_to_list};
ghost use Rattle.haya_text.specs.Chunks.{chunks};
ghost use Rattle.haya_bibtex_fields.specs.FieldTexts.{chunks_of_runs, formatted_in, kind_in, plain_kind};
ghost use Rattle.haya_bibtex_fields.specs.FieldTexts.{plain_in, run_text, title_in, title_kind, unknown_in};
ghost use Rattle.haya_bibtex_fields.specs.FieldTexts.{unknown_of, unless_empty};

use crate::reading::Reading;
use haya_latex::{Kind, Run, read_text, says_itself};
use haya_text::{ChunkKind, ChunkedString, OutOfMemory, StringChunk};
use std::alloc::Global;

/// Which kinds of characters a text keeps.
#[derive(Clone, Copy)]
pub(crate) enum Kept {
    /// All: in a title.
    All,
    /// No verbatim characters: in other texts, since case is only a question of titles.
    NoVerbatim,
}

// The kind of a chunk of a title.
fn title_kind(kind: Kind) -> ChunkKind
    ensures { result ≡ title_kind kind }
{
    match kind {
        Kind::Normal | Kind::Free => ChunkKind::Normal,
        Kind::Verbatim | Kind::Special => ChunkKind::Verbatim,
        Kind::Math => ChunkKind::Math,
    }
}

// The kind of a chunk of another text.
fn plain_kind(kind: Kind) -> ChunkKind
    ensures { result ≡ plain_kind kind }
{
    match kind {
        Kind::Math => ChunkKind::Math,
        _ => ChunkKind::Normal,
    }
}

// The kind of a chunk of characters of this kind.
fn kind_in(kept: Kept, kind: Kind) -> ChunkKind
    ensures { result ≡ kind_in kept kind }
{
    match kept {
        Kept::All => title_kind(kind),
        Kept::NoVerbatim => plain_kind(kind),
    }
}

// The chunk of a run, if there is one.
fn last_chunk(alloc: Global, kept: Kept, run: Option<Run>) -> Result<ChunkedString, OutOfMemory>
    ensures { IfOk result (λ t. chunks t ≡ chunks_of_runs (kind_in kept) (option_to_list run)) }
{
    match run {
        Some(Run { kind, text }) => {
            let chunk = StringChunk::new(text, kind_in(kept, kind));
            ChunkedString::from_chunk(alloc, chunk)
        }
        None => Ok(ChunkedString::new(alloc)),
    }
}

/// The chunks of runs of characters.
pub(crate) fn chunks_of(
    alloc: Global,
    kept: Kept,
    mut runs: Vec<Run>,
) -> Result<ChunkedString, OutOfMemory>
    ensures { IfOk result (λ t. chunks t ≡ chunks_of_runs (kind_in kept) runs.items) }
{
    // Most texts are one run.
    if runs.len() == 1 {
        return last_chunk(alloc, kept, runs.pop());
    }
    let mut text = ChunkedString::new(alloc);
    'runs: for run in &runs {
        text.push_str(run.text.as_str(), kind_in(kept, run.kind))?;
    }
    Ok(text)
}

/// The characters of runs alone.
pub(crate) fn plain_of(alloc: Global, mut runs: Vec<Run>) -> Result<String, OutOfMemory>
    ensures { IfOk result (λ t. string_bytes t ≡ flat_map run_text runs.items) }
{
    // Most texts are one run.
    if runs.len() == 1 {
        return Ok(last_text(alloc, runs.pop()));
    }
    let mut text = String::new(alloc);
    'runs: for run in &runs {
        text.push_str(run.text.as_str())?;
    }
    Ok(text)
}

// The characters of a run, if there is one.
fn last_text(alloc: Global, run: Option<Run>) -> String
    ensures { string_bytes result ≡ flat_map run_text (option_to_list run) }
{
    match run {
        Some(Run { kind: _, text }) => text,
        None => String::new(alloc),
    }
}

/// A text, unless it has no chunk.
pub(crate) fn unless_empty(text: ChunkedString) -> Option<ChunkedString>
    ensures { option_map chunks result ≡ unless_empty (chunks text) }
{
    if text.0.is_empty() { None } else { Some(text) }
}

/// A plain text, unless it is empty.
pub(crate) fn unless_empty_text(text: String) -> Option<String>
    ensures { option_map string_bytes result ≡ unless_empty (string_bytes text) }
{
    if text.is_empty() { None } else { Some(text) }
}

/// Whether a text says just itself.
pub(crate) fn is_itself(text: &str) -> bool
    ensures title { result ≡ true
        → title_in text.now ≡ Some ((text.now, ChunkKind.Normal) ∷ []) }
    ensures formatted { result ≡ true
        → formatted_in text.now ≡ Some ((text.now, ChunkKind.Normal) ∷ []) }
    ensures plain { result ≡ true → plain_in text.now ≡ Some text.now }
    ensures unknown { result ≡ true → unknown_in text.now ≡ [] }
{
    says_itself(text)
}

// A text as its one chunk.
fn one_chunk(alloc: Global, text: &str) -> Result<Reading<ChunkedString>, OutOfMemory>
    ensures value { IfOk result (λ r.
        option_map chunks r.value ≡ Some ((text.now, ChunkKind.Normal) ∷ [])) }
    ensures unknown { IfOk result (λ r. map string_bytes r.unknown.items ≡ []) }
{
    let chunk = StringChunk::new(String::from_str(alloc, text)?, ChunkKind::Normal);
    let chunks = ChunkedString::from_chunk(alloc, chunk)?;
    Ok(Reading {
        value: Some(chunks),
        unknown: Vec::new(alloc),
    })
}

/// What the text of a title says, with all its kinds of characters: those that braces protect are
/// verbatim, formulas are math. Nothing where no character is left.
pub fn read_title(alloc: Global, text: &str) -> Result<Reading<ChunkedString>, OutOfMemory>
    ensures value { IfOk result (λ r. option_map chunks r.value ≡ title_in text.now) }
    ensures unknown { IfOk result (λ r. map string_bytes r.unknown.items ≡ unknown_in text.now) }
{
    if is_itself(text) {
        return one_chunk(alloc, text);
    }
    let read = read_text(alloc, text)?;
    let chunks = chunks_of(alloc, Kept::All, read.runs)?;
    Ok(Reading {
        value: unless_empty(chunks),
        unknown: read.unknown,
    })
}

/// What any other text says that is formatted, as a note: the same without verbatim characters,
/// which are plain here, since case is only a question of titles.
pub fn read_formatted(alloc: Global, text: &str) -> Result<Reading<ChunkedString>, OutOfMemory>
    ensures value { IfOk result (λ r. option_map chunks r.value ≡ formatted_in text.now) }
    ensures unknown { IfOk result (λ r. map string_bytes r.unknown.items ≡ unknown_in text.now) }
{
    if is_itself(text) {
        return one_chunk(alloc, text);
    }
    let read = read_text(alloc, text)?;
    let chunks = chunks_of(alloc, Kept::NoVerbatim, read.runs)?;
    Ok(Reading {
        value: unless_empty(chunks),
        unknown: read.unknown,
    })
}

/// The characters of a text alone, as of a number or a name of a language. Nothing where none is
/// left.
pub fn read_plain(alloc: Global, text: &str) -> Result<Reading<String>, OutOfMemory>
    ensures value { IfOk result (λ r. option_map string_bytes r.value ≡ plain_in text.now) }
    ensures unknown { IfOk result (λ r. map string_bytes r.unknown.items ≡ unknown_in text.now) }
{
    if is_itself(text) {
        return Ok(Reading {
            value: Some(String::from_str(alloc, text)?),
            unknown: Vec::new(alloc),
        });
    }
    let read = read_text(alloc, text)?;
    let plain = plain_of(alloc, read.runs)?;
    Ok(Reading {
        value: unless_empty_text(plain),
        unknown: read.unknown,
    })
}

/// What the text of a title says, if it is there.
pub fn title_if_any(
    alloc: Global,
    text: Option<&str>,
) -> Result<Reading<ChunkedString>, OutOfMemory>
    ensures value { IfOk result (λ r. option_map chunks r.value
        ≡ option_and_then title_in (option_map (λ t. t.now) text.entry)) }
    ensures unknown { IfOk result (λ r. map string_bytes r.unknown.items
        ≡ unknown_of (option_map (λ t. t.now) text.entry)) }
{
    match text {
        Some(text) => read_title(alloc, text),
        None => Ok(nothing(alloc)),
    }
}

/// What another text that is formatted says, if it is there.
pub fn formatted_if_any(
    alloc: Global,
    text: Option<&str>,
) -> Result<Reading<ChunkedString>, OutOfMemory>
    ensures value { IfOk result (λ r. option_map chunks r.value
        ≡ option_and_then formatted_in (option_map (λ t. t.now) text.entry)) }
    ensures unknown { IfOk result (λ r. map string_bytes r.unknown.items
        ≡ unknown_of (option_map (λ t. t.now) text.entry)) }
{
    match text {
        Some(text) => read_formatted(alloc, text),
        None => Ok(nothing(alloc)),
    }
}

/// The characters of a text alone, if it is there.
pub(crate) fn plain_if_any(
    alloc: Global,
    text: Option<&str>,
) -> Result<Reading<String>, OutOfMemory>
    ensures value { IfOk result (λ r. option_map string_bytes r.value
        ≡ option_and_then plain_in (option_map (λ t. t.now) text.entry)) }
    ensures unknown { IfOk result (λ r. map string_bytes r.unknown.items
        ≡ unknown_of (option_map (λ t. t.now) text.entry)) }
{
    match text {
        Some(text) => read_plain(alloc, text),
        None => Ok(nothing(alloc)),
    }
}

// What no text says.
fn nothing<T>(alloc: Global) -> Reading<T>
    ensures value { result.value ≡ None }
    ensures unknown { map string_bytes result.unknown.items ≡ [] }
{
    Reading {
        value: None,
        unknown: Vec::new(alloc),
    }
}
