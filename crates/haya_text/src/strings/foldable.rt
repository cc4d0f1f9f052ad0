//! Texts without math, whose case may be folded.
ghost use Rattle.std.specs.Prelude.{◌≡◌, ◌≤◌, List, [], false, length, map, vec_capacity, IfOk};
ghost use Rattle.std.specs.Prelude.{MatchResult};
ghost use Rattle.std.specs.List.{list_any};
ghost use denote.Enum.Bare.{sameb};
ghost use Rattle.haya_text.specs.contracts.strings.kind.ChunkKind.{the_type};
ghost use Rattle.haya_text.specs.Chunks.{Chunk, chunk_view, chunks};
ghost use Rattle.haya_text.specs.Foldable.{foldable_view, foldable_chunks, has_math, RefusesFold};

use crate::{ChunkKind, ChunkedString, FoldableKind, OutOfMemory, StringChunk, TryClone};
use std::alloc::Global;

/// A chunk whose case may be folded: no math.
#[derive(Debug, Drop, PartialEq, Eq, Hash)]
pub struct FoldableStringChunk {
    /// The text of the chunk.
    pub value: String,
    /// What it is for.
    pub kind: FoldableKind,
}

/// A text in chunks, in order, without math.
#[derive(Debug, Drop, PartialEq, Eq, Hash)]
pub struct FoldableChunkedString(
    /// The chunks, in order.
    pub Vec<FoldableStringChunk>,
);

/// Why a text was not taken over into one without math. The text is handed back as it was.
#[derive(Debug, Drop, PartialEq, Eq)]
pub enum FoldError {
    /// A chunk of it is math.
    Math(ChunkedString),
    /// There was no memory for the list of its chunks.
    OutOfMemory(ChunkedString),
}

impl FoldableStringChunk {
    /// A copy, equal to this chunk.
    pub fn try_clone(&self, alloc: Global) -> Result<FoldableStringChunk, OutOfMemory>
        ensures { IfOk result (λ copy. foldable_view copy ≡ foldable_view self.now) }
    {
        Ok(FoldableStringChunk {
            value: self.value.try_clone(alloc)?,
            kind: self.kind,
        })
    }
}

impl TryClone for FoldableStringChunk {
    ghost View = { Chunk };

    ghost view = { foldable_view };

    fn try_clone(&self, alloc: Global) -> Result<FoldableStringChunk, OutOfMemory> {
        self.try_clone(alloc)
    }
}

impl TryFrom<StringChunk> for FoldableStringChunk {
    type Error = StringChunk;

    ghost use Rattle.haya_text.specs.Foldable.{FoldsChunk};

    ghost try_from_gives = { FoldsChunk };

    /// The same chunk. One of math is refused, and handed back.
    fn try_from(chunk: StringChunk) -> Result<FoldableStringChunk, StringChunk> {
        match FoldableKind::try_from(chunk.kind) {
            Ok(kind) => Ok(FoldableStringChunk {
                value: chunk.value,
                kind,
            }),
            Err(()) => Err(chunk),
        }
    }
}

impl From<FoldableStringChunk> for StringChunk {
    ghost from_gives = { λ folded chunk. chunk_view chunk ≡ foldable_view folded };

    /// The same chunk.
    fn from(chunk: FoldableStringChunk) -> StringChunk {
        StringChunk {
            value: chunk.value,
            kind: ChunkKind::from(chunk.kind),
        }
    }
}

impl FoldableChunkedString {
    /// The text without chunks.
    pub fn new(alloc: Global) -> FoldableChunkedString
        ensures { foldable_chunks result ≡ [] }
    {
        FoldableChunkedString(Vec::new(alloc))
    }

    /// The same chunks, in order. A text with math is refused before anything is allocated. A text
    /// that is refused is handed back as it was.
    #[tactic(auto, using(crate::proofs::Folds::has_math_items))]
    pub fn try_from_chunked(
        alloc: Global,
        text: ChunkedString,
    ) -> Result<FoldableChunkedString, FoldError>
        ensures { MatchResult result
            (λ folded. foldable_chunks folded ≡ chunks text) (RefusesFold text) }
    {
        if has_math(&text.0) {
            return Err(FoldError::Math(text));
        }
        match Vec::with_capacity(alloc, text.0.len()) {
            Ok(room) => Ok(fold_all(text.0, room)),
            Err(_) => Err(FoldError::OutOfMemory(text)),
        }
    }

    /// A copy, equal to this text.
    pub fn try_clone(&self, alloc: Global) -> Result<FoldableChunkedString, OutOfMemory>
        ensures { IfOk result (λ copy. foldable_chunks copy ≡ foldable_chunks self.now) }
    {
        Ok(FoldableChunkedString(self.0.try_clone(alloc)?))
    }
}

impl TryClone for FoldableChunkedString {
    ghost View = { List Chunk };

    ghost view = { foldable_chunks };

    fn try_clone(&self, alloc: Global) -> Result<FoldableChunkedString, OutOfMemory> {
        self.try_clone(alloc)
    }
}

impl ChunkedString {
    /// The same chunks, in order. Where an allocation fails the text is handed back as it was.
    pub fn from_foldable(
        alloc: Global,
        text: FoldableChunkedString,
    ) -> Result<ChunkedString, FoldableChunkedString>
        ensures { MatchResult result
            (λ unfolded. chunks unfolded ≡ foldable_chunks text)
            (λ back. foldable_chunks back ≡ foldable_chunks text) }
    {
        match Vec::with_capacity(alloc, text.0.len()) {
            Ok(room) => Ok(unfold_all(text.0, room)),
            Err(_) => Err(text),
        }
    }
}

// Whether a chunk is math.
fn has_math(items: &[StringChunk]) -> bool
    ensures { result ≡ list_any (λ c. sameb the_type c.kind ChunkKind.Math) items.now }
{
    items.iter().any(|chunk| chunk.kind == ChunkKind::Math)
}

// Takes chunks over into a list that has room for them.
fn fold_all(items: Vec<StringChunk>, room: Vec<FoldableStringChunk>) -> FoldableChunkedString
    requires foldable { has_math (map chunk_view items.items) ≡ false }
    requires empty { room.items ≡ [] }
    requires room { length items.items ≤ vec_capacity room }
    ensures { foldable_chunks result ≡ map chunk_view items.items }
{
    let mut folded = room;
    for chunk in items {
        if let Ok(chunk) = FoldableStringChunk::try_from(chunk) {
            folded.push_reserved(chunk);
        }
    }
    FoldableChunkedString(folded)
}

// Takes chunks over into a list that has room for them.
fn unfold_all(items: Vec<FoldableStringChunk>, room: Vec<StringChunk>) -> ChunkedString
    requires empty { room.items ≡ [] }
    requires room { length items.items ≤ vec_capacity room }
    ensures { chunks result ≡ map foldable_view items.items }
{
    let mut unfolded = room;
    for chunk in items {
        unfolded.push_reserved(StringChunk::from(chunk));
    }
    ChunkedString(unfolded)
}
