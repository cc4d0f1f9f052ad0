//! A chunk of a text, which has one kind.
ghost use Rattle.std.specs.Prelude.{◌≡◌, ◌↔◌, [], length, string_bytes, IfOk, IsOk, IsTrue, OnErr};
ghost use Rattle.haya_text.specs.Chunks.{AppendsText, Chunk, chunk_view};

use crate::{ChunkKind, OutOfMemory, TryClone};
use std::alloc::Global;
use std::fmt;

/// A chunk of a text: its characters, and what they are for.
#[derive(Debug, Drop, PartialEq, Eq, Hash)]
pub struct StringChunk {
    /// The text of the chunk.
    pub value: String,
    /// What it is for.
    pub kind: ChunkKind,
}

impl StringChunk {
    /// A chunk of that text and kind.
    pub fn new(value: String, kind: ChunkKind) -> StringChunk
        ensures { chunk_view result ≡ (string_bytes value, kind) }
    {
        StringChunk { value, kind }
    }

    /// A chunk of plain text.
    pub fn normal(value: String) -> StringChunk
        ensures { chunk_view result ≡ (string_bytes value, ChunkKind.Normal) }
    {
        StringChunk::new(value, ChunkKind::Normal)
    }

    /// A chunk of text that keeps its case.
    pub fn verbatim(value: String) -> StringChunk
        ensures { chunk_view result ≡ (string_bytes value, ChunkKind.Verbatim) }
    {
        StringChunk::new(value, ChunkKind::Verbatim)
    }

    /// A chunk of math.
    pub fn math(value: String) -> StringChunk
        ensures { chunk_view result ≡ (string_bytes value, ChunkKind.Math) }
    {
        StringChunk::new(value, ChunkKind::Math)
    }

    /// The text of the chunk, without dollars.
    pub fn as_str(&self) -> &str
        ensures { result.now ≡ string_bytes self.now.value }
    {
        self.value.as_str()
    }

    /// How many bytes the text of the chunk has.
    pub fn len(&self) -> usize
        ensures { result ≡ length (string_bytes self.now.value) }
    {
        self.value.len()
    }

    /// Whether the chunk has no text.
    pub fn is_empty(&self) -> bool
        ensures { IsTrue result ↔ (string_bytes self.now.value ≡ []) }
    {
        self.value.is_empty()
    }

    /// A copy, equal to this chunk.
    pub fn try_clone(&self, alloc: Global) -> Result<StringChunk, OutOfMemory>
        ensures { IfOk result (λ copy. chunk_view copy ≡ chunk_view self.now) }
    {
        Ok(StringChunk {
            value: self.value.try_clone(alloc)?,
            kind: self.kind,
        })
    }
}

impl TryClone for StringChunk {
    ghost View = { Chunk };

    ghost view = { chunk_view };

    fn try_clone(&self, alloc: Global) -> Result<StringChunk, OutOfMemory> {
        self.try_clone(alloc)
    }
}

impl fmt::Write for StringChunk {
    ghost write_str_gives = { AppendsText };

    /// Appends a text and keeps the kind. Fails where an allocation fails, and then nothing
    /// changes.
    fn write_str(&mut self, text: &str) -> fmt::Result
        ensures ok { IsOk result → AppendsText self.old text.now self.new }
        ensures err { OnErr result (chunk_view self.new ≡ chunk_view self.old) }
    {
        match self.value.push_str(text) {
            Ok(()) => Ok(()),
            Err(_) => Err(fmt::Error),
        }
    }
}
