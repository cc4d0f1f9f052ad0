//! Texts in chunks, and what is appended to them.
ghost use Rattle.std.specs.Prelude.{◌≡◌, ◌↔◌, ◌++◌, List, [], ◌∷◌, All, length, min, sum_by};
ghost use Rattle.std.specs.Prelude.{string_bytes, IfOk, IsOk, IsTrue, OnOk, OnErr};
ghost use Rattle.std.specs.Char.{encode_utf8};
ghost use Rattle.std.specs.Str.{chars};
ghost use Rattle.haya_text.specs.Chunks.{Chunk, Appends, chunk_view, chunks, characters_of_kind};
ghost use Rattle.haya_text.specs.Chunks.{plain_text, ends_in, grow_last, push_str};

use crate::{ChunkKind, OutOfMemory, StringChunk, TryClone};
use std::alloc::Global;
use std::fmt;

/// A text in chunks, in order.
#[derive(Debug, Drop, PartialEq, Eq, Hash)]
pub struct ChunkedString(
    /// The chunks, in order.
    pub Vec<StringChunk>,
);

impl ChunkedString {
    /// The text without chunks.
    pub fn new(alloc: Global) -> ChunkedString
        ensures { chunks result ≡ [] }
    {
        ChunkedString(Vec::new(alloc))
    }

    /// One chunk of plain text. Nothing in it is read as a sign.
    pub fn from_string(alloc: Global, value: String) -> Result<ChunkedString, OutOfMemory>
        ensures { IfOk result (λ text. chunks text ≡ plain_text (string_bytes value)) }
    {
        ChunkedString::from_chunk(alloc, StringChunk::normal(value))
    }

    /// The text of this one chunk.
    pub fn from_chunk(alloc: Global, chunk: StringChunk) -> Result<ChunkedString, OutOfMemory>
        ensures { IfOk result (λ text. chunks text ≡ chunk_view chunk ∷ []) }
    {
        let mut text = ChunkedString::new(alloc);
        text.push_chunk(chunk)?;
        Ok(text)
    }

    /// Appends a text: to the last chunk where that is of this kind, or as a new chunk, which may
    /// be empty. Where an allocation fails nothing changes.
    pub fn push_str(&mut self, text: &str, kind: ChunkKind) -> Result<(), OutOfMemory>
        ensures ok { OnOk result (chunks self.new ≡ push_str (chunks self.old) text.now kind) }
        ensures grows { OnOk result
            (Appends (characters_of_kind kind (chars text.now)) self.old self.new) }
        ensures err { OnErr result (chunks self.new ≡ chunks self.old) }
    {
        if self.ends_in(kind) {
            return self.grow_last(text);
        }
        let value = String::from_str(*self.0.allocator(), text)?;
        self.push_chunk(StringChunk { value, kind })
    }

    // Whether the last chunk is of this kind.
    fn ends_in(&self, kind: ChunkKind) -> bool
        ensures { result ≡ ends_in kind (chunks self.now) }
    {
        match self.0.last() {
            Some(last) => last.kind == kind,
            None => false,
        }
    }

    // Puts the text behind that of the last chunk.
    fn grow_last(&mut self, text: &str) -> Result<(), OutOfMemory>
        ensures ok { OnOk result (chunks self.new ≡ grow_last (chunks self.old) text.now) }
        ensures err { OnErr result (chunks self.new ≡ chunks self.old) }
    {
        if let Some(last) = self.0.last_mut() {
            last.value.push_str(text)?;
        }
        Ok(())
    }

    /// Appends a character as `push_str` appends a text.
    pub fn push_char(&mut self, c: char, kind: ChunkKind) -> Result<(), OutOfMemory>
        ensures ok { OnOk result
            (chunks self.new ≡ push_str (chunks self.old) (encode_utf8 c) kind) }
        ensures grows { OnOk result (Appends ((c, kind) ∷ []) self.old self.new) }
        ensures err { OnErr result (chunks self.new ≡ chunks self.old) }
    {
        let mut buffer = [0u8; 4];
        self.push_str(c.encode_utf8(&mut buffer), kind)
    }

    /// Appends a chunk as it is: it joins no other. Where an allocation fails nothing changes.
    pub fn push_chunk(&mut self, chunk: StringChunk) -> Result<(), OutOfMemory>
        ensures ok { OnOk result (chunks self.new ≡ chunks self.old ++ chunk_view chunk ∷ []) }
        ensures err { OnErr result (chunks self.new ≡ chunks self.old) }
    {
        // Most texts have one chunk, and most others three: plain text, a group and plain text.
        match self.0.len() {
            0 => self.0.reserve_exact(1)?,
            1 => self.0.reserve_exact(2)?,
            _ => {}
        }
        self.0.push(chunk)?;
        Ok(())
    }

    /// Appends the chunks of another text as they are: none joins another. Where an allocation
    /// fails nothing changes.
    pub fn extend(&mut self, other: ChunkedString) -> Result<(), OutOfMemory>
        ensures ok { OnOk result (chunks self.new ≡ chunks self.old ++ chunks other) }
        ensures err { OnErr result (chunks self.new ≡ chunks self.old) }
    {
        let mut other = other.0;
        self.0.append(&mut other)?;
        Ok(())
    }

    /// How many bytes the chunks have, at most the greatest `usize`.
    pub fn len(&self) -> usize
        ensures { result ≡ min (sum_by (λ c. length c.0) (chunks self.now)) usize.MAX }
    {
        let mut bytes = 0usize;
        for chunk in &self.0 {
            bytes = bytes.saturating_add(chunk.len());
        }
        bytes
    }

    /// Whether no chunk has a text.
    pub fn is_empty(&self) -> bool
        ensures { IsTrue result ↔ All (λ c. c.0 ≡ []) (chunks self.now) }
    {
        for chunk in &self.0 {
            if !chunk.is_empty() {
                return false;
            }
        }
        true
    }

    /// A copy, equal to this text.
    pub fn try_clone(&self, alloc: Global) -> Result<ChunkedString, OutOfMemory>
        ensures { IfOk result (λ copy. chunks copy ≡ chunks self.now) }
    {
        Ok(ChunkedString(self.0.try_clone(alloc)?))
    }
}

impl TryClone for ChunkedString {
    ghost View = { List Chunk };

    ghost view = { chunks };

    fn try_clone(&self, alloc: Global) -> Result<ChunkedString, OutOfMemory> {
        self.try_clone(alloc)
    }
}

impl fmt::Write for ChunkedString {
    ghost use Rattle.haya_text.specs.declared.strings.kind.ChunkKind.TheVariants.{Normal};

    ghost write_str_gives = { λ old text new. chunks new ≡ push_str (chunks old) text Normal };

    /// Pushes a plain text. Fails where an allocation fails, and then nothing changes.
    fn write_str(&mut self, text: &str) -> fmt::Result
        ensures ok { IsOk result → chunks self.new ≡ push_str (chunks self.old) text.now Normal }
        ensures err { OnErr result (chunks self.new ≡ chunks self.old) }
    {
        match self.push_str(text, ChunkKind::Normal) {
            Ok(()) => Ok(()),
            Err(OutOfMemory) => Err(fmt::Error),
        }
    }
}
