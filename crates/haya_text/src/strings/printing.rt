//! How texts are displayed, and how they are serialized.
ghost use Rattle.std.specs.Prelude.{◌≡◌, ◌↔◌, ◌<◌, ◌≤◌, Some, length, string_bytes, IfOk, IsOk};
ghost use Rattle.std.specs.Prelude.{OnOk};
ghost use Rattle.std.specs.Cow.{cow_str_bytes, IsOwnedStr};
ghost use Rattle.std.specs.Fmt.{WritesText};
ghost use Rattle.haya_text.specs.Chunks.{chunk_view, chunks};
ghost use Rattle.haya_text.specs.Printing.{chunk_display, text_display, to_str, is_control};
ghost use Rattle.haya_text.specs.Printing.{escaped_text, serialized_chunk, to_serialized};

use crate::{ChunkKind, ChunkedString, OutOfMemory, StringChunk};
use std::alloc::Global;
use std::borrow::CowStr;
use std::fmt;
use std::fmt::Write;

impl fmt::Display for StringChunk {
    ghost output = { λ c. Some (chunk_display (chunk_view c)) };

    /// The text as it is, math between two dollars.
    fn fmt<W: fmt::Write>(&self, f: &mut fmt::Formatter<W>) -> fmt::Result {
        let value = self.value.as_str();
        match self.kind {
            ChunkKind::Normal | ChunkKind::Verbatim => write!(f, "{value}"),
            ChunkKind::Math => write!(f, "${value}$"),
        }
    }
}

impl fmt::Display for ChunkedString {
    ghost output = { λ text. Some (text_display (chunks text)) };

    /// The chunks in order.
    fn fmt<W: fmt::Write>(&self, f: &mut fmt::Formatter<W>) -> fmt::Result {
        for chunk in &self.0 {
            write!(f, "{chunk}")?;
        }
        Ok(())
    }
}

impl ChunkedString {
    /// The text as it is shown. That of one chunk alone is shown without dollars; it is borrowed,
    /// as is that of no chunk, and takes no memory.
    pub fn to_str(&self, alloc: Global) -> Result<CowStr<'_>, OutOfMemory>
        ensures text { IfOk result (λ s. cow_str_bytes s ≡ to_str (chunks self.now)) }
        ensures owned { IfOk result (λ s. IsOwnedStr s ↔ (1 < length (chunks self.now))) }
        ensures borrowed { length (chunks self.now) ≤ 1 → IsOk result }
    {
        match self.0.as_slice() {
            [] => Ok(CowStr::Borrowed("")),
            [chunk] => Ok(CowStr::Borrowed(chunk.as_str())),
            _ => Ok(CowStr::Owned(format!(in alloc; "{self}")?)),
        }
    }

    /// Writes the text so that it reads back: each chunk between the signs of its kind, each
    /// control character after a backslash. The writer's fault ends the call.
    pub fn fmt_serialized<W: fmt::Write>(&self, out: &mut W) -> fmt::Result
        ensures { OnOk result (WritesText W.write_str_gives
            out.old (Some (to_serialized (chunks self.now))) out.new) }
    {
        out.write(Serialized(self))
    }

    /// The text as `fmt_serialized` writes it.
    pub fn to_serialized(&self, alloc: Global) -> Result<String, OutOfMemory>
        ensures { IfOk result (λ s. string_bytes s ≡ to_serialized (chunks self.now)) }
    {
        Ok(format!(in alloc; "{}", Serialized(self))?)
    }
}

// A text as it is serialized.
#[derive(Drop)]
struct Serialized<'a>(&'a ChunkedString);

impl fmt::Display for Serialized<'_> {
    ghost output = { λ s. Some (to_serialized (chunks s.0.now)) };

    fn fmt<W: fmt::Write>(&self, f: &mut fmt::Formatter<W>) -> fmt::Result {
        for chunk in &self.0.0 {
            write!(f, "{}", Serial(chunk))?;
        }
        Ok(())
    }
}

// A chunk as it is serialized.
#[derive(Drop)]
struct Serial<'a>(&'a StringChunk);

impl fmt::Display for Serial<'_> {
    ghost output = { λ s. Some (serialized_chunk (chunk_view s.0.now)) };

    fn fmt<W: fmt::Write>(&self, f: &mut fmt::Formatter<W>) -> fmt::Result {
        let escaped = Escaped(self.0);
        match self.0.kind {
            ChunkKind::Normal => write!(f, "{escaped}"),
            ChunkKind::Verbatim => write!(f, "{{{escaped}}}"),
            ChunkKind::Math => write!(f, "${escaped}$"),
        }
    }
}

// The text of a chunk, with each control character after a backslash.
#[derive(Drop)]
struct Escaped<'a>(&'a StringChunk);

impl fmt::Display for Escaped<'_> {
    ghost output = { λ s. Some (escaped_text (string_bytes s.0.now.value)) };

    fn fmt<W: fmt::Write>(&self, f: &mut fmt::Formatter<W>) -> fmt::Result {
        for c in self.0.as_str().chars() {
            if is_control(c) {
                write!(f, "\\{c}")?;
            } else {
                write!(f, "{c}")?;
            }
        }
        Ok(())
    }
}

// Whether a character is a sign, and stands for itself only after a backslash.
pub(super) fn is_control(c: char) -> bool
    ensures { result ≡ is_control c }
{
    matches!(c, '\\' | '{' | '}' | '$')
}
