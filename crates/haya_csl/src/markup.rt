//! Texts with CSL's markup: its tags are taken out, and what is to keep its case is verbatim.
ghost use Rattle.std.specs.Prelude.{◌≡◌, ◌+◌, ◌≤◌, ◌<◌, ◌^◌, [], IfOk, OnOk, option_map};
ghost use Rattle.std.specs.Prelude.{string_bytes};
ghost use Rattle.haya_text.specs.Chunks.{chunks};
ghost use Rattle.haya_text.specs.Printing.{text_display};
ghost use Rattle.haya_csl.specs.Markup.{behind_tag, cut, kind_in, markup_read, other_tag, pushed};
ghost use Rattle.haya_csl.specs.Markup.{tag_of, taken};
ghost use Rattle.haya_csl.specs.Reader.{reader_view};

use haya_text::{ChunkKind, ChunkedString, OutOfMemory, StringChunk};
use std::alloc::Global;

/// A tag of CSL's markup.
#[derive(Clone, Copy)]
pub(crate) enum Tag {
    /// Of a style, or its end.
    Style,
    /// The start of a span.
    Span,
    /// The start of a span that keeps its case.
    CaseSpan,
    /// The end of a span.
    SpanEnd,
}

// What is read of a text so far, and how many spans are open, from one that keeps its case on.
#[derive(Drop)]
struct Reader {
    depth: usize,
    read: ChunkedString,
}

/// The chunks of a text with markup.
pub(crate) fn read_markup(alloc: Global, text: &str) -> Result<ChunkedString, OutOfMemory>
    ensures { IfOk result (λ cs. chunks cs ≡ markup_read text.now) }
{
    let Some((plain, pieces)) = cut(text, '<') else {
        return unmarked(alloc, text);
    };
    let mut reader = Reader {
        depth: 0,
        read: ChunkedString::new(alloc),
    };
    reader.push(plain)?;
    let mut rest = pieces;
    'pieces: while let Some((piece, behind)) = cut(rest, '<') {
        reader.take(piece)?;
        rest = behind;
    }
    reader.take(rest)?;
    Ok(reader.read)
}

// A text without markup: one chunk, or none where it is empty.
fn unmarked(alloc: Global, text: &str) -> Result<ChunkedString, OutOfMemory>
    ensures { IfOk result (λ cs.
        chunks cs ≡ (pushed text.now (record { depth = 0; read = [] })).read) }
{
    if text.is_empty() {
        return Ok(ChunkedString::new(alloc));
    }
    let chunk = StringChunk::normal(String::from_str(alloc, text)?);
    Ok(ChunkedString(vec![in alloc; chunk]?))
}

/// What is shown of a text without its markup.
pub(crate) fn plain_text(alloc: Global, text: &str) -> Result<String, OutOfMemory>
    ensures { IfOk result (λ plain. string_bytes plain ≡ text_display (markup_read text.now)) }
{
    if cut(text, '<').is_none() {
        return Ok(String::from_str(alloc, text)?);
    }
    let read = read_markup(alloc, text)?;
    Ok(format!(in alloc; "{read}")?)
}

// What comes before the first of these signs, and behind it.
fn cut(text: &str, sign: char) -> Option<(&str, &str)>
    requires { sign < 128 }
    ensures { option_map (λ p. (p.0.now, p.1.now)) result ≡ cut sign text.now }
{
    text.split_once(sign)
}

impl Reader {
    // Takes a piece that follows an opening bracket.
    fn take(&mut self, piece: &str) -> Result<(), OutOfMemory>
        requires { self.old.depth + 1 < 2 ^ 64 }
        ensures taken { OnOk result
            (reader_view self.new ≡ taken piece.now (reader_view self.old)) }
        ensures depth { self.new.depth ≤ self.old.depth + 1 }
    {
        if let Some((inside, behind)) = cut(piece, '>') {
            if let Some(tag) = tag_of(inside) {
                self.go_behind(tag);
                return self.push(behind);
            }
        }
        self.push("<")?;
        self.push(piece)
    }

    // Counts the spans that are open behind a tag.
    fn go_behind(&mut self, tag: Tag)
        requires { self.old.depth + 1 < 2 ^ 64 }
        ensures behind { reader_view self.new ≡ behind_tag tag (reader_view self.old) }
        ensures depth { self.new.depth ≤ self.old.depth + 1 }
    {
        match tag {
            Tag::Style => {}
            Tag::Span => {
                if self.depth > 0 {
                    self.depth += 1;
                }
            }
            Tag::CaseSpan => self.depth += 1,
            Tag::SpanEnd => self.depth = self.depth.saturating_sub(1),
        }
    }

    // Appends a text that stands for itself.
    fn push(&mut self, text: &str) -> Result<(), OutOfMemory>
        ensures pushed { OnOk result
            (reader_view self.new ≡ pushed text.now (reader_view self.old)) }
        ensures depth { self.new.depth ≡ self.old.depth }
    {
        if text.is_empty() {
            return Ok(());
        }
        let kind = self.kind();
        self.read.push_str(text, kind)
    }

    // The kind of a sign that stands for itself here.
    fn kind(&self) -> ChunkKind
        ensures { result ≡ kind_in self.now.depth }
    {
        if self.depth > 0 {
            ChunkKind::Verbatim
        } else {
            ChunkKind::Normal
        }
    }
}

// The tag that has this between its brackets.
fn tag_of(inside: &str) -> Option<Tag>
    ensures { result ≡ tag_of inside.now }
{
    match inside {
        "i" | "/i" | "b" | "/b" | "sup" | "/sup" | "sub" | "/sub" => Some(Tag::Style),
        "span class=\"nocase\"" => Some(Tag::CaseSpan),
        "span" => Some(Tag::Span),
        "/span" => Some(Tag::SpanEnd),
        _ => other_tag(inside),
    }
}

// The start of a span with any attributes.
fn other_tag(inside: &str) -> Option<Tag>
    ensures { result ≡ other_tag inside.now }
{
    if inside.starts_with("span ") {
        Some(Tag::Span)
    } else {
        None
    }
}
