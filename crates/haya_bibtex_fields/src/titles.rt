//! Titles: a title, its subtitle and an addition as one text, with a short form.
ghost use Rattle.std.specs.Prelude.{◌≡◌, ◌++◌, IfOk, OnOk, map, option_and_then, option_map};
ghost use Rattle.std.specs.Prelude.{string_bytes};
ghost use Rattle.std.specs.Option.{option_or};
ghost use Rattle.haya_text.specs.Chunks.{chunk_view, chunks};
ghost use Rattle.haya_text.specs.Texts.{text_view};
ghost use Rattle.haya_bibtex_fields.specs.FieldTexts.{followed_by, title_in, unknown_of};
ghost use Rattle.haya_bibtex_fields.specs.Titles.{chunk_ends_in_mark, continued, ends_in_mark, joined};
ghost use Rattle.haya_bibtex_fields.specs.Titles.{joined_in};
ghost use Rattle.haya_bibtex_fields.specs.Titles.{joined_unknown, note_in, own_short, short_title};
ghost use Rattle.haya_bibtex_fields.specs.Titles.{text_ends_in_mark, title_bytes, whole_title};
ghost use Rattle.haya_bibtex_fields.specs.Titles.{short_title_unknown, with_short};

use crate::reading::Reading;
use crate::texts::{formatted_if_any, title_if_any};
use haya_text::{ChunkKind, ChunkedString, FormatString, OutOfMemory, StringChunk};
use std::alloc::{AllocError, Global};

/// The texts of fields that make a title, each if it is there.
#[derive(Clone, Copy)]
pub struct TitleTexts<'a> {
    /// The title.
    pub title: Option<&'a str>,
    /// The subtitle.
    pub subtitle: Option<&'a str>,
    /// An addition.
    pub addition: Option<&'a str>,
}

// Whether a plain text ends in a mark behind which no other is written.
fn text_ends_in_mark(text: &str) -> bool
    ensures { result ≡ text_ends_in_mark text.now }
{
    let bytes = text.as_bytes();
    bytes.ends_with(b".")
        || bytes.ends_with(b",")
        || bytes.ends_with(b":")
        || bytes.ends_with(b";")
        || bytes.ends_with(b"!")
        || bytes.ends_with(b"?")
        || bytes.ends_with("…".as_bytes())
}

// Whether a chunk does. The signs of a formula are no marks.
fn chunk_ends_in_mark(chunk: &StringChunk) -> bool
    ensures { result ≡ chunk_ends_in_mark (chunk_view chunk.now) }
{
    match chunk.kind {
        ChunkKind::Normal => text_ends_in_mark(chunk.value.as_str()),
        ChunkKind::Verbatim => text_ends_in_mark(chunk.value.as_str()),
        ChunkKind::Math => false,
    }
}

// Whether a text does.
fn ends_in_mark(text: &ChunkedString) -> bool
    ensures { result ≡ ends_in_mark (chunks text.now) }
{
    match text.0.last() {
        Some(last) => chunk_ends_in_mark(last),
        None => false,
    }
}

// Puts a text behind another.
fn append(text: &mut ChunkedString, more: &ChunkedString) -> Result<(), OutOfMemory>
    ensures { OnOk result (chunks text.new ≡ followed_by (chunks text.old) (chunks more.now)) }
{
    'chunks: for chunk in &more.0 {
        text.push_str(chunk.value.as_str(), chunk.kind)?;
    }
    Ok(())
}

// Puts a text, if there is one, behind another, with a sign between them. Behind a mark that is a
// blank alone.
fn continue_with(
    text: &mut ChunkedString,
    sign: &str,
    more: Option<ChunkedString>,
) -> Result<(), OutOfMemory>
    ensures { OnOk result (chunks text.new
        ≡ continued sign.now (chunks text.old) (option_map chunks more)) }
{
    let Some(more) = more else {
        return Ok(());
    };
    let between = if ends_in_mark(text) { " " } else { sign };
    text.push_str(between, ChunkKind::Normal)?;
    append(text, &more)
}

/// A title, its subtitle behind a colon, and the addition behind a full stop: `T: S. Add`. Behind a
/// text that ends in one of `. , : ; ! ? …` there is a blank alone. Without a title the subtitle
/// alone is it, or otherwise the addition.
pub fn join(
    title: Option<ChunkedString>,
    subtitle: Option<ChunkedString>,
    addition: Option<ChunkedString>,
) -> Result<Option<ChunkedString>, OutOfMemory>
    ensures { IfOk result (λ t. option_map chunks t
        ≡ joined (option_map chunks title) (option_map chunks subtitle)
        (option_map chunks addition)) }
{
    let Some(mut text) = title else {
        return match subtitle {
            Some(text) => Ok(Some(text)),
            None => Ok(addition),
        };
    };
    continue_with(&mut text, ": ", subtitle)?;
    continue_with(&mut text, ". ", addition)?;
    Ok(Some(text))
}

/// A text with its short form, which is the text where there is no other.
pub fn with_short(
    alloc: Global,
    value: Option<ChunkedString>,
    short: Option<ChunkedString>,
) -> Result<Option<FormatString>, OutOfMemory>
    ensures { IfOk result (λ t. option_map text_view t
        ≡ with_short (option_map chunks value) (option_map chunks short)) }
{
    let Some(value) = value else {
        return match short {
            Some(value) => Ok(Some(FormatString { value, short: None })),
            None => Ok(None),
        };
    };
    let short = match short {
        Some(short) => Some(Box::new(alloc, short)?),
        None => None,
    };
    Ok(Some(FormatString { value, short }))
}

// Puts the commands of a text behind those of another.
fn add_unknown(unknown: &mut Vec<String>, mut more: Vec<String>) -> Result<(), AllocError>
    ensures { OnOk result (map string_bytes unknown.new.items
        ≡ map string_bytes unknown.old.items ++ map string_bytes more.items) }
{
    unknown.append(&mut more)?;
    Ok(())
}

// What the texts of a title say.
struct Parts {
    title: Option<ChunkedString>,
    subtitle: Option<ChunkedString>,
    addition: Option<ChunkedString>,
    unknown: Vec<String>,
}

// The same of texts that may be there.
fn read_parts(alloc: Global, texts: TitleTexts<'_>) -> Result<Parts, OutOfMemory>
    ensures title { IfOk result (λ p. option_map chunks p.title
        ≡ option_and_then title_in (title_bytes texts.entry).title) }
    ensures subtitle { IfOk result (λ p. option_map chunks p.subtitle
        ≡ option_and_then title_in (title_bytes texts.entry).subtitle) }
    ensures addition { IfOk result (λ p. option_map chunks p.addition
        ≡ option_and_then title_in (title_bytes texts.entry).addition) }
    ensures unknown { IfOk result (λ p.
        map string_bytes p.unknown.items ≡ joined_unknown (title_bytes texts.entry)) }
{
    let title = title_if_any(alloc, texts.title)?;
    let subtitle = title_if_any(alloc, texts.subtitle)?;
    let addition = title_if_any(alloc, texts.addition)?;
    let mut unknown = title.unknown;
    add_unknown(&mut unknown, subtitle.unknown)?;
    add_unknown(&mut unknown, addition.unknown)?;
    Ok(Parts {
        title: title.value,
        subtitle: subtitle.value,
        addition: addition.value,
        unknown,
    })
}

/// The texts of a title, joined.
pub fn read_joined(
    alloc: Global,
    texts: TitleTexts<'_>,
) -> Result<Reading<ChunkedString>, OutOfMemory>
    ensures value { IfOk result (λ r.
        option_map chunks r.value ≡ joined_in (title_bytes texts.entry)) }
    ensures unknown { IfOk result (λ r.
        map string_bytes r.unknown.items ≡ joined_unknown (title_bytes texts.entry)) }
{
    let Parts {
        title,
        subtitle,
        addition,
        unknown,
    } = read_parts(alloc, texts)?;
    let value = join(title, subtitle, addition)?;
    Ok(Reading { value, unknown })
}

/// A note, with its addendum behind a full stop.
pub fn read_note(
    alloc: Global,
    note: Option<&str>,
    addendum: Option<&str>,
) -> Result<Reading<ChunkedString>, OutOfMemory>
    ensures value { IfOk result (λ r. option_map chunks r.value
        ≡ note_in (option_map (λ t. t.now) note.entry) (option_map (λ t. t.now) addendum.entry)) }
    ensures unknown { IfOk result (λ r. map string_bytes r.unknown.items
        ≡ unknown_of (option_map (λ t. t.now) note.entry)
        ++ unknown_of (option_map (λ t. t.now) addendum.entry)) }
{
    let note = formatted_if_any(alloc, note)?;
    let addendum = formatted_if_any(alloc, addendum)?;
    let value = join(note.value, None, addendum.value)?;
    let mut unknown = note.unknown;
    add_unknown(&mut unknown, addendum.unknown)?;
    Ok(Reading { value, unknown })
}

/// The texts of a title, joined, with the short form that is written.
pub fn read_short_title(
    alloc: Global,
    texts: TitleTexts<'_>,
    short: Option<&str>,
) -> Result<Reading<FormatString>, OutOfMemory>
    ensures value { IfOk result (λ r. option_map text_view r.value
        ≡ short_title (title_bytes texts.entry) (option_map (λ t. t.now) short.entry)) }
    ensures unknown { IfOk result (λ r. map string_bytes r.unknown.items
        ≡ short_title_unknown (title_bytes texts.entry) (option_map (λ t. t.now) short.entry)) }
{
    let Reading { value, mut unknown } = read_joined(alloc, texts)?;
    let short = title_if_any(alloc, short)?;
    let value = with_short(alloc, value, short.value)?;
    add_unknown(&mut unknown, short.unknown)?;
    Ok(Reading { value, unknown })
}

// A title that has a subtitle is its own short form.
fn own_short(
    alloc: Global,
    title: &Option<ChunkedString>,
    subtitle: &Option<ChunkedString>,
) -> Result<Option<ChunkedString>, OutOfMemory>
    ensures { IfOk result (λ t. option_map chunks t
        ≡ own_short (option_map chunks title.now) (option_map chunks subtitle.now)) }
{
    let Some(title) = title else {
        return Ok(None);
    };
    match subtitle {
        Some(_) => Ok(Some(title.try_clone(alloc)?)),
        None => Ok(None),
    }
}

// The short form of a title: the one that is written, or its own.
fn short_of(written: Option<ChunkedString>, own: Option<ChunkedString>) -> Option<ChunkedString>
    ensures { option_map chunks result
        ≡ option_or (option_map chunks written) (option_map chunks own) }
{
    match written {
        Some(short) => Some(short),
        None => own,
    }
}

/// The title of an entry: its texts, joined, with its short form. Without one that is written a title
/// that has a subtitle is its own short form.
pub fn read_whole_title(
    alloc: Global,
    texts: TitleTexts<'_>,
    short: Option<&str>,
) -> Result<Reading<FormatString>, OutOfMemory>
    ensures value { IfOk result (λ r. option_map text_view r.value
        ≡ whole_title (title_bytes texts.entry) (option_map (λ t. t.now) short.entry)) }
    ensures unknown { IfOk result (λ r. map string_bytes r.unknown.items
        ≡ short_title_unknown (title_bytes texts.entry) (option_map (λ t. t.now) short.entry)) }
{
    let Parts {
        title,
        subtitle,
        addition,
        mut unknown,
    } = read_parts(alloc, texts)?;
    let own = own_short(alloc, &title, &subtitle)?;
    let joined = join(title, subtitle, addition)?;
    let written = title_if_any(alloc, short)?;
    let value = with_short(alloc, joined, short_of(written.value, own))?;
    add_unknown(&mut unknown, written.unknown)?;
    Ok(Reading { value, unknown })
}
