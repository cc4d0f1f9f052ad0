//! Texts with marks, and with a short form.
ghost use Rattle.std.specs.Prelude.{◌≡◌, codes, string_bytes, IfOk, IfErr, Ok};
ghost use Rattle.json.specs.Value.{value_view};
ghost use Rattle.haya_text.specs.Chunks.{chunks};
ghost use Rattle.haya_text.specs.Texts.{text_view};
ghost use Rattle.haya_json.specs.Refusal.{IsFaultOf};
ghost use Rattle.haya_json.specs.Values.{chunks_in, chunks_of, forms_in, marked_of, verbatim_text};

use crate::fault::{ValueError, Why};
use crate::from_json::{FromJson, flag, needed, optional, read_by};
use haya_text::{ChunkedString, FormatString, OutOfMemory, StringChunk};
use json::Value;
use std::alloc::Global;

// A text that is taken as it stands, in one chunk.
#[derive(Drop)]
struct Verbatim(ChunkedString);

impl FromJson for Verbatim {
    ghost use Rattle.std.specs.Prelude.{List};
    ghost use Rattle.haya_text.specs.Chunks.{Chunk, chunks};
    ghost use Rattle.haya_json.specs.Values.{verbatim_of};

    ghost View = { List Chunk };

    ghost view = { λ v. chunks v.0 };

    ghost reads = { verbatim_of };

    fn from_json(alloc: Global, json: &Value<'_>) -> Result<Verbatim, ValueError> {
        let text = String::from_json(alloc, json)?;
        Ok(Verbatim(verbatim_text(alloc, text)?))
    }
}

// One chunk of the text as it stands, and none of an empty text.
fn verbatim_text(alloc: Global, text: String) -> Result<ChunkedString, OutOfMemory>
    ensures { IfOk result (λ cs. chunks cs ≡ verbatim_text (string_bytes text)) }
{
    if text.is_empty() {
        return Ok(ChunkedString::new(alloc));
    }
    ChunkedString::from_chunk(alloc, StringChunk::verbatim(text))
}

// A text with its marks.
#[derive(Drop)]
struct Marked(ChunkedString);

impl FromJson for Marked {
    ghost use Rattle.std.specs.Prelude.{List};
    ghost use Rattle.haya_text.specs.Chunks.{Chunk, chunks};
    ghost use Rattle.haya_json.specs.Values.{marked_of};

    ghost View = { List Chunk };

    ghost view = { λ v. chunks v.0 };

    ghost reads = { marked_of };

    fn from_json(alloc: Global, json: &Value<'_>) -> Result<Marked, ValueError> {
        Ok(Marked(read_by(alloc, json, Why::NotChunks)?))
    }
}

impl FromJson for ChunkedString {
    ghost use Rattle.std.specs.Prelude.{List};
    ghost use Rattle.haya_text.specs.Chunks.{Chunk, chunks};
    ghost use Rattle.haya_json.specs.Values.{chunks_of};

    ghost View = { List Chunk };

    ghost view = { chunks };

    ghost reads = { chunks_of };

    /// A text with its marks, or an object of a `value` that may be `verbatim`.
    #[tactic(auto, unfolding(crate::specs::Values::chunks_of))]
    fn from_json(alloc: Global, json: &Value<'_>) -> Result<ChunkedString, ValueError> {
        match json {
            Value::Object(_) => read_object(alloc, json),
            _ => Ok(Marked::from_json(alloc, json)?.0),
        }
    }
}

// The chunks of an object of a text with its marks.
fn read_object(alloc: Global, json: &Value<'_>) -> Result<ChunkedString, ValueError>
    ensures ok { IfOk result (λ cs. chunks_in marked_of (value_view json.now) ≡ Ok (chunks cs)) }
    ensures fault { IfErr result (IsFaultOf (chunks_in marked_of (value_view json.now))) }
{
    if flag(alloc, json, "verbatim")? {
        return Ok(needed::<Verbatim>(alloc, json, "value")?.0);
    }
    Ok(needed::<Marked>(alloc, json, "value")?.0)
}

impl FromJson for FormatString {
    ghost use Rattle.haya_text.specs.Texts.{TextView, text_view};
    ghost use Rattle.haya_json.specs.Values.{format_of};

    ghost View = { TextView };

    ghost view = { text_view };

    ghost reads = { format_of };

    /// A text with its marks, or an object of its forms.
    #[tactic(auto, unfolding(crate::specs::Values::format_of))]
    fn from_json(alloc: Global, json: &Value<'_>) -> Result<FormatString, ValueError> {
        match json {
            Value::Object(_) => read_forms(alloc, json),
            _ => read_by(alloc, json, Why::NotChunks),
        }
    }
}

// The forms of an object.
fn read_forms(alloc: Global, json: &Value<'_>) -> Result<FormatString, ValueError>
    ensures ok { IfOk result (λ text. forms_in (value_view json.now) ≡ Ok (text_view text)) }
    ensures fault { IfErr result (IsFaultOf (forms_in (value_view json.now))) }
{
    let value = read_long(alloc, json)?;
    match optional::<ChunkedString>(alloc, json, "short")? {
        Some(short) => Ok(FormatString {
            value,
            short: Some(Box::new(alloc, short)?),
        }),
        None => Ok(FormatString { value, short: None }),
    }
}

// The long form of an object.
fn read_long(alloc: Global, json: &Value<'_>) -> Result<ChunkedString, ValueError>
    ensures ok { IfOk result (λ cs. chunks_in chunks_of (value_view json.now) ≡ Ok (chunks cs)) }
    ensures fault { IfErr result (IsFaultOf (chunks_in chunks_of (value_view json.now))) }
{
    if flag(alloc, json, "verbatim")? {
        return Ok(needed::<Verbatim>(alloc, json, "value")?.0);
    }
    needed::<ChunkedString>(alloc, json, "value")
}
