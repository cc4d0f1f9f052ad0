//! What texts say. One that is empty is as if the member weren't there.
ghost use Rattle.std.specs.Prelude.{◌≡◌, IfOk, string_bytes};
ghost use Rattle.json.specs.Value.{value_view};
ghost use Rattle.haya_text.specs.Chunks.{chunks};
ghost use Rattle.haya_text.specs.Texts.{text_view, without_short};
ghost use Rattle.haya_csl.specs.Said.{said_view};
ghost use Rattle.haya_csl.specs.Texts.{format_said, markup_said, plain_said, said_as, says_some};

use crate::markup::read_markup;
use crate::said::Said;
use haya_json::Why;
use haya_json::reading::text_in;
use haya_text::{ChunkedString, FormatString, OutOfMemory};
use json::Value;
use std::alloc::Global;

/// The text as it is.
pub(crate) fn read_plain(alloc: Global, json: &Value<'_>) -> Result<Said<String>, OutOfMemory>
    ensures { IfOk result (λ said.
        said_view string_bytes said ≡ plain_said (value_view json.now)) }
{
    match text_in(json) {
        None => Said::unread(alloc, Why::NotText, json),
        Some("") => Ok(Said::none(alloc)),
        Some(text) => Ok(Said::of(alloc, String::from_str(alloc, text)?)),
    }
}

/// The chunks of a text with CSL's markup.
pub(crate) fn read_markup_text(
    alloc: Global,
    json: &Value<'_>,
) -> Result<Said<ChunkedString>, OutOfMemory>
    ensures { IfOk result (λ said. said_view chunks said ≡ markup_said (value_view json.now)) }
{
    match text_in(json) {
        None => Said::unread(alloc, Why::NotText, json),
        Some("") => Ok(Said::none(alloc)),
        Some(text) => Ok(some_chunks(alloc, read_markup(alloc, text)?)),
    }
}

/// These chunks, but where there are none.
pub(crate) fn some_chunks(alloc: Global, read: ChunkedString) -> Said<ChunkedString>
    ensures { said_view chunks result ≡ says_some (chunks read) }
{
    if read.0.is_empty() {
        Said::none(alloc)
    } else {
        Said::of(alloc, read)
    }
}

/// The same as a text without a short form.
pub(crate) fn read_format(
    alloc: Global,
    json: &Value<'_>,
) -> Result<Said<FormatString>, OutOfMemory>
    ensures { IfOk result (λ said. said_view text_view said ≡ format_said (value_view json.now)) }
{
    let read = read_markup_text(alloc, json)?;
    Ok(without_short(read))
}

/// Chunks that are said, as a text without a short form.
pub(crate) fn without_short(said: Said<ChunkedString>) -> Said<FormatString>
    ensures { said_view text_view result
        ≡ said_as without_short (said_view chunks said) }
{
    let Said { value, lost } = said;
    Said {
        value: value.map(|value| FormatString { value, short: None }),
        lost,
    }
}
