//! JSON with a line for each item and member.
ghost use Rattle.std.specs.Prelude.{◌≡◌, IfOk};
ghost use Rattle.std.specs.Str.{IsUtf8};
ghost use Rattle.json.specs.Json.{Json, document};
ghost use Rattle.json.specs.Layout.{pretty};
ghost use Rattle.json.specs.Lex.{tokens};
ghost use Rattle.json.specs.Print.{print};
ghost use Rattle.json.specs.Tree.{json_tokens};
ghost use Rattle.haya_json.specs.Printed.{library_json};

use super::libraries::to_json;
use haya_text::OutOfMemory;
use hayagriva::Library;
use json::{Pretty, Reader, Scratch, Token};
use std::alloc::Global;

/// The library as JSON in hayagriva's file format, for people to read: a line for each item and
/// member, two spaces deeper for each bracket. It reads as what `to_json` prints.
pub fn to_json_pretty(alloc: Global, library: &Library) -> Result<Vec<u8>, OutOfMemory>
    ensures bytes { IfOk result (λ bytes.
        bytes.items ≡ pretty (json_tokens (library_json library.now))) }
    ensures same { IfOk result (λ bytes.
        document bytes.items ≡ document (print (json_tokens (library_json library.now)))) }
    ensures text { IfOk result (λ bytes. IsUtf8 bytes.items) }
{
    let bytes = to_json(alloc, library)?;
    match std::str::from_utf8(bytes.as_slice()) {
        Ok(text) => lay_out(alloc, text),
        Err(_) => unreachable!(),
    }
}

/// The JSON of a text with a line for each item and member, two spaces deeper for each bracket.
/// Where the text is no JSON, only what comes before its first fault is there.
pub fn lay_out(alloc: Global, text: &str) -> Result<Vec<u8>, OutOfMemory>
    ensures layout { (j : Json) → tokens text.now ≡ json_tokens j
        → IfOk result (λ bytes. bytes.items ≡ pretty (json_tokens j)) }
    ensures same { (j : Json) → tokens text.now ≡ json_tokens j
        → IfOk result (λ bytes. tokens bytes.items ≡ tokens text.now) }
    ensures utf8 { IfOk result (λ bytes. IsUtf8 bytes.items) }
{
    let mut scratch = Scratch::new(alloc);
    scratch.reserve(text.len())?;
    let mut reader = Reader::new(text, &mut scratch)?;
    let mut out = Pretty::new(alloc);
    'tokens: while let Some(token) = reader.next() {
        if matches!(token, Token::Bad) {
            break;
        }
        out.token(token)?;
    }
    Ok(out.into_inner())
}
