//! A text in YAML, read to JSON.
ghost use Rattle.std.specs.Prelude.{◌≡◌, ◌⊎◌, [], Err, IfOk, MatchOption, Ok, OnOk, Some, None};
ghost use Rattle.std.specs.Prelude.{false, true};
ghost use Rattle.std.specs.Str.{IsUtf8};
ghost use Rattle.json.specs.Json.{Json, document};
ghost use Rattle.json.specs.declared.error.Error.TheVariants as JsonError;
ghost use Rattle.json.specs.Lex.{tokens};
ghost use Rattle.json.specs.Print.{print};
ghost use Rattle.json.specs.Strict.{HasUniqueKeys};
ghost use Rattle.haya_yaml_text.specs.Faults.{IsRefused};
ghost use Rattle.haya_yaml_text.specs.Writing.{KeepsBefore};
ghost use Rattle.haya_yaml.specs.Documents.{ended, is_printable, lines_value, unmarked};
ghost use Rattle.haya_yaml.specs.Line.{texts};
ghost use Rattle.haya_yaml.specs.Saying.{said};
ghost use Rattle.haya_yaml.specs.Says.{ContentSays, IsJsonFor, IsJsonIf, IsJsonOf, SaysNothing};
ghost use Rattle.haya_yaml.specs.Says.{Strictness};

use crate::controls::control_character;
use crate::document::{find_document, write_document};
use crate::error::{Fault, YamlError, in_lines};
use crate::feeds::{ended, lines_of};
use crate::names::second_key;
use crate::value::{last, walk_to};
use haya_yaml_text::fault::{FaultKind, ReadError, Refusal};
use haya_yaml_text::output::{Output, Place};
use json::{Scratch, Value, Writer, to_vec};
use std::alloc::{AllocError, Global};

// A text without the byte order mark at its front.
fn unmarked(text: &str) -> &str
    ensures { result.now ≡ unmarked text.now }
{
    let mut rest = text.chars();
    match rest.next() {
        Some(first) => {
            if first == '\u{feff}' {
                return rest.as_str();
            }
            text
        }
        None => text,
    }
}

// Whether an error says of a text that it isn't JSON in which no name comes twice: then it is
// `Ok(false)`, and any other means that there was no memory.
fn not_strict(error: json::Error) -> Result<bool, AllocError>
    ensures invalid { error ≡ JsonError.Invalid → result ≡ Ok false }
    ensures duplicate { error ≡ JsonError.DuplicateKey → result ≡ Ok false }
    ensures only { IfOk result (λ strict. (strict ≡ false)
        × ((error ≡ JsonError.Invalid) ⊎ (error ≡ JsonError.DuplicateKey))) }
{
    match error {
        json::Error::Invalid | json::Error::DuplicateKey => Ok(false),
        _ => Err(AllocError),
    }
}

// Whether bytes are JSON in which no name comes twice.
fn is_strict(alloc: Global, bytes: &[u8]) -> Result<bool, AllocError>
    requires { IsUtf8 bytes.now }
    ensures { IfOk result (λ strict. Strictness bytes.now strict) }
{
    let mut scratch = Scratch::new(alloc);
    match str::from_utf8(bytes) {
        Ok(text) => match Value::parse_strict(alloc, text, &mut scratch) {
            Ok(_) => Ok(true),
            Err(error) => not_strict(error),
        },
        Err(_) => Err(AllocError),
    }
}

// The value of a text that is JSON, printed again: `None` where it isn't JSON.
fn json_again(alloc: Global, text: &str) -> Result<Option<Vec<u8>>, json::Error>
    ensures json { IfOk result (λ found. MatchOption found (document text.now ≡ None)
        (λ bytes. IsJsonOf text.now bytes.items × IsUtf8 bytes.items)) }
    ensures duplicate { result ≡ Err JsonError.DuplicateKey → SaysNothing text.now }
{
    let mut scratch = Scratch::new(alloc);
    match Value::parse_strict(alloc, text, &mut scratch) {
        Ok(value) => match to_vec(alloc, &value) {
            Ok(bytes) => Ok(Some(bytes)),
            Err(_) => Err(json::Error::OutOfMemory),
        },
        Err(json::Error::Invalid) => Ok(None),
        Err(error) => Err(error),
    }
}

// Writes what the lines of a text say.
fn write_text(out: &mut Output, text: &str, lines: &[&str]) -> Result<(), ReadError>
    ensures ok { OnOk result ((is_printable text.now ≡ true)
        × (said out.old.writer.tokens (lines_value (texts lines.now))
        ≡ Some out.new.writer.tokens)) }
    ensures before { OnOk result (KeepsBefore out.old.writer out.new.writer) }
    ensures refused { (f : Refusal) → result ≡ Err (ReadError.Refused f)
        → is_printable text.now ≡ true → lines_value (texts lines.now) ≡ None }
{
    if let Some(left) = control_character(text) {
        return Err(in_text(left, text));
    }
    let document = find_document(lines)?;
    write_document(out, document)?;
    Ok(())
}

// The control character of a text where so many bytes are left.
fn in_text(left: usize, text: &str) -> ReadError {
    let place = walk_to(last(1, text), left, text).place();
    ReadError::Refused(Refusal {
        kind: FaultKind::ControlCharacter,
        line: place.line,
        left: place.left,
    })
}

/// The JSON that a text in YAML is written as, in which a map may still have a name twice.
#[derive(Drop)]
pub struct JsonText<'t> {
    /// The JSON, in UTF-8.
    pub bytes: Vec<u8>,
    // The places of its keys, in their order, and the lines that these are in; there are none where
    // the text itself is JSON.
    keys: Vec<Place>,
    lines: Vec<&'t str>,
}

impl<'t> JsonText<'t> {
    /// The number of the line, from 1 on, where the text has the key of this number, from 0 on, or
    /// `None` where that isn't known, as in a text that is JSON.
    pub fn line_of_key(&self, number: usize) -> Option<usize> {
        match self.keys.get(number) {
            Some(place) => Some(place.line),
            None => None,
        }
    }

    /// The fault of the first name that a map has twice. The error: there was no memory to look for
    /// it.
    pub fn name_twice(&self, alloc: Global) -> Result<Fault, AllocError> {
        let keys = self.keys.as_slice();
        name_twice(alloc, self.bytes.as_slice(), keys, self.lines.as_slice())
    }
}

/// The value that a text in YAML says, printed as JSON in UTF-8: what `Value::parse_strict` reads
/// of it is that value. A text that is JSON says what it says as JSON.
///
/// `Refused`: the text says no value, also where a map in it has a name twice, or lists and maps
/// nest deeper than 128. `OutOfMemory`: there was no memory for it.
pub fn to_json(alloc: Global, text: &str) -> Result<Vec<u8>, YamlError>
    ensures json { IfOk result (λ bytes. IsJsonOf text.now bytes.items) }
    ensures utf8 { IfOk result (λ bytes. IsUtf8 bytes.items) }
    ensures refused { (f : Fault) → result ≡ Err (YamlError.Refused f) → SaysNothing text.now }
{
    let json = to_json_text(alloc, text)?;
    if is_strict(alloc, json.bytes.as_slice())? {
        return Ok(json.bytes);
    }
    Err(YamlError::Refused(json.name_twice(alloc)?))
}

/// The same where it isn't looked whether a map has a name twice: whoever reads the JSON sees it.
///
/// `Refused`: the text says no value, for another reason or because of such a name. `OutOfMemory`:
/// there was no memory for it.
pub fn to_json_text(alloc: Global, text: &str) -> Result<JsonText<'_>, YamlError>
    ensures json { IfOk result (λ json. IsJsonFor text.now json.bytes.items) }
    ensures utf8 { IfOk result (λ json. IsUtf8 json.bytes.items) }
    ensures refused { (f : Fault) → result ≡ Err (YamlError.Refused f) → SaysNothing text.now }
{
    match json_again(alloc, text) {
        Ok(Some(bytes)) => Ok(JsonText {
            bytes,
            keys: Vec::new(alloc),
            lines: Vec::new(alloc),
        }),
        Ok(None) => lines_to_json(alloc, unmarked(text)),
        Err(json::Error::DuplicateKey) => Err(twice(alloc, text)),
        Err(_) => Err(YamlError::OutOfMemory),
    }
}

// The same of the lines of a text that isn't JSON and has no byte order mark.
fn lines_to_json(alloc: Global, text: &str) -> Result<JsonText<'_>, YamlError>
    ensures json { IfOk result (λ json. IsJsonIf (ContentSays (ended text.now)) json.bytes.items) }
    ensures utf8 { IfOk result (λ json. IsUtf8 json.bytes.items) }
    ensures refused { (f : Fault) → result ≡ Err (YamlError.Refused f) → (j : Json)
        → ContentSays (ended text.now) j → HasUniqueKeys j → ⊥ }
{
    let all = ended(text);
    let lines = lines_of(alloc, all)?;
    let mut out = Output {
        alloc,
        writer: Writer::new(Vec::with_capacity(alloc, all.len())?),
        keys: Vec::new(alloc),
    };
    match write_text(&mut out, all, lines.as_slice()) {
        Ok(()) => Ok(finish(out, lines)),
        Err(error) => Err(stopped(error, out, lines.as_slice())),
    }
}

// The JSON that is written.
fn finish<'t>(out: Output, lines: Vec<&'t str>) -> JsonText<'t>
    requires { out.writer.before ≡ [] }
    ensures bytes { result.bytes.items ≡ print out.writer.tokens }
    ensures tokens { tokens result.bytes.items ≡ out.writer.tokens }
    ensures utf8 { IsUtf8 result.bytes.items }
{
    let Output { writer, keys, .. } = out;
    JsonText {
        bytes: writer.into_inner(),
        keys,
        lines,
    }
}

// The fault of a name that comes twice.
fn name_twice(
    alloc: Global,
    bytes: &[u8],
    keys: &[Place],
    lines: &[&str],
) -> Result<Fault, AllocError> {
    let number = second_key(alloc, bytes)?.unwrap_or(0);
    let place = if number < keys.len() {
        keys[number]
    } else {
        Place { line: 1, left: 0 }
    };
    let refusal = Refusal {
        kind: FaultKind::DuplicateKey,
        line: place.line,
        left: place.left,
    };
    Ok(in_lines(refusal, lines))
}

// The first fault of lines, of which so much is written: a name that comes twice, or the error.
fn stopped(error: ReadError, out: Output, lines: &[&str]) -> YamlError
    ensures { (f : Fault) → result ≡ YamlError.Refused f → IsRefused error }
{
    match error {
        ReadError::OutOfMemory => YamlError::OutOfMemory,
        ReadError::Refused(refusal) => {
            let Output {
                alloc,
                writer,
                keys,
            } = out;
            let bytes = writer.into_inner();
            match second_key(alloc, bytes.as_slice()) {
                Err(_) => YamlError::OutOfMemory,
                Ok(None) => YamlError::Refused(in_lines(refusal, lines)),
                Ok(Some(_)) => {
                    match name_twice(alloc, bytes.as_slice(), keys.as_slice(), lines) {
                        Ok(fault) => YamlError::Refused(fault),
                        Err(_) => YamlError::OutOfMemory,
                    }
                }
            }
        }
    }
}

// The fault of a text that is JSON and has a name twice.
fn twice(alloc: Global, text: &str) -> YamlError {
    match lines_to_json(alloc, text) {
        Ok(json) => match json.name_twice(alloc) {
            Ok(fault) => YamlError::Refused(fault),
            Err(_) => YamlError::OutOfMemory,
        },
        Err(error) => error,
    }
}
