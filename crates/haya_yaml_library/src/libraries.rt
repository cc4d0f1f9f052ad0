//! Libraries from a text.
ghost use Rattle.std.specs.Prelude.{IfErr, IfOk, List, ℕ};
ghost use Rattle.std.specs.Str.{IsUtf8};
ghost use Rattle.haya_json.specs.Libraries.{Describes, IsErrorOf};
ghost use Rattle.haya_json.specs.Notes.{notes_view};
ghost use Rattle.haya_yaml.specs.Says.{IsJsonFor};
ghost use Rattle.haya_yaml_library.specs.Libraries.{DescribesAsYaml, IsYamlErrorOf, TellsAsYaml};

use crate::error::YamlReadError;
use crate::steps::key_number;
use haya_json::{Notes, ReadError, Step, read_library_with_hash_keys};
use haya_yaml::error::{Fault, YamlError};
use haya_yaml::reader::{JsonText, to_json_text};
use haya_yaml_text::fault::FaultKind;
use hayagriva::{HashKeys, Library};
use std::alloc::{AllocError, Global};

// The fault of a text whose JSON nests too deep to be read. Its lines are refused before.
const TOO_DEEP: Fault = Fault {
    kind: FaultKind::TooDeep,
    line: 1,
    column: 1,
};

/// The library that a text says in hayagriva's file format, written in YAML: the one that the value
/// which the text says is in JSON, a map of entries under their keys, in the order of the text.
/// What is lost of the text is told: members of other names, and values that aren't read.
///
/// `NotYaml`: the text says no value, for this reason at this place. `Refused`: it says one, which
/// is no map, or has an entry that is none, in this line. Only tested: that the place is that of
/// the first fault, and the line that of the refused value's key.
///
/// The maps of the library and of the notes hash with keys that are always the same.
pub fn read_yaml(alloc: Global, text: &str) -> Result<(Library, Notes), YamlReadError>
    ensures library { IfOk result (λ read. DescribesAsYaml text.now read.0) }
    ensures notes { IfOk result (λ read. TellsAsYaml text.now (notes_view read.1)) }
    ensures error { IfErr result (IsYamlErrorOf text.now) }
{
    read_yaml_with_hash_keys(alloc, HashKeys::new(0, 0), text)
}

/// As `read_yaml`, with maps that hash with these keys.
pub fn read_yaml_with_hash_keys(
    alloc: Global,
    keys: HashKeys,
    text: &str,
) -> Result<(Library, Notes), YamlReadError>
    ensures library { IfOk result (λ read. DescribesAsYaml text.now read.0) }
    ensures notes { IfOk result (λ read. TellsAsYaml text.now (notes_view read.1)) }
    ensures error { IfErr result (IsYamlErrorOf text.now) }
{
    let json = match to_json_text(alloc, text) {
        Ok(json) => json,
        Err(YamlError::Refused(fault)) => return Err(YamlReadError::NotYaml(fault)),
        Err(YamlError::OutOfMemory) => return Err(YamlReadError::OutOfMemory),
    };
    match str::from_utf8(json.bytes.as_slice()) {
        Ok(said) => match read_library_with_hash_keys(alloc, keys, said) {
            Ok(read) => Ok(read),
            Err(error) => Err(refusal(alloc, &json, said, error)),
        },
        Err(_) => unreachable!(),
    }
}

// The error of a text that is written as this JSON, of which `said` has this one.
fn refusal(alloc: Global, json: &JsonText<'_>, said: &str, error: ReadError) -> YamlReadError
    ensures { (text : List ℕ) → IsJsonFor text json.now.bytes.items
        → IsErrorOf json.now.bytes.items error → IsYamlErrorOf text result }
{
    match error {
        ReadError::NotJson(_) => YamlReadError::NotYaml(TOO_DEEP),
        ReadError::NameTwice(_) => match json.name_twice(alloc) {
            Ok(fault) => YamlReadError::NotYaml(fault),
            Err(_) => YamlReadError::OutOfMemory,
        },
        ReadError::Refused(path, why) => match line_of(alloc, json, said, path.as_slice()) {
            Ok(line) => YamlReadError::Refused(line, ReadError::Refused(path, why)),
            Err(_) => YamlReadError::OutOfMemory,
        },
        ReadError::OutOfMemory => YamlReadError::OutOfMemory,
    }
}

// The line of the text where the last key appears that leads to the end of these steps.
fn line_of(
    alloc: Global,
    json: &JsonText<'_>,
    said: &str,
    steps: &[Step],
) -> Result<Option<usize>, AllocError> {
    match key_number(alloc, said, steps)? {
        Some(number) => Ok(json.line_of_key(number)),
        None => Ok(None),
    }
}
