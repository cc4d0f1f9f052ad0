//! YAML of JSON.
ghost use Rattle.std.specs.Prelude.{IfOk, IfSome, string_bytes};
ghost use Rattle.haya_yaml_library.specs.Writing.{SaysJson};

use crate::block_style::block_style;
use haya_text::OutOfMemory;
use haya_yaml::error::YamlError;
use haya_yaml::reader::to_json;
use std::alloc::Global;

/// A text in YAML, in block style, that says what this text in JSON says, which is written without
/// white space, as `json::Writer` does. `None`: what was laid out doesn't say it, as where the JSON
/// nests deeper than 128 or has a name twice in a map. The style, and that there is a text
/// otherwise, are only tested.
pub fn to_yaml(alloc: Global, json: &str) -> Result<Option<String>, OutOfMemory>
    ensures { IfOk result (λ found. IfSome found (λ text. SaysJson json.now (string_bytes text))) }
{
    let text = block_style(alloc, json)?;
    match to_json(alloc, text.as_str()) {
        Ok(again) if again.as_slice() == json.as_bytes() => Ok(Some(text)),
        Ok(_) | Err(YamlError::Refused(_)) => Ok(None),
        Err(YamlError::OutOfMemory) => Err(OutOfMemory),
    }
}
