//! Whether a text says these members.
ghost use Rattle.std.specs.Prelude.{◌≡◌, IfOk, IfSome, IsTrue, OnOk, map};
ghost use Rattle.std.specs.Str.{IsUtf8};
ghost use Rattle.haya_yaml.specs.Says.{IsJsonFor};
ghost use Rattle.haya_yaml_slices.specs.Members.{SaysMembers};

use haya_json_elements::Brackets;
use haya_slices::element_slices;
use haya_yaml::error::YamlError;
use haya_yaml::reader::to_json_text;
use std::alloc::{AllocError, Global};

/// The JSON that a text in YAML says, or `None` where it says none.
pub(crate) fn json_of(alloc: Global, text: &str) -> Result<Option<Vec<u8>>, AllocError>
    ensures { IfOk result (λ found. IfSome found (λ json.
        IsJsonFor text.now json.items × IsUtf8 json.items)) }
{
    match to_json_text(alloc, text) {
        Ok(json) => Ok(Some(json.bytes)),
        Err(YamlError::Refused(_)) => Ok(None),
        Err(YamlError::OutOfMemory) => Err(AllocError),
    }
}

/// Whether a text says in YAML an object of exactly these members, in this order, each written byte
/// for byte as JSON prints it (`"name":value`). `false` says nothing of the text.
pub fn says_members(alloc: Global, text: &str, members: &[&str]) -> Result<bool, AllocError>
    ensures { IfOk result (λ said. IsTrue said →
        SaysMembers text.now (map (λ s. s.now) members.now)) }
{
    let Some(json) = json_of(alloc, text)? else {
        return Ok(false);
    };
    let Ok(said) = str::from_utf8(json.as_slice()) else {
        return Ok(false);
    };
    match element_slices(alloc, Brackets::Curly, said)? {
        Some(slices) => Ok(are_same(slices.as_slice(), members)),
        None => Ok(false),
    }
}

// Whether texts are the same, one after the other.
fn are_same(texts: &[&str], others: &[&str]) -> bool
    ensures { IsTrue result → map (λ s. s.now) texts.now ≡ map (λ s. s.now) others.now }
{
    if texts.len() != others.len() {
        return false;
    }
    let mut at = 0;
    'texts: while at < texts.len() {
        if !is_same(texts[at], others[at]) {
            return false;
        }
        at += 1;
    }
    true
}

// Whether two texts are the same.
fn is_same(text: &str, other: &str) -> bool
    ensures { IsTrue result → text.now ≡ other.now }
{
    text == other
}
