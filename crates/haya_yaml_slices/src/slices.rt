//! The members of a text.
ghost use Rattle.std.specs.Prelude.{◌≡◌, IfOk, IfSome, IsTrue, map};
ghost use Rattle.std.specs.List.{AllZip};
ghost use Rattle.haya_yaml_slices.specs.Members.{AreMemberParts, SaysMember, SaysParts};

use crate::dividing::divided;
use crate::saying::{json_of, says_members};
use haya_json_elements::Brackets;
use haya_slices::element_slices;
use std::alloc::{AllocError, Global};

/// The members of a text that is a map in YAML over lines, in order, each as it is in the text,
/// byte for byte: the lines from its key on up to the next. Comments right above a key, no deeper
/// than it, go with the key. What comes before the first key and behind the document is of none.
/// Each was read again by itself, and says its member alone. `None` is meant for a text that says no
/// value, or one in brackets; no contract says when it is answered.
pub fn member_slices<'t>(alloc: Global, text: &'t str) -> Result<Option<Vec<&'t str>>, AllocError>
    ensures { IfOk result (λ found. IfSome found (λ parts.
        AreMemberParts text.now (map (λ s. s.now) parts.items))) }
{
    let Some(json) = json_of(alloc, text)? else {
        return Ok(None);
    };
    let Ok(said) = str::from_utf8(json.as_slice()) else {
        return Ok(None);
    };
    let Some(members) = element_slices(alloc, Brackets::Curly, said)? else {
        return Ok(None);
    };
    let parts = divided(alloc, true, text)?;
    if say_each(alloc, parts.as_slice(), members.as_slice())? {
        return Ok(Some(parts));
    }
    // A comment may be the end of a quoted text: then it stays where it is.
    let parts = divided(alloc, false, text)?;
    if say_each(alloc, parts.as_slice(), members.as_slice())? {
        return Ok(Some(parts));
    }
    Ok(None)
}

// Whether each part says the member at its place, and no other.
fn say_each(alloc: Global, parts: &[&str], members: &[&str]) -> Result<bool, AllocError>
    ensures { IfOk result (λ said. IsTrue said →
        AllZip SaysMember (map (λ s. s.now) parts.now) (map (λ s. s.now) members.now)) }
{
    if parts.len() != members.len() {
        return Ok(false);
    }
    let mut at = 0;
    'parts: while at < parts.len() {
        if !says_members(alloc, parts[at], &[members[at]])? {
            return Ok(false);
        }
        at += 1;
    }
    Ok(true)
}

/// Whether a text says what these parts say, each alone, in this order. `false` says nothing of it.
pub(crate) fn says_parts(alloc: Global, text: &str, parts: &[&str]) -> Result<bool, AllocError>
    ensures { IfOk result (λ said. IsTrue said →
        SaysParts text.now (map (λ s. s.now) parts.now)) }
{
    let Some(json) = json_of(alloc, text)? else {
        return Ok(false);
    };
    let Ok(said) = str::from_utf8(json.as_slice()) else {
        return Ok(false);
    };
    match element_slices(alloc, Brackets::Curly, said)? {
        Some(members) => say_each(alloc, parts, members.as_slice()),
        None => Ok(false),
    }
}
