//! The key of the entry that an element says.
ghost use Rattle.std.specs.Prelude.{◌≡◌, ◌∷◌, [], IfOk, string_bytes};
ghost use Rattle.haya_entry.specs.Tree.{Tree, view};
ghost use Rattle.hayagriva.specs.Library.{key_of};
ghost use Rattle.haya_line_slices.specs.EntryLines.{IsEntryOf};
ghost use Rattle.haya_source.specs.Elements.{Says};
ghost use Rattle.haya_yaml_library.specs.Libraries.{DescribesAsYaml};

use crate::kind::ElementKind;
use haya_csl::read_item_line;
use haya_entry::Entry;
use haya_json::{Notes, read_entry_line, read_member_line};
use haya_line_library::laws::one_library;
use haya_line_library::read_library;
use haya_text::OutOfMemory;
use haya_yaml::laws::texts_say;
use haya_yaml_library::read_yaml_with_hash_keys;
use hayagriva::HashKeys;
use json::Scratch;
use std::alloc::Global;

/// The key of the entry that an element of this kind says. An element that says none is told as
/// out of memory: of a text that describes a library each says one. A map of what is lost hashes
/// with the keys.
pub fn element_key(
    alloc: Global,
    keys: HashKeys,
    kind: ElementKind,
    part: &str,
) -> Result<String, OutOfMemory>
    ensures { (entry : Tree) → Says kind part.now entry → IfOk result (λ key.
        string_bytes key ≡ key_of entry) }
{
    match kind {
        ElementKind::Lines => lines_key(alloc, keys, part),
        ElementKind::Yaml => yaml_key(alloc, keys, part),
        _ => {
            let entry = element_entry(alloc, keys, kind, part)?;
            Ok(String::from_str(alloc, entry.key())?)
        }
    }
}

// The key of the entry that lines list.
fn lines_key(alloc: Global, keys: HashKeys, part: &str) -> Result<String, OutOfMemory>
    ensures { (entry : Tree) → IsEntryOf part.now entry → IfOk result (λ key.
        string_bytes key ≡ key_of entry) }
{
    one_library();
    let Ok(library) = read_library(alloc, keys, part) else {
        return Err(OutOfMemory);
    };
    match library.nth(0) {
        Some(entry) => Ok(String::from_str(alloc, entry.key())?),
        None => Err(OutOfMemory),
    }
}

// The key of the entry that a member in YAML says.
fn yaml_key(alloc: Global, keys: HashKeys, part: &str) -> Result<String, OutOfMemory>
    ensures { (entry : Tree) → DescribesAsYaml part.now (entry ∷ []) → IfOk result (λ key.
        string_bytes key ≡ key_of entry) }
{
    texts_say();
    let Ok((library, _)) = read_yaml_with_hash_keys(alloc, keys, part) else {
        return Err(OutOfMemory);
    };
    match library.nth(0) {
        Some(entry) => Ok(String::from_str(alloc, entry.key())?),
        None => Err(OutOfMemory),
    }
}

// The entry of an element that is JSON.
fn element_entry(
    alloc: Global,
    keys: HashKeys,
    kind: ElementKind,
    part: &str,
) -> Result<Entry, OutOfMemory>
    ensures { IfOk result (λ entry. Says kind part.now (view entry)) }
{
    let mut notes = Notes::with_hash_keys(alloc, keys);
    let mut scratch = Scratch::new(alloc);
    let read = match kind {
        ElementKind::Items(by) => read_item_line(alloc, by, 0, part, &mut scratch, &mut notes),
        ElementKind::Members => read_member_line(alloc, part, &mut scratch, &mut notes),
        ElementKind::JsonLines => read_entry_line(alloc, part, &mut scratch, &mut notes),
        ElementKind::Lines | ElementKind::Yaml => return Err(OutOfMemory),
    };
    match read {
        Ok(entry) => Ok(entry),
        Err(_) => Err(OutOfMemory),
    }
}
