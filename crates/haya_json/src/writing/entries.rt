//! Entries, with their parents.
ghost use Rattle.std.specs.Prelude.{◌≡◌, ◌++◌, codes, map, option_map, OnOk};
ghost use Rattle.json.specs.Json.{array, member, no_members, string};
ghost use Rattle.json.specs.Tree.{members_tokens};
ghost use Rattle.haya_entry.specs.Tree.{fields, trees, view};
ghost use Rattle.haya_json.specs.Printed.{also, item_list, json_of, key_of_its_own};
ghost use Rattle.haya_json.specs.Printed.{parent_members, parents_json, type_json};
ghost use Rattle.haya_json.specs.Writing.{KeepsBefore, WritesMembers, WritesValue};

use super::fields::{write_last, write_numbers, write_people, write_texts};
use crate::members::{also_text, write_text};
use haya_entry::{Entry, EntryType};
use haya_text::OutOfMemory;
use json::Writer;
use std::alloc::Global;

/// Writes the entry as JSON in hayagriva's file format, as `to_json` does: behind what was written,
/// in an object or an array that the caller opens. `below` is the key of the entry below it, whose
/// parent it is, and none for an entry of a library. A call that fails may have written a part.
#[cycle(printed)]
pub fn write_entry(
    alloc: Global,
    out: &mut Writer,
    below: Option<&str>,
    entry: &Entry,
) -> Result<(), OutOfMemory>
    ensures value { OnOk result (WritesValue out.old out.new
        (json_of (option_map (λ k. k.now) below.entry) (view entry.now))) }
    ensures before { OnOk result (KeepsBefore out.old out.new) }
{
    out.begin_object()?;
    write_type(out, entry.entry_type())?;
    write_key(out, below, entry.key())?;
    write_texts(alloc, out, entry)?;
    write_people(alloc, out, entry)?;
    write_numbers(alloc, out, entry)?;
    write_last(alloc, out, entry)?;
    write_parents(alloc, out, entry.key(), entry.parents.as_slice())?;
    out.end_object()?;
    Ok(())
}

// The type.
#[tactic(auto, unfolding(crate::specs::Printed::type_json))]
fn write_type(out: &mut Writer, kind: EntryType) -> Result<(), OutOfMemory>
    ensures member { OnOk result (WritesMembers out.old out.new
        (λ ms. member (codes "type") (type_json kind) ms)) }
    ensures before { OnOk result (KeepsBefore out.old out.new) }
{
    write_text(out, "type", kind.lower_name())
}

// The key, where it isn't that of the entry below.
fn write_key(out: &mut Writer, below: Option<&str>, key: &str) -> Result<(), OutOfMemory>
    ensures member { OnOk result (WritesMembers out.old out.new
        (λ ms. also (codes "key") string
        (key_of_its_own (option_map (λ k. k.now) below.entry) key.now) ms)) }
    ensures before { OnOk result (KeepsBefore out.old out.new) }
{
    match below {
        Some(below) if below != key => write_text(out, "key", key),
        _ => Ok(()),
    }
}

// The parents, where there are any: one alone, or an array of them.
#[cycle(printed)]
fn write_parents(
    alloc: Global,
    out: &mut Writer,
    key: &str,
    parents: &[Entry],
) -> Result<(), OutOfMemory>
    ensures member { OnOk result (out.new.tokens ++ members_tokens no_members
        ≡ out.old.tokens
        ++ members_tokens (parent_members key.now (trees (map view parents.now)))) }
    ensures before { OnOk result (KeepsBefore out.old out.new) }
{
    if parents.is_empty() {
        return Ok(());
    }
    out.key("parent")?;
    write_some(alloc, out, key, parents)?;
    Ok(())
}

// One parent alone, and an array where there isn't exactly one.
#[cycle(printed)]
fn write_some(
    alloc: Global,
    out: &mut Writer,
    key: &str,
    parents: &[Entry],
) -> Result<(), OutOfMemory>
    ensures value { OnOk result (WritesValue out.old out.new
        (parents_json key.now (trees (map view parents.now)))) }
    ensures before { OnOk result (KeepsBefore out.old out.new) }
{
    match parents {
        [parent] => write_entry(alloc, out, Some(key), parent),
        _ => write_each(alloc, out, key, parents),
    }
}

// An array of parents.
#[cycle(printed)]
fn write_each(
    alloc: Global,
    out: &mut Writer,
    key: &str,
    parents: &[Entry],
) -> Result<(), OutOfMemory>
    ensures value { OnOk result (WritesValue out.old out.new
        (array (item_list key.now (trees (map view parents.now))))) }
    ensures before { OnOk result (KeepsBefore out.old out.new) }
{
    out.begin_array()?;
    'parents: for parent in parents {
        write_entry(alloc, out, Some(key), parent)?;
    }
    out.end_array()?;
    Ok(())
}
