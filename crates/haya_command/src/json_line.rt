//! A hit as a line of JSON.
ghost use Rattle.std.specs.Prelude.{◌≡◌, ◌++◌, List, ℕ, OnOk, string_bytes};
ghost use Rattle.json.specs.Json.{no_members};
ghost use Rattle.json.specs.Tree.{members_tokens};
ghost use Rattle.haya_hits.specs.Line.{names_of};
ghost use Rattle.haya_json.specs.Writing.{KeepsBefore, WritesValue};
ghost use Rattle.haya_command.specs.Printed.{IsJsonLineOf, hit_json, names_json};
ghost use Rattle.hayagriva.specs.Library.{key_of};
ghost use Rattle.hayagriva.specs.Query.{hit_entry};

use haya_hits::bindings;
use haya_json::write_entry;
use haya_text::OutOfMemory;
use hayagriva::{Entry, Hit};
use json::Writer;
use std::alloc::Global;
use std::collections::BTreeMap;

/// Puts the hit behind a text as a line of JSON: an object of its `key`, its `bindings`, which are
/// the keys of what its names are bound to, and its `entry` in hayagriva's file format.
pub fn push_json_line(alloc: Global, text: &mut String, hit: &Hit) -> Result<(), OutOfMemory>
    ensures { OnOk result ((line : List ℕ) × IsJsonLineOf hit.now line
        × (string_bytes text.new ≡ string_bytes text.old ++ line)) }
{
    let names = bindings(alloc, hit)?;
    let mut out = Writer::new(Vec::new(alloc));
    write_hit(alloc, &mut out, hit, names)?;
    let line = out.into_inner();
    match str::from_utf8(line.as_slice()) {
        Ok(line) => text.push_str(line)?,
        Err(_) => unreachable!(),
    }
    text.push('\n')?;
    Ok(())
}

// The hit, whose names are these.
fn write_hit(
    alloc: Global,
    out: &mut Writer,
    hit: &Hit,
    names: BTreeMap<&String, &&Entry>,
) -> Result<(), OutOfMemory>
    ensures value { OnOk result (WritesValue out.old out.new
        (hit_json (key_of (hit_entry hit.now)) (names_of names.entry.entries)
        (hit_entry hit.now))) }
    ensures before { OnOk result (KeepsBefore out.old out.new) }
{
    out.begin_object()?;
    out.key("key")?;
    out.string(hit.entry.key())?;
    out.key("bindings")?;
    write_names(out, names)?;
    out.key("entry")?;
    write_entry(alloc, out, None, hit.entry)?;
    out.end_object()?;
    Ok(())
}

// An object of the key of each entry under its name.
fn write_names(out: &mut Writer, names: BTreeMap<&String, &&Entry>) -> Result<(), OutOfMemory>
    ensures value { OnOk result (WritesValue out.old out.new
        (names_json (names_of names.entry.entries))) }
    ensures before { OnOk result (KeepsBefore out.old out.new) }
{
    out.begin_object()?;
    for (name, bound) in names {
        out.key(name.as_str())?;
        out.string(bound.key())?;
    }
    out.end_object()?;
    Ok(())
}
