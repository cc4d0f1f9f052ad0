//! Entries, with their parents.
ghost use Rattle.std.specs.Prelude.{◌≡◌, Ok, Some, option_map, IfOk, IfErr, OnOk};
ghost use Rattle.std.specs.Result.{result_ok};
ghost use Rattle.json.specs.Value.{items_view, members_view, value_view};
ghost use Rattle.haya_entry.specs.ParentTypes.{default_parent};
ghost use Rattle.haya_entry.specs.Tree.{view};
ghost use Rattle.haya_json.specs.Entries.{entry_begun, entry_said, item_added, items_said};
ghost use Rattle.haya_json.specs.Entries.{key_among, kind_of, members_said, own_key};
ghost use Rattle.haya_json.specs.Entries.{parents_said, type_missing, type_of, with_member};
ghost use Rattle.haya_json.specs.Notes.{losts_view, refusal_lost};
ghost use Rattle.haya_json.specs.Parts.{plain_of};
ghost use Rattle.haya_json.specs.Readings.{entry_view, parents_view, reading_view};
ghost use Rattle.haya_json.specs.Refusal.{IsFaultOf};

use crate::fault::{ValueError, Why};
use crate::fields::set_field;
use crate::from_json::{member, text_in};
use crate::losts::{add_in_item, add_in_member, only, only_refused, only_unread};
use crate::notes::Lost;
use crate::told::Reading;
use haya_entry::{Entry, EntryType};
use haya_text::OutOfMemory;
use json::Value;
use std::alloc::Global;

/// An entry under this key, and what is lost of it: an object, whose type is the one that it names,
/// or otherwise the default, if there is one. A parent has a default, and may have a key of its own.
#[cycle(entries)]
pub(crate) fn read_entry(
    alloc: Global,
    key: &str,
    default: Option<EntryType>,
    json: &Value<'_>,
) -> Result<Reading, ValueError>
    ensures ok { IfOk result (λ read.
        entry_said key.now default (value_view json.now) ≡ Ok (reading_view read)) }
    ensures fault { IfErr result (IsFaultOf (entry_said key.now default (value_view json.now))) }
{
    let Value::Object(members) = json else {
        return Err(ValueError::refused(alloc, Why::NotObject));
    };
    match read_object(alloc, key, default, json, members) {
        Ok(read) => Ok(read),
        Err(_) => Err(ValueError::OutOfMemory),
    }
}

// The entry of an object under its own key, or otherwise this one.
#[cycle(entries)]
fn read_object(
    alloc: Global,
    key: &str,
    default: Option<EntryType>,
    json: &Value<'_>,
    members: &Vec<(&str, Value<'_>)>,
) -> Result<Reading, OutOfMemory>
    ensures { IfOk result (λ read.
        let own = key_among key.now default (value_view json.now) in
        members_said own default (kind_of default (value_view json.now))
        (members_view members.now.items) (entry_begun own default (value_view json.now))
        ≡ reading_view read) }
{
    match own_key(default, json) {
        Some(own) => read_members(alloc, own, default, json, members),
        None => read_members(alloc, key, default, json, members),
    }
}

// The key that a parent has of its own.
fn own_key<'a>(default: Option<EntryType>, json: &Value<'a>) -> Option<&'a str>
    ensures { option_map (λ k. k.now) result ≡ own_key default (value_view json.now) }
{
    if default.is_none() {
        return None;
    }
    text_in(member(json, "key")?)
}

// The type that an object says its entry has; otherwise the default, and `Misc` where there is none.
fn kind_of(default: Option<EntryType>, json: &Value<'_>) -> EntryType
    ensures { result ≡ kind_of default (value_view json.now) }
{
    if let Some(named) = member(json, "type") {
        if let Some(kind) = type_named(named) {
            return kind;
        }
    }
    default.unwrap_or(EntryType::Misc)
}

// The type of this name.
fn type_named(json: &Value<'_>) -> Option<EntryType>
    ensures { result ≡ result_ok (type_of (value_view json.now)) }
{
    text_in(json)?.parse::<EntryType>().ok()
}

// What is lost of the type of an entry: a name of none, or what is no text.
fn type_lost(alloc: Global, json: &Value<'_>) -> Result<Vec<Lost>, OutOfMemory>
    ensures { IfOk result (λ lost.
        losts_view lost.items ≡ refusal_lost (type_of (value_view json.now))) }
{
    let Some(text) = text_in(json) else {
        return only_unread(alloc, Why::NotText, json);
    };
    match text.parse::<EntryType>() {
        Ok(_) => Ok(Vec::new(alloc)),
        Err(_) => only_unread(alloc, Why::UnknownType, json),
    }
}

// What an entry of a library lacks that says no type.
fn type_missing(
    alloc: Global,
    default: Option<EntryType>,
    json: &Value<'_>,
) -> Result<Vec<Lost>, OutOfMemory>
    ensures { IfOk result (λ lost.
        losts_view lost.items ≡ type_missing default (value_view json.now)) }
{
    if default.is_some() || member(json, "type").is_some() {
        return Ok(Vec::new(alloc));
    }
    only(alloc, Lost::missing(alloc).in_member(alloc, "type")?)
}

// An entry of this type, after its members are set in turn, and what is lost of them.
#[cycle(entries)]
fn read_members(
    alloc: Global,
    key: &str,
    default: Option<EntryType>,
    json: &Value<'_>,
    members: &Vec<(&str, Value<'_>)>,
) -> Result<Reading, OutOfMemory>
    ensures { IfOk result (λ read.
        members_said key.now default (kind_of default (value_view json.now))
        (members_view members.now.items) (entry_begun key.now default (value_view json.now))
        ≡ reading_view read) }
{
    let kind = kind_of(default, json);
    let mut lost = type_missing(alloc, default, json)?;
    let mut entry = Entry::new(alloc, key, kind)?;
    set_members(alloc, &mut entry, &mut lost, key, default, kind, members)?;
    Ok(Reading { entry, lost })
}

// Sets the members in turn, and puts what is lost of them behind what was lost before.
#[cycle(entries)]
fn set_members(
    alloc: Global,
    entry: &mut Entry,
    lost: &mut Vec<Lost>,
    key: &str,
    default: Option<EntryType>,
    kind: EntryType,
    members: &Vec<(&str, Value<'_>)>,
) -> Result<(), OutOfMemory>
    ensures { OnOk result
        (members_said key.now default kind (members_view members.now.items)
        (entry_view entry.old lost.old.items) ≡ entry_view entry.new lost.new.items) }
{
    'members: for member in members {
        let more = set_member(alloc, entry, key, default, kind, member.0, &member.1)?;
        add_in_member(alloc, lost, more, member.0)?;
    }
    Ok(())
}

// Sets one member, the parents or a field, and answers what is lost of it.
#[cycle(entries)]
fn set_member(
    alloc: Global,
    entry: &mut Entry,
    key: &str,
    default: Option<EntryType>,
    kind: EntryType,
    name: &str,
    json: &Value<'_>,
) -> Result<Vec<Lost>, OutOfMemory>
    ensures { IfOk result (λ lost. with_member default name.now (value_view json.now)
        (parents_said key.now (default_parent kind) (value_view json.now)) (view entry.old)
        ≡ entry_view entry.new lost.items) }
{
    if json.is_null() {
        return Ok(Vec::new(alloc));
    }
    if name == "type" {
        return type_lost(alloc, json);
    }
    if name == "parent" {
        let Parents { entries, lost } = read_parents(alloc, key, kind.default_parent(), json)?;
        entry.set_parents(entries);
        return Ok(lost);
    }
    if name == "key" && default.is_some() {
        return text_lost(alloc, json);
    }
    set_field(alloc, entry, name, json)
}

// What is lost of a value that has to be a text.
fn text_lost(alloc: Global, json: &Value<'_>) -> Result<Vec<Lost>, OutOfMemory>
    ensures { IfOk result (λ lost.
        losts_view lost.items ≡ refusal_lost (plain_of (value_view json.now))) }
{
    match text_in(json) {
        Some(_) => Ok(Vec::new(alloc)),
        None => only_unread(alloc, Why::NotText, json),
    }
}

// Parents, and what is lost of the JSON that they were read of.
#[derive(Drop)]
struct Parents {
    entries: Vec<Entry>,
    lost: Vec<Lost>,
}

// One parent alone, or an array of them.
#[cycle(entries)]
fn read_parents(
    alloc: Global,
    key: &str,
    default: EntryType,
    json: &Value<'_>,
) -> Result<Parents, OutOfMemory>
    ensures { IfOk result (λ ps.
        parents_said key.now default (value_view json.now) ≡ parents_view ps) }
{
    match json {
        Value::Array(items) => read_each(alloc, key, default, items),
        Value::Object(members) => {
            let Reading { entry, lost } = read_object(alloc, key, Some(default), json, members)?;
            let mut entries = Vec::new(alloc);
            entries.push(entry)?;
            Ok(Parents { entries, lost })
        }
        _ => {
            let lost = only_unread(alloc, Why::NotEntries, json)?;
            let entries = Vec::new(alloc);
            Ok(Parents { entries, lost })
        }
    }
}

// Each item as an entry, in order. One that says none is lost.
#[cycle(entries)]
fn read_each(
    alloc: Global,
    key: &str,
    default: EntryType,
    items: &Vec<Value<'_>>,
) -> Result<Parents, OutOfMemory>
    ensures { IfOk result (λ ps.
        items_said key.now default 0 (items_view items.now.items) ≡ parents_view ps) }
{
    let mut parents = Parents {
        entries: Vec::with_capacity(alloc, items.len())?,
        lost: Vec::new(alloc),
    };
    'entries: for place in 0..items.len() {
        add_parent(alloc, &mut parents, key, default, place, &items[place])?;
    }
    Ok(parents)
}

// Puts the parent that the item at this place says behind others. An item that says none is lost.
#[cycle(entries)]
fn add_parent(
    alloc: Global,
    parents: &mut Parents,
    key: &str,
    default: EntryType,
    place: usize,
    json: &Value<'_>,
) -> Result<(), OutOfMemory>
    ensures { OnOk result
        (item_added place (entry_said key.now (Some default) (value_view json.now))
        (parents_view parents.old) ≡ parents_view parents.new) }
{
    match read_entry(alloc, key, Some(default), json) {
        Ok(Reading { entry, lost }) => {
            parents.entries.push(entry)?;
            add_in_item(alloc, &mut parents.lost, lost, place)
        }
        Err(ValueError::Refused(path, why)) => {
            let lost = only_refused(alloc, path, why, json)?;
            add_in_item(alloc, &mut parents.lost, lost, place)
        }
        Err(ValueError::OutOfMemory) => Err(OutOfMemory),
    }
}
