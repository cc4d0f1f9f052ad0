//! Items, with the parents that they make, and what is lost of them.
ghost use Rattle.std.specs.Map.{lookup};
ghost use Rattle.std.specs.Option.{option_map_or};
ghost use Rattle.std.specs.Str.{bytes_eq};
ghost use Rattle.std.specs.Prelude.{◌≡◌, [], Ok, false, option_map, IfErr, IfOk};
ghost use Rattle.std.specs.Prelude.{OnOk};
ghost use Rattle.json.specs.Value.{members_view, value_view};
ghost use Rattle.haya_people.specs.Roles.{role_view};
ghost use Rattle.haya_entry.specs.Tree.{view};
ghost use Rattle.hayagriva.specs.Library.{push};
ghost use Rattle.haya_json.specs.Notes.{all_kept, losts_view, notes_view};
ghost use Rattle.haya_json.specs.Parts.{text_in};
ghost use Rattle.haya_json.specs.Readings.{reading_view};
ghost use Rattle.haya_json.specs.Refusal.{IsFaultOf};
ghost use Rattle.haya_json.specs.Told.{told_of};
ghost use Rattle.haya_csl.specs.Draft.{draft_view, member_view};
ghost use Rattle.haya_csl.specs.Items.{citation_key_lost, is_place_again, item_of, item_said};
ghost use Rattle.haya_csl.specs.Items.{item_made, item_under, later_roles, members_set};
ghost use Rattle.haya_csl.specs.Items.{only_lost, placed};
ghost use Rattle.haya_csl.specs.Items.{role_of, text_lost, type_lost, with_field, with_member};
ghost use Rattle.haya_csl.specs.Made.{PushesItem};

use crate::draft::Draft;
use crate::item_key::{ItemKey, item_key};
use crate::kinds::{Kind, has, is_empty, kind_named, kind_of, text_at};
use crate::members::{Choice, Place, beside, place_of};
use haya_entry::Entry;
use haya_json::reading::{
    Reading, ValueError, add_in_member, only_named, only_unread, push_reading, text_in,
};
use haya_json::{Lost, Notes, Why};
use haya_people::PersonRole;
use haya_text::OutOfMemory;
use hayagriva::Library;
use json::Value;
use std::alloc::Global;

/// What an item says, an object that has a key.
pub(crate) fn read_item(alloc: Global, by: ItemKey, item: &Value<'_>) -> Result<Reading, ValueError>
    ensures ok { IfOk result (λ read.
        item_said by (value_view item.now) ≡ Ok (reading_view read)) }
    ensures fault { IfErr result (IsFaultOf (item_of by (value_view item.now))) }
{
    let Value::Object(members) = item else {
        return Err(ValueError::refused(alloc, Why::NotObject));
    };
    let key = match item_key(alloc, by, item) {
        Ok(key) => key,
        Err(fault) => return Err(fault),
    };
    let kind = kind_of(item);
    let mut draft = match Entry::new(alloc, key, kind.entry) {
        Ok(own) => Draft::new(alloc, own),
        Err(_) => return Err(ValueError::OutOfMemory),
    };
    match fill(alloc, &mut draft, by, kind, key, item, members) {
        Ok(lost) => Ok(Reading {
            entry: draft.own,
            lost,
        }),
        Err(_) => {
            drop(draft);
            Err(ValueError::OutOfMemory)
        }
    }
}

/// Puts the entry that an item says into the library, and tells what is lost of the item. It is
/// made where it is filled, and moved once.
pub(crate) fn push_item(
    alloc: Global,
    by: ItemKey,
    item: &Value<'_>,
    library: &mut Library,
    notes: &mut Notes,
) -> Result<(), ValueError>
    ensures ok { OnOk result (PushesItem by (value_view item.now) library.old library.new
        (notes_view notes.old) (notes_view notes.new)) }
    ensures fault { IfErr result (IsFaultOf (item_of by (value_view item.now))) }
{
    let Value::Object(members) = item else {
        return Err(ValueError::refused(alloc, Why::NotObject));
    };
    let key = match item_key(alloc, by, item) {
        Ok(key) => key,
        Err(fault) => return Err(fault),
    };
    match push_under(alloc, by, key, item, members, library, notes) {
        Ok(()) => Ok(()),
        Err(_) => Err(ValueError::OutOfMemory),
    }
}

// The same under this key.
fn push_under(
    alloc: Global,
    by: ItemKey,
    key: &str,
    item: &Value<'_>,
    members: &Vec<(&str, Value<'_>)>,
    library: &mut Library,
    notes: &mut Notes,
) -> Result<(), OutOfMemory>
    ensures pushed { OnOk result (library.new ≡ push (item_under by key.now (value_view item.now)
        (members_view members.now.items)).entry library.old) }
    ensures told { OnOk result (notes_view notes.new ≡ all_kept (told_of library.old
        (item_under by key.now (value_view item.now) (members_view members.now.items)))
        (notes_view notes.old)) }
{
    let kind = kind_of(item);
    let mut draft = match Entry::new(alloc, key, kind.entry) {
        Ok(own) => Draft::new(alloc, own),
        Err(error) => return Err(error),
    };
    match fill(alloc, &mut draft, by, kind, key, item, members) {
        Ok(lost) => {
            let entry = draft.own;
            push_reading(alloc, library, notes, Reading { entry, lost })
        }
        Err(error) => {
            drop(draft);
            Err(error)
        }
    }
}

// Sets the members in turn, and then the parents that they made; answers what is lost of them.
fn fill(
    alloc: Global,
    draft: &mut Draft,
    by: ItemKey,
    kind: Kind,
    key: &str,
    item: &Value<'_>,
    members: &Vec<(&str, Value<'_>)>,
) -> Result<Vec<Lost>, OutOfMemory>
    ensures { IfOk result (λ lost.
        item_made (members_set by kind key.now (value_view item.now)
        (members_view members.now.items) (only_lost [] (draft_view draft.old)))
        ≡ record { entry = view draft.new.own; lost = losts_view lost.items }) }
{
    let lost = set_members(alloc, draft, by, kind, key, item, members)?;
    match draft.close(alloc) {
        Ok(()) => Ok(lost),
        Err(error) => {
            drop(lost);
            Err(error)
        }
    }
}

// Sets the members in turn, and answers what is lost of them.
fn set_members(
    alloc: Global,
    draft: &mut Draft,
    by: ItemKey,
    kind: Kind,
    key: &str,
    item: &Value<'_>,
    members: &Vec<(&str, Value<'_>)>,
) -> Result<Vec<Lost>, OutOfMemory>
    ensures { IfOk result (λ lost.
        members_set by kind key.now (value_view item.now) (members_view members.now.items)
        (only_lost [] (draft_view draft.old)) ≡ member_view lost.items draft.new) }
{
    let mut lost = Vec::new(alloc);
    'members: for member in members {
        let of_member = set_member(alloc, draft, by, kind, key, member.0, item, &member.1)?;
        add_in_member(alloc, &mut lost, of_member, member.0)?;
    }
    Ok(lost)
}

// Sets one member, and answers what is lost of it.
fn set_member(
    alloc: Global,
    draft: &mut Draft,
    by: ItemKey,
    kind: Kind,
    key: &str,
    name: &str,
    item: &Value<'_>,
    json: &Value<'_>,
) -> Result<Vec<Lost>, OutOfMemory>
    ensures { IfOk result (λ lost.
        with_member by kind key.now name.now (value_view item.now) (value_view json.now)
        (draft_view draft.old) ≡ member_view lost.items draft.new) }
{
    if is_empty(json) || name == "id" {
        return Ok(Vec::new(alloc));
    }
    if name == "citation-key" {
        return citation_key_lost(alloc, by, json);
    }
    if name == "type" {
        return type_lost(alloc, text_in(json), item, json);
    }
    if is_place_again(name, item, json) {
        return Ok(Vec::new(alloc));
    }
    set_field(alloc, draft, kind, key, name, item, json)
}

// What is lost of a `citation-key`: where it isn't the key, all of it.
fn citation_key_lost(alloc: Global, by: ItemKey, json: &Value<'_>) -> Result<Vec<Lost>, OutOfMemory>
    ensures { IfOk result (λ lost.
        losts_view lost.items ≡ citation_key_lost by (value_view json.now)) }
{
    match by {
        ItemKey::CitationKey => text_lost(alloc, text_in(json), json),
        ItemKey::Id => only_named(alloc, "citation-key"),
    }
}

// A value that has no text is lost.
fn text_lost(alloc: Global, text: Option<&str>, json: &Value<'_>) -> Result<Vec<Lost>, OutOfMemory>
    ensures { IfOk result (λ lost.
        losts_view lost.items ≡ text_lost (option_map (λ t. t.now) text.entry)) }
{
    match text {
        Some(_) => Ok(Vec::new(alloc)),
        None => only_unread(alloc, Why::NotText, json),
    }
}

// What is lost of a `type` with this text: one that is no text, or that CSL doesn't have.
fn type_lost(
    alloc: Global,
    name: Option<&str>,
    item: &Value<'_>,
    json: &Value<'_>,
) -> Result<Vec<Lost>, OutOfMemory>
    ensures { IfOk result (λ lost. losts_view lost.items
        ≡ type_lost (option_map (λ t. t.now) name.entry) (value_view item.now)) }
{
    let Some(name) = name else {
        return only_unread(alloc, Why::NotText, json);
    };
    match kind_named(name, item) {
        Some(_) => Ok(Vec::new(alloc)),
        None => only_unread(alloc, Why::UnknownType, json),
    }
}

// Whether a member is the place of the publisher, said again as that of an event that isn't there.
fn is_place_again(name: &str, item: &Value<'_>, json: &Value<'_>) -> bool
    ensures { result ≡ is_place_again name.now (value_view item.now) (value_view json.now) }
{
    name == "event-place"
        && has_text(json, text_at(item, "publisher-place"))
        && !(has(item, "event-title") || has(item, "event"))
}

// Whether this is the text of the value.
fn has_text(json: &Value<'_>, text: &str) -> bool
    ensures { result ≡ option_map_or (bytes_eq text.now) (text_in (value_view json.now)) false }
{
    match text_in(json) {
        Some(own) => text == own,
        None => false,
    }
}

// Adds persons with a role, or sets the field of the member, and answers what is lost of it.
fn set_field(
    alloc: Global,
    draft: &mut Draft,
    kind: Kind,
    key: &str,
    name: &str,
    item: &Value<'_>,
    json: &Value<'_>,
) -> Result<Vec<Lost>, OutOfMemory>
    ensures { IfOk result (λ lost.
        with_field kind key.now name.now (value_view item.now) (value_view json.now)
        (draft_view draft.old) ≡ member_view lost.items draft.new) }
{
    if let Some(role) = role_of(name) {
        return draft.add_persons(alloc, role, key, name, json);
    }
    set_placed(
        alloc,
        draft,
        place_of(kind, name, item),
        key,
        name,
        item,
        json,
    )
}

// Sets the field at its place, and answers what is lost of the member.
fn set_placed(
    alloc: Global,
    draft: &mut Draft,
    place: Option<Place>,
    key: &str,
    name: &str,
    item: &Value<'_>,
    json: &Value<'_>,
) -> Result<Vec<Lost>, OutOfMemory>
    ensures { IfOk result (λ lost.
        placed place key.now name.now (value_view item.now) (value_view json.now)
        (draft_view draft.old) ≡ member_view lost.items draft.new) }
{
    let Some(place) = place else {
        return only_named(alloc, name);
    };
    match place.choice {
        Choice::Pass => only_named(alloc, beside(name, item)),
        Choice::Put(field) => draft.set(alloc, place.level, key, field, name, item, json),
    }
}

/// The role of the persons whom a member names.
pub(crate) fn role_of(name: &str) -> Option<PersonRole>
    ensures { option_map role_view result ≡ role_of name.now }
{
    match name {
        "translator" => Some(PersonRole::Translator),
        "director" => Some(PersonRole::Director),
        "composer" => Some(PersonRole::Composer),
        "illustrator" => Some(PersonRole::Illustrator),
        "narrator" => Some(PersonRole::Narrator),
        "producer" => Some(PersonRole::Producer),
        "executive-producer" => Some(PersonRole::ExecutiveProducer),
        _ => later_role(name),
    }
}

// The same of the other names.
fn later_role(name: &str) -> Option<PersonRole>
    ensures { option_map role_view result ≡ lookup (bytes_eq name.now) later_roles }
{
    match name {
        "organizer" | "curator" => Some(PersonRole::Organizer),
        "compiler" => Some(PersonRole::Compiler),
        "performer" => Some(PersonRole::CastMember),
        "script-writer" => Some(PersonRole::Writer),
        "contributor" => Some(PersonRole::Collaborator),
        _ => None,
    }
}
