//! What is lost of values that are read: the members of their objects that are none of their parts.
ghost use Rattle.std.specs.Prelude.{◌≡◌, ◌∷◌, [], IfOk};
ghost use Rattle.json.specs.Value.{items_view, members_view, value_view};
ghost use Rattle.haya_json.specs.LostParts.{items_lost, many_lost, member_lost, members_lost};
ghost use Rattle.haya_json.specs.LostParts.{no_part, parts_lost};
ghost use Rattle.haya_json.specs.Notes.{losts_view};

use crate::losts::{add_in_item, add_lost, all_in_member, only_named};
use crate::notes::Lost;
use haya_people::{Person, PersonsWithRoles};
use haya_text::{ChunkedString, FormatString, OutOfMemory};
use haya_time::{Date, DurationRange};
use haya_values::{MaybeTyped, Publisher, QualifiedUrl};
use json::Value;
use std::alloc::Global;

/// A value that an object may say by its parts.
pub(crate) trait HasParts {
    ghost use Rattle.std.specs.Prelude.{◌≡◌, IfOk};
    ghost use Rattle.json.specs.Value.{value_view};
    ghost use Rattle.haya_json.specs.LostParts.{PartLoss};
    ghost use Rattle.haya_json.specs.Notes.{losts_view};

    ghost part: { PartLoss };

    /// What is lost of the member with this name and value, in the field that is called so.
    fn part_lost(
        alloc: Global,
        of: &str,
        name: &str,
        json: &Value<'_>,
    ) -> Result<Vec<Lost>, OutOfMemory>
        ensures { IfOk result (λ lost.
            losts_view lost.items ≡ part of.now name.now (value_view json.now)) };
}

// A member that is no part is lost under the name of the field and its own.
fn no_part(alloc: Global, of: &str, name: &str) -> Result<Vec<Lost>, OutOfMemory>
    ensures { IfOk result (λ lost. losts_view lost.items ≡ no_part of.now name.now) }
{
    let mut text = String::from_str(alloc, of)?;
    text.push_str(", member ")?;
    text.push_str(name)?;
    only_named(alloc, text.as_str())
}

/// What is lost of a value that is read, in the field that is called so.
#[tactic(auto, unfolding(crate::specs::LostParts::parts_lost))]
pub(crate) fn parts_lost<T: HasParts>(
    alloc: Global,
    of: &str,
    json: &Value<'_>,
) -> Result<Vec<Lost>, OutOfMemory>
    ensures { IfOk result (λ lost.
        losts_view lost.items ≡ parts_lost T.part of.now (value_view json.now)) }
{
    match json {
        Value::Object(members) => members_lost::<T>(alloc, of, members),
        _ => Ok(Vec::new(alloc)),
    }
}

// What is lost of the members of an object.
fn members_lost<T: HasParts>(
    alloc: Global,
    of: &str,
    members: &Vec<(&str, Value<'_>)>,
) -> Result<Vec<Lost>, OutOfMemory>
    ensures { IfOk result (λ lost. losts_view lost.items
        ≡ members_lost T.part of.now (members_view members.now.items)) }
{
    let mut lost = Vec::new(alloc);
    'members: for member in members {
        add_lost(&mut lost, member_lost::<T>(alloc, of, member.0, &member.1)?)?;
    }
    Ok(lost)
}

// What is lost of a member. One that is null is as if it weren't there.
fn member_lost<T: HasParts>(
    alloc: Global,
    of: &str,
    name: &str,
    json: &Value<'_>,
) -> Result<Vec<Lost>, OutOfMemory>
    ensures { IfOk result (λ lost. losts_view lost.items
        ≡ member_lost T.part of.now name.now (value_view json.now)) }
{
    if json.is_null() {
        return Ok(Vec::new(alloc));
    }
    let lost = T::part_lost(alloc, of, name, json)?;
    all_in_member(alloc, lost, name)
}

/// What is lost of one value alone, or of an array of them.
#[tactic(auto, unfolding(crate::specs::LostParts::many_lost))]
pub(crate) fn many_lost<T: HasParts>(
    alloc: Global,
    of: &str,
    json: &Value<'_>,
) -> Result<Vec<Lost>, OutOfMemory>
    ensures { IfOk result (λ lost.
        losts_view lost.items ≡ many_lost T.part of.now (value_view json.now)) }
{
    match json {
        Value::Array(items) => items_lost::<T>(alloc, of, items),
        _ => parts_lost::<T>(alloc, of, json),
    }
}

// What is lost of the items of an array.
fn items_lost<T: HasParts>(
    alloc: Global,
    of: &str,
    items: &Vec<Value<'_>>,
) -> Result<Vec<Lost>, OutOfMemory>
    ensures { IfOk result (λ lost. losts_view lost.items
        ≡ items_lost T.part of.now 0 (items_view items.now.items)) }
{
    let mut lost = Vec::new(alloc);
    'items: for place in 0..items.len() {
        add_in_item(
            alloc,
            &mut lost,
            parts_lost::<T>(alloc, of, &items[place])?,
            place,
        )?;
    }
    Ok(lost)
}

impl HasParts for ChunkedString {
    ghost use Rattle.haya_json.specs.LostParts.{chunks_part};

    ghost part = { chunks_part };

    fn part_lost(
        alloc: Global,
        of: &str,
        name: &str,
        _json: &Value<'_>,
    ) -> Result<Vec<Lost>, OutOfMemory> {
        match name {
            "value" | "verbatim" => Ok(Vec::new(alloc)),
            _ => no_part(alloc, of, name),
        }
    }
}

impl HasParts for FormatString {
    ghost use Rattle.haya_json.specs.LostParts.{format_part};

    ghost part = { format_part };

    fn part_lost(
        alloc: Global,
        of: &str,
        name: &str,
        json: &Value<'_>,
    ) -> Result<Vec<Lost>, OutOfMemory> {
        match name {
            "value" | "short" => parts_lost::<ChunkedString>(alloc, of, json),
            "verbatim" => Ok(Vec::new(alloc)),
            _ => no_part(alloc, of, name),
        }
    }
}

impl HasParts for Person {
    ghost use Rattle.haya_json.specs.LostParts.{person_part};

    ghost part = { person_part };

    fn part_lost(
        alloc: Global,
        of: &str,
        name: &str,
        _json: &Value<'_>,
    ) -> Result<Vec<Lost>, OutOfMemory> {
        match name {
            "name" | "given-name" | "prefix" | "suffix" | "comma-suffix" | "alias" => {
                Ok(Vec::new(alloc))
            }
            _ => no_part(alloc, of, name),
        }
    }
}

impl HasParts for PersonsWithRoles {
    ghost use Rattle.haya_json.specs.LostParts.{roles_part};

    ghost part = { roles_part };

    fn part_lost(
        alloc: Global,
        of: &str,
        name: &str,
        json: &Value<'_>,
    ) -> Result<Vec<Lost>, OutOfMemory> {
        match name {
            "names" => many_lost::<Person>(alloc, of, json),
            "role" => Ok(Vec::new(alloc)),
            _ => no_part(alloc, of, name),
        }
    }
}

impl HasParts for Date {
    ghost use Rattle.haya_json.specs.LostParts.{date_part};

    ghost part = { date_part };

    fn part_lost(
        alloc: Global,
        of: &str,
        name: &str,
        _json: &Value<'_>,
    ) -> Result<Vec<Lost>, OutOfMemory> {
        match name {
            "year" | "month" | "day" | "approximate" | "season" => Ok(Vec::new(alloc)),
            _ => no_part(alloc, of, name),
        }
    }
}

impl HasParts for Publisher {
    ghost use Rattle.haya_json.specs.LostParts.{publisher_part};

    ghost part = { publisher_part };

    fn part_lost(
        alloc: Global,
        of: &str,
        name: &str,
        json: &Value<'_>,
    ) -> Result<Vec<Lost>, OutOfMemory> {
        match name {
            "name" | "location" => parts_lost::<FormatString>(alloc, of, json),
            _ => no_part(alloc, of, name),
        }
    }
}

impl HasParts for QualifiedUrl {
    ghost use Rattle.haya_json.specs.LostParts.{url_part};

    ghost part = { url_part };

    fn part_lost(
        alloc: Global,
        of: &str,
        name: &str,
        json: &Value<'_>,
    ) -> Result<Vec<Lost>, OutOfMemory> {
        match name {
            "date" => parts_lost::<Date>(alloc, of, json),
            "value" => Ok(Vec::new(alloc)),
            _ => no_part(alloc, of, name),
        }
    }
}

impl HasParts for MaybeTyped<DurationRange> {
    ghost use Rattle.haya_json.specs.LostParts.{range_part};

    ghost part = { range_part };

    fn part_lost(
        alloc: Global,
        of: &str,
        name: &str,
        _json: &Value<'_>,
    ) -> Result<Vec<Lost>, OutOfMemory> {
        match name {
            "start" | "end" => Ok(Vec::new(alloc)),
            _ => no_part(alloc, of, name),
        }
    }
}
