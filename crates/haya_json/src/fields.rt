//! The fields of an entry, by their names.
ghost use Rattle.std.specs.Prelude.{◌≡◌, ◌∷◌, [], map, option_map, IfOk, IsErr};
ghost use Rattle.json.specs.Value.{value_view};
ghost use Rattle.haya_entry.specs.Tree.{view};
ghost use Rattle.haya_json.specs.Fields.{none_lost, read_into, serial_setter, with_field};
ghost use Rattle.haya_json.specs.Fields.{with_number_field, with_text_field};
ghost use Rattle.haya_json.specs.LostParts.{many_lost, parts_lost};
ghost use Rattle.haya_json.specs.Notes.{lost_of, losts_view};
ghost use Rattle.haya_json.specs.Parts.{one_or_many};
ghost use Rattle.haya_json.specs.Readings.{entry_view, field_view};
ghost use Rattle.haya_json.specs.Refusal.{refusal_of};

use crate::fault::{ValueError, Why};
use crate::from_json::FromJson;
use crate::lost_parts::{HasParts, many_lost, parts_lost};
use crate::losts::{only_named, only_refused, only_unread};
use crate::notes::Lost;
use haya_entry::{Entry, SerialNumber};
use haya_text::OutOfMemory;
use json::Value;
use std::alloc::Global;

/// Sets the field with this name to what the value reads as, and answers what is lost of the value.
/// One that isn't read is lost and sets nothing, and so is that of a name that no field has.
#[tactic(auto, unfolding(crate::specs::Values::persons_of, crate::specs::Values::affiliated_of))]
pub(crate) fn set_field(
    alloc: Global,
    entry: &mut Entry,
    name: &str,
    json: &Value<'_>,
) -> Result<Vec<Lost>, OutOfMemory>
    ensures { IfOk result (λ lost. with_field name.now (value_view json.now) (view entry.old)
        ≡ entry_view entry.new lost.items) }
{
    match name {
        "author" => read_people(alloc, &mut entry.authors, name, json),
        "editor" => read_people(alloc, &mut entry.editors, name, json),
        "affiliated" => read_people(alloc, &mut entry.affiliated, name, json),
        "date" => read_parts(alloc, &mut entry.date, name, json),
        "publisher" => read_parts(alloc, &mut entry.publisher, name, json),
        "url" => read_parts(alloc, &mut entry.url, name, json),
        "language" => read_plain(alloc, &mut entry.language, json),
        _ => set_text_field(alloc, entry, name, json),
    }
}

// The same of a text, a number, a time or serial numbers.
fn set_text_field(
    alloc: Global,
    entry: &mut Entry,
    name: &str,
    json: &Value<'_>,
) -> Result<Vec<Lost>, OutOfMemory>
    ensures { IfOk result (λ lost. with_text_field name.now (value_view json.now) (view entry.old)
        ≡ entry_view entry.new lost.items) }
{
    match name {
        "title" => read_parts(alloc, &mut entry.title, name, json),
        "location" => read_parts(alloc, &mut entry.location, name, json),
        "organization" => read_parts(alloc, &mut entry.organization, name, json),
        "archive" => read_parts(alloc, &mut entry.archive, name, json),
        "archive-location" => read_parts(alloc, &mut entry.archive_location, name, json),
        "call-number" => read_parts(alloc, &mut entry.call_number, name, json),
        "note" => read_parts(alloc, &mut entry.note, name, json),
        "abstract" => read_parts(alloc, &mut entry.abstract_, name, json),
        "genre" => read_parts(alloc, &mut entry.genre, name, json),
        _ => set_number_field(alloc, entry, name, json),
    }
}

// The same of a number, a time or serial numbers.
fn set_number_field(
    alloc: Global,
    entry: &mut Entry,
    name: &str,
    json: &Value<'_>,
) -> Result<Vec<Lost>, OutOfMemory>
    ensures { IfOk result (λ lost.
        with_number_field name.now (value_view json.now) (view entry.old)
        ≡ entry_view entry.new lost.items) }
{
    match name {
        "issue" => read_plain(alloc, &mut entry.issue, json),
        "chapter" => read_plain(alloc, &mut entry.chapter, json),
        "volume" => read_plain(alloc, &mut entry.volume, json),
        "edition" => read_plain(alloc, &mut entry.edition, json),
        "volume-total" => read_plain(alloc, &mut entry.volume_total, json),
        "page-total" => read_plain(alloc, &mut entry.page_total, json),
        "page-range" => read_plain(alloc, &mut entry.page_range, json),
        "time-range" => read_parts(alloc, &mut entry.time_range, name, json),
        "runtime" => read_plain(alloc, &mut entry.runtime, json),
        "serial-number" | "serial" => set_serials(alloc, entry, json),
        _ => only_named(alloc, name),
    }
}

// Puts what the value reads as into a field, in the place of what was there, and answers what is
// lost: a value that isn't read.
fn read_plain<T: FromJson + Drop>(
    alloc: Global,
    field: &mut Option<T>,
    json: &Value<'_>,
) -> Result<Vec<Lost>, OutOfMemory>
    ensures { IfOk result (λ lost.
        read_into (T.reads (value_view json.now)) (none_lost (value_view json.now))
        (option_map T.view field.old) ≡ field_view T.view field.new lost.items) }
{
    match T::from_json(alloc, json) {
        Ok(value) => {
            *field = Some(value);
            Ok(Vec::new(alloc))
        }
        Err(fault) => lost_by(alloc, fault, json),
    }
}

// The same of a value that an object may say by its parts, in the field that is called so.
fn read_parts<T: FromJson + HasParts + Drop>(
    alloc: Global,
    field: &mut Option<T>,
    of: &str,
    json: &Value<'_>,
) -> Result<Vec<Lost>, OutOfMemory>
    ensures { IfOk result (λ lost.
        read_into (T.reads (value_view json.now))
        (parts_lost T.part of.now (value_view json.now))
        (option_map T.view field.old) ≡ field_view T.view field.new lost.items) }
{
    match T::from_json(alloc, json) {
        Ok(value) => {
            let lost = parts_lost::<T>(alloc, of, json)?;
            *field = Some(value);
            Ok(lost)
        }
        Err(fault) => lost_by(alloc, fault, json),
    }
}

// The same of one value, or of many.
fn read_people<T: FromJson + HasParts + Drop>(
    alloc: Global,
    field: &mut Option<Vec<T>>,
    of: &str,
    json: &Value<'_>,
) -> Result<Vec<Lost>, OutOfMemory>
    ensures { IfOk result (λ lost.
        read_into (one_or_many T.reads (value_view json.now))
        (many_lost T.part of.now (value_view json.now))
        (option_map (λ v. map T.view v.items) field.old)
        ≡ field_view (λ v. map T.view v.items) field.new lost.items) }
{
    match Vec::<T>::from_json(alloc, json) {
        Ok(values) => {
            let lost = many_lost::<T>(alloc, of, json)?;
            *field = Some(values);
            Ok(lost)
        }
        Err(fault) => lost_by(alloc, fault, json),
    }
}

// What a fault says of a value is lost of it.
fn lost_by(alloc: Global, fault: ValueError, json: &Value<'_>) -> Result<Vec<Lost>, OutOfMemory>
    ensures lost { IfOk result (λ lost. losts_view lost.items ≡ lost_of (refusal_of fault) ∷ []) }
    ensures memory { fault ≡ ValueError.OutOfMemory → IsErr result }
{
    match fault {
        ValueError::Refused(path, why) => only_refused(alloc, path, why, json),
        ValueError::OutOfMemory => Err(OutOfMemory),
    }
}

// The serial numbers, which have two names and are set once.
fn set_serials(alloc: Global, entry: &mut Entry, json: &Value<'_>) -> Result<Vec<Lost>, OutOfMemory>
    ensures { IfOk result (λ lost. serial_setter (value_view json.now) (view entry.old)
        ≡ entry_view entry.new lost.items) }
{
    if entry.serial_number().is_some() {
        return only_unread(alloc, Why::Twice, json);
    }
    match SerialNumber::from_json(alloc, json) {
        Ok(serials) => {
            entry.set_serial_number(serials);
            Ok(Vec::new(alloc))
        }
        Err(fault) => lost_by(alloc, fault, json),
    }
}
