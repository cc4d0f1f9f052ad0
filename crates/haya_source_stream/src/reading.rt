//! The entry that an element says.
ghost use Rattle.std.specs.Prelude.{◌≡◌, ◌⊎◌, ◌+◌, ◌<◌, ◌≤◌, ◌^◌, IfErr, IfOk, OnOk, length};
ghost use Rattle.std.specs.Str.Lines.{lines};
ghost use Rattle.hayagriva.specs.Tree.{view};
ghost use Rattle.haya_json.specs.Notes.{all_kept, notes_view};
ghost use Rattle.haya_source_stream.specs.Parts.{IsOutOfMemory, IsPartError, PartSays, count_of, part_told};

use crate::error::PartError;
use crate::kind::StreamedKind;
use haya_csl::{ItemKey, read_item_line};
use haya_json::{ElementError, JsonLineError, Notes, read_entry_line, read_member_line};
use haya_line_library::InputError;
use haya_line_slices::read_entry_lines;
use hayagriva::Entry;
use json::Scratch;
use std::alloc::Global;

/// How many are counted for a part, as faults have their number: one, or of entries in lines as many
/// as it has.
pub(crate) fn count_of(kind: StreamedKind, part: &str) -> usize
    ensures count { result ≡ count_of kind part.now }
    ensures some { 1 ≤ result }
{
    match kind {
        StreamedKind::Lines => line_count(part).max(1),
        StreamedKind::Items(_) | StreamedKind::Members | StreamedKind::JsonLines => 1,
    }
}

// How many lines a part has.
fn line_count(part: &str) -> usize
    ensures { result ≡ length (lines part.now) }
{
    let mut count = 0;
    'lines: for _ in part.lines() {
        count += 1;
    }
    count
}

/// The entry that a part of this kind says, behind those of which so many are counted. What is lost
/// of it is noted.
pub(crate) fn read_part(
    alloc: Global,
    kind: StreamedKind,
    place: usize,
    part: &str,
    scratch: &mut Scratch,
    notes: &mut Notes,
) -> Result<Entry, PartError>
    requires { place + 1 < 2 ^ 64 }
    ensures says { IfOk result (λ entry. PartSays kind part.now (view entry)) }
    ensures notes { OnOk result (notes_view notes.new
        ≡ all_kept (part_told kind part.now) (notes_view notes.old)) }
    ensures error { IfErr result (IsPartError kind place part.now) }
    ensures kept { IfErr result
        (λ e. IsOutOfMemory e ⊎ (notes_view notes.new ≡ notes_view notes.old)) }
{
    match kind {
        StreamedKind::Items(by) => read_item(alloc, by, place, part, scratch, notes),
        StreamedKind::Members => read_member(alloc, place, part, scratch, notes),
        StreamedKind::JsonLines => read_line(alloc, place, part, scratch, notes),
        StreamedKind::Lines => read_lines(alloc, place, part),
    }
}

// The same of an item.
fn read_item(
    alloc: Global,
    by: ItemKey,
    place: usize,
    part: &str,
    scratch: &mut Scratch,
    notes: &mut Notes,
) -> Result<Entry, PartError>
    requires { place + 1 < 2 ^ 64 }
    ensures says { IfOk result (λ entry. PartSays (StreamedKind.Items by) part.now (view entry)) }
    ensures notes { OnOk result (notes_view notes.new
        ≡ all_kept (part_told (StreamedKind.Items by) part.now) (notes_view notes.old)) }
    ensures error { IfErr result (IsPartError (StreamedKind.Items by) place part.now) }
    ensures kept { IfErr result
        (λ e. IsOutOfMemory e ⊎ (notes_view notes.new ≡ notes_view notes.old)) }
{
    let number = place + 1;
    match read_item_line(alloc, by, place, part, scratch, notes) {
        Ok(entry) => Ok(entry),
        Err(error) => Err(PartError::Element(ElementError { number, error })),
    }
}

// The same of a member.
fn read_member(
    alloc: Global,
    place: usize,
    part: &str,
    scratch: &mut Scratch,
    notes: &mut Notes,
) -> Result<Entry, PartError>
    requires { place + 1 < 2 ^ 64 }
    ensures says { IfOk result (λ entry. PartSays StreamedKind.Members part.now (view entry)) }
    ensures notes { OnOk result (notes_view notes.new
        ≡ all_kept (part_told StreamedKind.Members part.now) (notes_view notes.old)) }
    ensures error { IfErr result (IsPartError StreamedKind.Members place part.now) }
    ensures kept { IfErr result
        (λ e. IsOutOfMemory e ⊎ (notes_view notes.new ≡ notes_view notes.old)) }
{
    let number = place + 1;
    match read_member_line(alloc, part, scratch, notes) {
        Ok(entry) => Ok(entry),
        Err(error) => Err(PartError::Element(ElementError { number, error })),
    }
}

// The same of a line of JSON.
fn read_line(
    alloc: Global,
    place: usize,
    part: &str,
    scratch: &mut Scratch,
    notes: &mut Notes,
) -> Result<Entry, PartError>
    requires { place + 1 < 2 ^ 64 }
    ensures says { IfOk result (λ entry. PartSays StreamedKind.JsonLines part.now (view entry)) }
    ensures notes { OnOk result (notes_view notes.new
        ≡ all_kept (part_told StreamedKind.JsonLines part.now) (notes_view notes.old)) }
    ensures error { IfErr result (IsPartError StreamedKind.JsonLines place part.now) }
    ensures kept { IfErr result
        (λ e. IsOutOfMemory e ⊎ (notes_view notes.new ≡ notes_view notes.old)) }
{
    let line = place + 1;
    match read_entry_line(alloc, part, scratch, notes) {
        Ok(entry) => Ok(entry),
        Err(error) => Err(PartError::Line(JsonLineError { line, error })),
    }
}

// The entry of lines, of which nothing is lost.
fn read_lines(alloc: Global, place: usize, part: &str) -> Result<Entry, PartError>
    ensures says { IfOk result (λ entry. PartSays StreamedKind.Lines part.now (view entry)) }
    ensures error { IfErr result (IsPartError StreamedKind.Lines place part.now) }
{
    match read_entry_lines(alloc, part) {
        Ok(entry) => Ok(entry),
        Err(InputError::Line(line, error)) => match place.checked_add(line) {
            Some(number) => Err(PartError::Lines(InputError::Line(number, error))),
            None => Err(PartError::OutOfMemory),
        },
        Err(InputError::OutOfMemory) => Err(PartError::OutOfMemory),
    }
}
