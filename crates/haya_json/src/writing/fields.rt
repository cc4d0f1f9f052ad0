//! The fields of an entry as members.
ghost use Rattle.std.specs.Prelude.{OnOk};
ghost use Rattle.haya_entry.specs.Tree.{fields, view};
ghost use Rattle.haya_json.specs.Printed.{last_members, number_members, people_members};
ghost use Rattle.haya_json.specs.Printed.{text_members};
ghost use Rattle.haya_json.specs.Writing.{KeepsBefore, WritesMembers};

use crate::members::{also, also_many, also_text};
use haya_entry::Entry;
use haya_text::OutOfMemory;
use json::Writer;
use std::alloc::Global;

/// The texts that are set.
pub(super) fn write_texts(alloc: Global, out: &mut Writer, entry: &Entry) -> Result<(), OutOfMemory>
    ensures members { OnOk result
        (WritesMembers out.old out.new (text_members (fields (view entry.now)))) }
    ensures before { OnOk result (KeepsBefore out.old out.new) }
{
    also(alloc, out, "title", entry.title())?;
    also(alloc, out, "location", entry.location())?;
    also(alloc, out, "organization", entry.organization())?;
    also(alloc, out, "archive", entry.archive())?;
    also(alloc, out, "archive-location", entry.archive_location())?;
    also(alloc, out, "call-number", entry.call_number())?;
    also(alloc, out, "note", entry.note())?;
    also(alloc, out, "abstract", entry.abstract_())?;
    also(alloc, out, "genre", entry.genre())?;
    Ok(())
}

/// The people, the date, the publisher and the address that are set.
pub(super) fn write_people(
    alloc: Global,
    out: &mut Writer,
    entry: &Entry,
) -> Result<(), OutOfMemory>
    ensures members { OnOk result
        (WritesMembers out.old out.new (people_members (fields (view entry.now)))) }
    ensures before { OnOk result (KeepsBefore out.old out.new) }
{
    also_many(alloc, out, "author", entry.authors())?;
    also_many(alloc, out, "editor", entry.editors())?;
    also_many(alloc, out, "affiliated", entry.affiliated())?;
    also(alloc, out, "date", entry.date())?;
    also(alloc, out, "publisher", entry.publisher())?;
    also(alloc, out, "url", entry.url())?;
    Ok(())
}

/// The numbers and times that are set.
pub(super) fn write_numbers(
    alloc: Global,
    out: &mut Writer,
    entry: &Entry,
) -> Result<(), OutOfMemory>
    ensures members { OnOk result
        (WritesMembers out.old out.new (number_members (fields (view entry.now)))) }
    ensures before { OnOk result (KeepsBefore out.old out.new) }
{
    also(alloc, out, "issue", entry.issue())?;
    also(alloc, out, "chapter", entry.chapter())?;
    also(alloc, out, "volume", entry.volume())?;
    also(alloc, out, "edition", entry.edition())?;
    also(alloc, out, "volume-total", entry.volume_total())?;
    also(alloc, out, "page-total", entry.page_total())?;
    also(alloc, out, "page-range", entry.page_range())?;
    also(alloc, out, "time-range", entry.time_range())?;
    also(alloc, out, "runtime", entry.runtime())?;
    Ok(())
}

/// The serial numbers and the language, where they are set.
pub(super) fn write_last(alloc: Global, out: &mut Writer, entry: &Entry) -> Result<(), OutOfMemory>
    ensures members { OnOk result
        (WritesMembers out.old out.new (last_members (fields (view entry.now)))) }
    ensures before { OnOk result (KeepsBefore out.old out.new) }
{
    also(alloc, out, "serial-number", entry.serial_number())?;
    also_text(out, "language", entry.language())?;
    Ok(())
}
