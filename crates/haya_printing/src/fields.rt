//! The fields of an entry as items of a line.
ghost use Rattle.std.specs.Prelude.{◌≡◌, option_map, OnOk};
ghost use Rattle.haya_entry.specs.Tree.{fields, view};
ghost use Rattle.haya_text.specs.Texts.{text_view};
ghost use Rattle.haya_printing.specs.Printed.{last_items, number_items, people_items};
ghost use Rattle.haya_printing.specs.Printed.{publisher_name, text_items};
ghost use Rattle.haya_printing.specs.Pushed.{Pushes};

use crate::items::{also, also_each, also_text};
use crate::texts::also_roles;
use haya_entry::Entry;
use haya_text::{FormatString, OutOfMemory};
use std::alloc::Global;

/// The texts that are set.
pub(crate) fn push_texts(alloc: Global, line: &mut String, entry: &Entry) -> Result<(), OutOfMemory>
    ensures { OnOk result (Pushes line.old line.new (text_items (fields (view entry.now)))) }
{
    also(alloc, line, "title", entry.title())?;
    also(alloc, line, "location", entry.location())?;
    also(alloc, line, "organization", entry.organization())?;
    also(alloc, line, "archive", entry.archive())?;
    also(alloc, line, "archive-location", entry.archive_location())?;
    also(alloc, line, "call-number", entry.call_number())?;
    also(alloc, line, "note", entry.note())?;
    also(alloc, line, "abstract", entry.abstract_())?;
    also(alloc, line, "genre", entry.genre())?;
    Ok(())
}

/// The people, the date, the publisher and the address that are set.
pub(crate) fn push_people(
    alloc: Global,
    line: &mut String,
    entry: &Entry,
) -> Result<(), OutOfMemory>
    ensures { OnOk result (Pushes line.old line.new (people_items (fields (view entry.now)))) }
{
    also_each(alloc, line, "author", entry.authors())?;
    also_each(alloc, line, "editor", entry.editors())?;
    also_roles(alloc, line, entry.affiliated())?;
    also(alloc, line, "date", entry.date())?;
    also(alloc, line, "publisher", publisher_name(entry))?;
    also(alloc, line, "url", entry.url())?;
    Ok(())
}

/// The name of the publisher.
pub(crate) fn publisher_name(entry: &Entry) -> Option<&FormatString>
    ensures { option_map (λ t. text_view t.now) result
        ≡ publisher_name (fields (view entry.now)).publisher }
{
    entry.publisher()?.name()
}

/// The numbers and times that are set.
pub(crate) fn push_numbers(
    alloc: Global,
    line: &mut String,
    entry: &Entry,
) -> Result<(), OutOfMemory>
    ensures { OnOk result (Pushes line.old line.new (number_items (fields (view entry.now)))) }
{
    also(alloc, line, "issue", entry.issue())?;
    also(alloc, line, "chapter", entry.chapter())?;
    also(alloc, line, "volume", entry.volume())?;
    also(alloc, line, "edition", entry.edition())?;
    also(alloc, line, "volume-total", entry.volume_total())?;
    also(alloc, line, "page-total", entry.page_total())?;
    also(alloc, line, "page-range", entry.page_range())?;
    also(alloc, line, "time-range", entry.time_range())?;
    also(alloc, line, "runtime", entry.runtime())?;
    Ok(())
}

/// The serial numbers that a line has names for, and the language, where they are set.
pub(crate) fn push_last(line: &mut String, entry: &Entry) -> Result<(), OutOfMemory>
    ensures { OnOk result (Pushes line.old line.new (last_items (fields (view entry.now)))) }
{
    also_text(line, "serial-number", entry.keyed_serial_number("serial"))?;
    also_text(line, "doi", entry.doi())?;
    also_text(line, "isbn", entry.isbn())?;
    also_text(line, "issn", entry.issn())?;
    also_text(line, "pmid", entry.pmid())?;
    also_text(line, "pmcid", entry.pmcid())?;
    also_text(line, "arxiv", entry.arxiv())?;
    also_text(line, "language", entry.language())?;
    Ok(())
}
