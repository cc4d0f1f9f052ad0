//! The entry of lines.
ghost use Rattle.std.specs.Prelude.{◌≡◌, IfErr, IfOk, None, OnOk, Some, length};
ghost use Rattle.std.specs.Str.Lines.{lines};
ghost use Rattle.haya_entry.specs.Tree.{view};
ghost use Rattle.haya_line_library.specs.Chain.{LastOf, TakesLine};
ghost use Rattle.haya_line_library.specs.Input.{rows_read};
ghost use Rattle.haya_line_library.specs.Opened.{Opened};
ghost use Rattle.haya_line_library.specs.TextReading.{FaultInLine, FaultInText};
ghost use Rattle.haya_line_slices.specs.EntryLines.{IsEntryOf};

use haya_entry::Entry;
use haya_line_library::{InputError, OpenEntries};
use std::alloc::Global;

/// The entry that lines list, with its parents. A fault is that of the first line that has one, by
/// its number from 1 on, or out of memory. Lines that list none, or one behind another, which a part
/// of a text never does, are told as out of memory.
pub fn read_entry_lines(alloc: Global, part: &str) -> Result<Entry, InputError>
    ensures says { IfOk result (λ entry. IsEntryOf part.now (view entry)) }
    ensures fault { IfErr result (FaultInText (rows_read 1 0 (lines part.now))) }
{
    let mut entries = OpenEntries::new(alloc);
    let mut number = 0;
    'rows: for line in part.lines() {
        number += 1;
        take_more(alloc, &mut entries, line, number)?;
    }
    take_last(&mut entries)
}

// Takes a line that closes no entry.
fn take_more(
    alloc: Global,
    entries: &mut OpenEntries,
    line: &str,
    number: usize,
) -> Result<(), InputError>
    ensures taken { OnOk result (TakesLine line.now entries.old.chain entries.new) }
    ensures none { OnOk result (entries.new.closed ≡ None) }
    ensures fault { IfErr result (FaultInLine number (length entries.old.chain) line.now) }
{
    entries.take_line(alloc, line, number)?;
    match entries.closed() {
        Some(_) => Err(InputError::OutOfMemory),
        None => Ok(()),
    }
}

// The entry that the end closes.
fn take_last(entries: &mut OpenEntries) -> Result<Entry, InputError>
    ensures error { IfErr result (λ e. e ≡ InputError.OutOfMemory) }
    ensures closed { IfOk result (λ entry. (now : Opened) × LastOf entries.old.chain now
        × (now.closed ≡ Some (view entry))) }
{
    entries.end()?;
    match entries.take_closed() {
        Some(entry) => Ok(entry),
        None => Err(InputError::OutOfMemory),
    }
}
