//! A library from its text: a line an entry, and behind it its parents, one level deeper.
ghost use Rattle.std.specs.Prelude.{◌≡◌, ◌++◌, IfErr, IfOk, IsOkUnless, OnOk, fold};
ghost use Rattle.std.specs.Prelude.{option_to_list};
ghost use Rattle.std.specs.Str.Lines.{lines};
ghost use Rattle.hayagriva.specs.Library.{push};
ghost use Rattle.haya_line_library.specs.declared.error.InputError.TheVariants.{OutOfMemory};
ghost use Rattle.haya_line_library.specs.Input.{rows_read, Describes};
ghost use Rattle.haya_line_library.specs.Repeats.{DescribesAgain, again_at, repeats_view};
ghost use Rattle.haya_line_library.specs.TextReading.{FaultInText};

use crate::error::InputError;
use crate::open_entries::OpenEntries;
use crate::repeat::Repeat;
use hayagriva::{HashKeys, Library};
use std::alloc::Global;

/// The library that the text describes. Its map hashes with the keys. A fault is that of the first
/// line that has one, or out of memory.
pub fn read_library(alloc: Global, keys: HashKeys, text: &str) -> Result<Library, InputError>
    ensures ok { IfOk result (λ library. Describes text.now library) }
    ensures fault { IfErr result (FaultInText (rows_read 1 0 (lines text.now))) }
{
    let mut library = Library::with_hash_keys(alloc, keys);
    let mut entries = OpenEntries::new(alloc);
    let mut number = 0;
    'rows: for line in text.lines() {
        number += 1;
        entries.take_line(alloc, line, number)?;
        insert_closed(&mut library, &mut entries)?;
    }
    entries.end()?;
    insert_closed(&mut library, &mut entries)?;
    Ok(library)
}

/// The same library, and the keys that come again in it: one for each entry whose key an earlier
/// one has, in the order of the lines.
pub fn read_library_with_repeats(
    alloc: Global,
    keys: HashKeys,
    text: &str,
) -> Result<(Library, Vec<Repeat>), InputError>
    ensures ok { IfOk result (λ p. DescribesAgain text.now p.0 (repeats_view p.1)) }
    ensures fault { IfErr result (FaultInText (rows_read 1 0 (lines text.now))) }
{
    let mut library = Library::with_hash_keys(alloc, keys);
    let mut entries = OpenEntries::new(alloc);
    let mut repeats = Vec::new(alloc);
    let mut number = 0;
    'rows: for line in text.lines() {
        number += 1;
        entries.take_line(alloc, line, number)?;
        insert_closed(&mut library, &mut entries)?;
        put_repeat(alloc, line, number, &library, &entries, &mut repeats)?;
    }
    entries.end()?;
    insert_closed(&mut library, &mut entries)?;
    Ok((library, repeats))
}

// Where the line with this number began an entry of the library, and one with its key is there
// already, puts the key behind the others.
fn put_repeat(
    alloc: Global,
    line: &str,
    number: usize,
    library: &Library,
    entries: &OpenEntries,
    repeats: &mut Vec<Repeat>,
) -> Result<(), InputError>
    ensures error { IsOkUnless result OutOfMemory }
    ensures put { OnOk result (repeats_view repeats.new
        ≡ repeats_view repeats.old ++ again_at line.now number library.now entries.now.chain) }
{
    if line.is_empty() {
        return Ok(());
    }
    let Some(entry) = entries.begun() else {
        return Ok(());
    };
    if library.get(entry.key()).is_some() {
        let key = String::from_str(alloc, entry.key())?;
        repeats.push(Repeat { key, line: number })?;
    }
    Ok(())
}

// Puts the entry that was closed into the library, if there is one.
fn insert_closed(library: &mut Library, entries: &mut OpenEntries) -> Result<(), InputError>
    ensures error { IsOkUnless result OutOfMemory }
    ensures library { OnOk result (library.new ≡
        fold (λ done t. push t done) library.old (option_to_list entries.old.closed)) }
    ensures chain { entries.new.chain ≡ entries.old.chain }
{
    if let Some(entry) = entries.take_closed() {
        library.insert(entry)?;
    }
    Ok(())
}
