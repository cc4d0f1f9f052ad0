//! Whether a library is read back from what is printed of it.
ghost use Rattle.std.specs.Prelude.{◌≡◌, ◌≢◌, ◌↔◌, ◌∷◌, List, IsTrue, IfOk};
ghost use Rattle.std.specs.Bool.{OnFalse, OnTrue};
ghost use Rattle.haya_entry.specs.Tree.{Tree, view};
ghost use Rattle.haya_json.specs.Libraries.{Describes};
ghost use Rattle.haya_json.specs.ReadBack.{ReadsBack};

use crate::error::ReadError;
use crate::libraries::read_library;
use crate::writing::to_json;
use haya_entry::Entry;
use haya_text::OutOfMemory;
use hayagriva::{Entries, Library};
use std::alloc::Global;

/// Whether `read_library` reads what `to_json` prints of the library as the library: it prints,
/// reads and compares. The only error is out of memory.
///
/// A library that `read_library` gave is read back where its JSON nests no deeper than 128 (the law
/// `read_libraries_read_back`). One that is made by hand isn't where a text has an empty chunk,
/// say, or a role has no name.
pub fn reads_back(alloc: Global, library: &Library) -> Result<bool, OutOfMemory>
    ensures { IfOk result (λ back. IsTrue back ↔ ReadsBack library.now) }
{
    let bytes = to_json(alloc, library)?;
    match std::str::from_utf8(bytes.as_slice()) {
        Ok(text) => describes(alloc, text, library),
        Err(_) => Ok(false),
    }
}

// Whether the text describes the library.
fn describes(alloc: Global, text: &str, library: &Library) -> Result<bool, OutOfMemory>
    ensures { IfOk result (λ says. IsTrue says ↔ Describes text.now library.now) }
{
    match read_library(alloc, text) {
        Ok((read, _notes)) => Ok(is_same(&read, library)),
        Err(ReadError::OutOfMemory) => Err(OutOfMemory),
        Err(_) => Ok(false),
    }
}

// Whether two libraries have equal entries in the same order.
fn is_same(one: &Library, other: &Library) -> bool
    ensures { IsTrue result ↔ (one.now ≡ other.now) }
{
    let mut others = other.iter();
    'entries: for entry in one.iter() {
        if !takes(&mut others, entry) {
            return false;
        }
    }
    others.next().is_none()
}

// Whether the next of the entries is this one; takes it.
fn takes(entries: &mut Entries<'_>, entry: &Entry) -> bool
    ensures found { OnTrue result (entries.old ≡ view entry.now ∷ entries.new) }
    ensures other { OnFalse result
        ((rest : List Tree) → entries.old ≢ view entry.now ∷ rest) }
{
    match entries.next() {
        Some(next) => is_equal(next, entry),
        None => false,
    }
}

fn is_equal(one: &Entry, other: &Entry) -> bool
    ensures { IsTrue result ↔ (view one.now ≡ view other.now) }
{
    one == other
}
