//! An entry from each element of a text in JSON: an item of a list, or a member of an object.
ghost use Rattle.std.specs.Prelude.{◌≡◌, ◌+◌, IfErr, IfOk, OnOk};

use haya_csl::{ItemKey, read_item_line};
use haya_entry_stream::EntryReader;
use haya_json::{ElementError, Notes, ReadError, read_member_line};
use hayagriva::{Entry, HashKeys};
use json::Scratch;
use std::alloc::Global;

/// Reads the entry that an item of CSL-JSON says, and notes what is lost of it.
#[derive(Drop)]
pub(crate) struct ItemReader {
    alloc: Global,
    // The member that is the key.
    key: ItemKey,
    // How many items were taken.
    number: usize,
    // What an item is read in.
    scratch: Scratch,
    /// What is told of the items that were read.
    pub(crate) notes: Notes,
}

impl ItemReader {
    ghost use Rattle.std.specs.Prelude.{◌≡◌};
    ghost use Rattle.haya_json.specs.Notes.{none_kept, notes_view};

    /// One that has read no item. Its map hashes with the keys.
    pub(crate) fn new(alloc: Global, keys: HashKeys, key: ItemKey) -> ItemReader
        ensures key { result.key ≡ key }
        ensures number { result.number ≡ 0 }
        ensures notes { notes_view result.notes ≡ none_kept }
    {
        ItemReader {
            alloc,
            key,
            number: 0,
            scratch: Scratch::new(alloc),
            notes: Notes::with_hash_keys(alloc, keys),
        }
    }
}

impl EntryReader for ItemReader {
    ghost use Rattle.std.specs.Prelude.{◌≡◌, ◌≢◌};
    ghost use Rattle.haya_json.specs.Notes.{notes_view};
    ghost use Rattle.haya_json.specs.declared.error.ReadError.TheVariants.{OutOfMemory};
    ghost use Rattle.haya_command.specs.AskedLines.{IsElementError, ReadsElement};
    ghost use Rattle.haya_formats.specs.declared.format.Format.TheVariants.{CslJson};

    type Error = ElementError;

    ghost says = { λ r line entry t. (t.key ≡ r.key)
        × ReadsElement (CslJson r.key) r.number (notes_view r.notes) line entry t.number
        (notes_view t.notes) };

    ghost refuses = { λ r line e. IsElementError (CslJson r.key) r.number line e };

    ghost leaves = { λ r _ e t. e.error ≢ OutOfMemory → notes_view t.notes ≡ notes_view r.notes };

    fn read(&mut self, line: &str) -> Result<Entry, ElementError> {
        let place = self.number;
        let number = counted(&mut self.number)?;
        let (scratch, notes) = (&mut self.scratch, &mut self.notes);
        match read_item_line(self.alloc, self.key, place, line, scratch, notes) {
            Ok(entry) => Ok(entry),
            Err(error) => Err(ElementError { number, error }),
        }
    }
}

/// Reads the entry that a member of hayagriva's format says, and notes what is lost of it.
#[derive(Drop)]
pub(crate) struct MemberReader {
    alloc: Global,
    // How many members were taken.
    number: usize,
    // What a member is read in.
    scratch: Scratch,
    /// What is told of the members that were read.
    pub(crate) notes: Notes,
}

impl MemberReader {
    ghost use Rattle.std.specs.Prelude.{◌≡◌};
    ghost use Rattle.haya_json.specs.Notes.{none_kept, notes_view};

    /// One that has read no member. Its map hashes with the keys.
    pub(crate) fn new(alloc: Global, keys: HashKeys) -> MemberReader
        ensures number { result.number ≡ 0 }
        ensures notes { notes_view result.notes ≡ none_kept }
    {
        MemberReader {
            alloc,
            number: 0,
            scratch: Scratch::new(alloc),
            notes: Notes::with_hash_keys(alloc, keys),
        }
    }
}

impl EntryReader for MemberReader {
    ghost use Rattle.std.specs.Prelude.{◌≡◌, ◌≢◌};
    ghost use Rattle.haya_json.specs.Notes.{notes_view};
    ghost use Rattle.haya_json.specs.declared.error.ReadError.TheVariants.{OutOfMemory};
    ghost use Rattle.haya_command.specs.AskedLines.{IsElementError, ReadsElement};
    ghost use Rattle.haya_formats.specs.declared.format.Format.TheVariants.{Hayagriva};

    type Error = ElementError;

    ghost says = { λ r line entry t. ReadsElement Hayagriva r.number (notes_view r.notes) line entry
        t.number (notes_view t.notes) };

    ghost refuses = { λ r line e. IsElementError Hayagriva r.number line e };

    ghost leaves = { λ r _ e t. e.error ≢ OutOfMemory → notes_view t.notes ≡ notes_view r.notes };

    fn read(&mut self, line: &str) -> Result<Entry, ElementError> {
        let number = counted(&mut self.number)?;
        match read_member_line(self.alloc, line, &mut self.scratch, &mut self.notes) {
            Ok(entry) => Ok(entry),
            Err(error) => Err(ElementError { number, error }),
        }
    }
}

// Counts one element more, and answers its number. More than can be counted are told as out of
// memory.
fn counted(number: &mut usize) -> Result<usize, ElementError>
    ensures number { OnOk result (number.new ≡ number.old + 1) }
    ensures count { IfOk result (λ n. n ≡ number.old + 1) }
    ensures error { IfErr result (λ e. e.error ≡ ReadError.OutOfMemory) }
{
    match number.checked_add(1) {
        Some(next) => {
            *number = next;
            Ok(next)
        }
        None => Err(ElementError {
            number: *number,
            error: ReadError::OutOfMemory,
        }),
    }
}
