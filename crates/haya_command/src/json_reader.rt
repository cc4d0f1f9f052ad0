//! An entry from each line of JSON.
use haya_entry_stream::EntryReader;
use haya_json::{Notes, ReadError, read_entry_line};
use hayagriva::{Entry, HashKeys};
use json::Scratch;
use std::alloc::Global;

/// Reads the entry that a line of JSON says, and notes what is lost of it.
#[derive(Drop)]
pub(crate) struct JsonReader {
    alloc: Global,
    // What a line is read in.
    scratch: Scratch,
    /// What is told of the lines that were read.
    pub(crate) notes: Notes,
}

impl JsonReader {
    ghost use Rattle.std.specs.Prelude.{◌≡◌};
    ghost use Rattle.haya_json.specs.Notes.{none_kept, notes_view};

    /// One that has read no line. Its map hashes with the keys.
    pub(crate) fn new(alloc: Global, keys: HashKeys) -> JsonReader
        ensures { notes_view result.notes ≡ none_kept }
    {
        JsonReader {
            alloc,
            scratch: Scratch::new(alloc),
            notes: Notes::with_hash_keys(alloc, keys),
        }
    }
}

impl EntryReader for JsonReader {
    ghost use Rattle.std.specs.Prelude.{◌≡◌, ◌≢◌};
    ghost use Rattle.haya_json.specs.JsonLines.{IsJsonLineErrorOf};
    ghost use Rattle.haya_json.specs.Notes.{notes_view};
    ghost use Rattle.haya_json.specs.declared.error.ReadError.TheVariants.{OutOfMemory};
    ghost use Rattle.haya_command.specs.AskedLines.{ReadsLine};
    ghost use Rattle.haya_formats.specs.declared.format.Format.TheVariants.{JsonLines};

    type Error = ReadError;

    ghost says = { λ r line entry t.
        ReadsLine JsonLines (notes_view r.notes) line entry (notes_view t.notes) };

    ghost refuses = { λ _ line e. IsJsonLineErrorOf line e };

    ghost leaves = { λ r _ e t. e ≢ OutOfMemory → notes_view t.notes ≡ notes_view r.notes };

    fn read(&mut self, line: &str) -> Result<Entry, ReadError> {
        read_entry_line(self.alloc, line, &mut self.scratch, &mut self.notes)
    }
}
