//! What is told of inputs.
ghost use Rattle.std.specs.Prelude.{◌≡◌, IfOk, string_bytes};
ghost use Rattle.haya_json.specs.Notes.{notes_view};

use crate::notes::push_notes;
use haya_json::Notes;
use haya_text::OutOfMemory;
use std::alloc::Global;

/// What is told of the input that is called so.
#[derive(Debug, Drop)]
pub struct InputNotes {
    /// The input's name.
    pub name: String,
    /// What is told of it.
    pub notes: Notes,
}

impl InputNotes {
    /// What is told of the input that is called so.
    pub fn new(alloc: Global, name: &str, notes: Notes) -> Result<InputNotes, OutOfMemory>
        ensures name { IfOk result (λ told. string_bytes told.name ≡ name.now) }
        ensures notes { IfOk result (λ told. notes_view told.notes ≡ notes_view notes) }
    {
        match String::from_str(alloc, name) {
            Ok(name) => Ok(InputNotes { name, notes }),
            Err(_) => {
                drop(notes);
                Err(OutOfMemory)
            }
        }
    }
}

/// The lines of what is told of these inputs, none where nothing is.
pub fn told_text(alloc: Global, told: &[InputNotes]) -> Result<String, OutOfMemory> {
    let mut text = String::new(alloc);
    for input in told {
        push_notes(alloc, &mut text, input.name.as_str(), &input.notes)?;
    }
    Ok(text)
}
