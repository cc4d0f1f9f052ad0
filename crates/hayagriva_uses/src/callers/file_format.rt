//! The caller of `crates/haya_json/CALLING.md`.
ghost use Rattle.std.specs.Prelude.{◌≡◌, IfOk, List, ℕ};
ghost use Rattle.json.specs.Layout.{pretty};
ghost use Rattle.json.specs.Tree.{json_tokens};
ghost use Rattle.haya_entry.specs.Tree.{Tree};
ghost use Rattle.haya_json.specs.Libraries.{Describes};
ghost use Rattle.haya_json.specs.Printed.{library_json};

use haya_json::{ReadError, read_library, to_json_pretty};
use std::alloc::Global;

/// A library's text in the form that is printed, whichever shapes its values have.
pub fn in_one_form(alloc: Global, text: &str) -> Result<Vec<u8>, ReadError>
    ensures { IfOk result (λ bytes. (library : List Tree) × Describes text.now library
        × (bytes.items ≡ pretty (json_tokens (library_json library)))) }
{
    let (library, notes) = read_library(alloc, text)?;
    drop(notes);
    match to_json_pretty(alloc, &library) {
        Ok(bytes) => Ok(bytes),
        Err(_) => Err(ReadError::OutOfMemory),
    }
}
