//! The caller of `crates/haya_line_library/CALLING.md`.
ghost use Rattle.std.specs.Prelude.{◌≡◌, IfOk, List, length};
ghost use Rattle.haya_entry.specs.Tree.{Tree};
ghost use Rattle.haya_line_library.specs.Input.{Describes};

use haya_line_library::{InputError, read_library};
use hayagriva::HashKeys;
use std::alloc::Global;

/// How many entries the library of a text in lines has. Keys that are made to collide cost no more
/// than others where nobody knows the hash keys.
pub fn entry_count(alloc: Global, keys: HashKeys, text: &str) -> Result<usize, InputError>
    ensures { IfOk result (λ n. (library : List Tree) × Describes text.now library
        × (n ≡ length library)) }
{
    let library = read_library(alloc, keys, text)?;
    Ok(library.len())
}
