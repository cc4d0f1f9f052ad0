//! The caller of `crates/haya_text/CALLING.md`.
ghost use Rattle.std.specs.Prelude.{◌≡◌, List, IfErr, IfOk, string_bytes};
ghost use Rattle.haya_text.specs.Chunks.{Chunk};
ghost use Rattle.haya_text.specs.Grammar.{ReadsAs};
ghost use Rattle.haya_text.specs.Printing.{to_serialized};
ghost use Rattle.haya_text.specs.Reading.{IsRefusal};

use haya_text::{ChunkedReadError, ChunkedString, ReadText};
use std::alloc::Global;

/// The same text as it is to be kept: what two texts that read alike have in common.
pub fn kept_text(alloc: Global, text: &str) -> Result<String, ChunkedReadError>
    ensures kept { IfOk result (λ s. (cs : List Chunk)
        × ReadsAs text.now cs × (string_bytes s ≡ to_serialized cs)) }
    ensures refused { IfErr result (IsRefusal text.now) }
{
    let read = ChunkedString::from_str(alloc, text)?;
    Ok(read.to_serialized(alloc)?)
}
