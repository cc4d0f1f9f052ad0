//! Libraries.
ghost use Rattle.std.specs.Prelude.{◌≡◌, ◌++◌, string_bytes, IfOk, OnOk};
ghost use Rattle.std.specs.Str.{IsUtf8};
ghost use Rattle.json.specs.Json.{no_members};
ghost use Rattle.json.specs.Lex.{tokens};
ghost use Rattle.json.specs.Print.{print};
ghost use Rattle.json.specs.Tree.{json_tokens, members_tokens};
ghost use Rattle.haya_json.specs.Printed.{library_json, library_members};
ghost use Rattle.haya_json.specs.Writing.{KeepsBefore};

use super::entries::write_entry;
use haya_text::OutOfMemory;
use hayagriva::Library;
use json::Writer;
use std::alloc::Global;

/// The library as JSON in hayagriva's file format, with no white space: the bytes that
/// `read_library` reads.
pub fn to_json(alloc: Global, library: &Library) -> Result<Vec<u8>, OutOfMemory>
    ensures bytes { IfOk result (λ bytes.
        bytes.items ≡ print (json_tokens (library_json library.now))) }
    ensures tokens { IfOk result (λ bytes.
        tokens bytes.items ≡ json_tokens (library_json library.now)) }
    ensures text { IfOk result (λ bytes. IsUtf8 bytes.items) }
{
    let mut out = Writer::new(Vec::new(alloc));
    out.begin_object()?;
    write_entries(alloc, &mut out, library)?;
    out.end_object()?;
    Ok(out.into_inner())
}

// The entries under their keys.
fn write_entries(alloc: Global, out: &mut Writer, library: &Library) -> Result<(), OutOfMemory>
    ensures members { OnOk result (out.new.tokens ++ members_tokens no_members
        ≡ out.old.tokens ++ members_tokens (library_members library.now)) }
    ensures before { OnOk result (KeepsBefore out.old out.new) }
{
    'entries: for entry in library.iter() {
        out.key(entry.key())?;
        write_entry(alloc, out, None, entry)?;
    }
    Ok(())
}
