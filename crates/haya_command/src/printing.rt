//! The hits, printed.
ghost use Rattle.std.specs.Prelude.{◌≡◌, ◌∷◌, ◌++◌, [], IfErr, IfOk, OnOk, List, ℕ, false, map};
ghost use Rattle.std.specs.Prelude.{IsOkUnless, string_bytes, true};
ghost use Rattle.std.specs.Str.{IsUtf8};
ghost use Rattle.json.specs.Layout.{pretty};
ghost use Rattle.json.specs.Lex.{tokens};
ghost use Rattle.json.specs.Print.{print};
ghost use Rattle.json.specs.Tree.{json_tokens, members_tokens};
ghost use Rattle.json.specs.Json.{no_members};
ghost use Rattle.haya_hits.specs.Line.{AreLines, IsEscapedLineOf};
ghost use Rattle.haya_json.specs.Printed.{library_json, library_members};
ghost use Rattle.haya_json.specs.Writing.{KeepsBefore};
ghost use Rattle.hayagriva.specs.Query.{hit_entry};
ghost use Rattle.haya_command.specs.Printed.{IsJsonLineOf, IsLibraryInYaml, IsLinesFault};
ghost use Rattle.haya_command.specs.Printed.{IsPrintedOf};
ghost use Rattle.haya_command.specs.Printed.{IsTextOf, library_bytes, library_text};
ghost use Rattle.haya_command.specs.declared.form.Form.TheVariants.{Lines};
ghost use Rattle.haya_printing.specs.declared.error.LinesError.TheVariants.{OutOfMemory as memory};

use crate::form::Form;
use crate::json_line::push_json_line;
use crate::left::LeftNotes;
use haya_hits::push_escaped_line;
use haya_json::{lay_out, write_entry};
use haya_printing::{LinesError, PrintableLines, entry_lines, printable_lines};
use haya_text::OutOfMemory;
use haya_yaml_library::to_yaml;
use hayagriva::Hit;
use json::Writer;
use std::alloc::Global;

/// The hits in this form, in their order. Lines are of what they can say of an entry, and what
/// they leave out of it is noted. In a strict run they are of the whole entry, and the error is
/// that no line says a value of one. The other error is out of memory.
pub fn hits_text(
    alloc: Global,
    hits: &[Hit],
    form: Form,
    strict: bool,
    left: &mut LeftNotes,
) -> Result<String, LinesError>
    ensures text { IfOk result (λ text. IsTextOf strict form hits.now (string_bytes text)) }
    ensures fault { IfErr result (IsLinesFault strict form (map hit_entry hits.now)) }
{
    match form {
        Form::Keys => Ok(key_lines(alloc, hits)?),
        Form::Lines => entries_lines(alloc, hits, strict, left),
        Form::Hayagriva => Ok(file(alloc, hits)?),
        Form::Yaml => Ok(file_in_yaml(alloc, hits)?),
        Form::JsonLines => Ok(json_lines(alloc, hits)?),
    }
}

// A line a hit, of keys.
fn key_lines(alloc: Global, hits: &[Hit]) -> Result<String, OutOfMemory>
    ensures { IfOk result (λ text. AreLines IsEscapedLineOf hits.now (string_bytes text)) }
{
    let mut text = String::new(alloc);
    'hits: for hit in hits {
        push_escaped_line(alloc, &mut text, hit)?;
    }
    Ok(text)
}

// A line a hit, of JSON.
fn json_lines(alloc: Global, hits: &[Hit]) -> Result<String, OutOfMemory>
    ensures { IfOk result (λ text. AreLines IsJsonLineOf hits.now (string_bytes text)) }
{
    let mut text = String::new(alloc);
    'hits: for hit in hits {
        push_json_line(alloc, &mut text, hit)?;
    }
    Ok(text)
}

// The lines of each entry and of its ancestors.
fn entries_lines(
    alloc: Global,
    hits: &[Hit],
    strict: bool,
    left: &mut LeftNotes,
) -> Result<String, LinesError>
    ensures lines { IfOk result (λ text.
        AreLines (IsPrintedOf strict) hits.now (string_bytes text)) }
    ensures fault { IfErr result (IsLinesFault strict Lines (map hit_entry hits.now)) }
{
    let mut text = String::new(alloc);
    'hits: for hit in hits {
        let lines = hit_lines(alloc, hit, strict, left)?;
        text.push_str(lines.as_str())?;
    }
    Ok(text)
}

// The lines of an entry and of its ancestors, in a strict run of all of it.
fn hit_lines(
    alloc: Global,
    hit: &Hit,
    strict: bool,
    left: &mut LeftNotes,
) -> Result<String, LinesError>
    ensures lines { IfOk result (λ text. IsPrintedOf strict hit.now (string_bytes text)) }
    ensures fault { IfErr result (IsLinesFault strict Lines (hit_entry hit.now ∷ [])) }
{
    if strict {
        whole_lines(alloc, hit)
    } else {
        said_lines(alloc, hit, left)
    }
}

// The lines of all of an entry.
fn whole_lines(alloc: Global, hit: &Hit) -> Result<String, LinesError>
    ensures lines { IfOk result (λ text. IsPrintedOf true hit.now (string_bytes text)) }
    ensures fault { IfErr result (IsLinesFault true Lines (hit_entry hit.now ∷ [])) }
{
    entry_lines(alloc, hit.entry)
}

// The lines of what they can say of an entry. What they leave out is noted.
fn said_lines(alloc: Global, hit: &Hit, left: &mut LeftNotes) -> Result<String, LinesError>
    ensures lines { IfOk result (λ text. IsPrintedOf false hit.now (string_bytes text)) }
    ensures memory { IsOkUnless result memory }
{
    let PrintableLines { text, left_out } = printable_lines(alloc, hit.entry)?;
    left.add(alloc, hit.entry.key(), left_out.as_slice())?;
    Ok(text)
}

// A library of the entries in hayagriva's file format.
fn file(alloc: Global, hits: &[Hit]) -> Result<String, OutOfMemory>
    ensures { IfOk result (λ text. string_bytes text ≡ library_text (map hit_entry hits.now)) }
{
    let json = json_file(alloc, hits)?;
    let mut text = text_of(lay_out(alloc, json.as_str())?);
    text.push('\n')?;
    Ok(text)
}

// The same without white space.
fn json_file(alloc: Global, hits: &[Hit]) -> Result<String, OutOfMemory>
    ensures bytes { IfOk result (λ text.
        string_bytes text ≡ library_bytes (map hit_entry hits.now)) }
    ensures json { IfOk result (λ text.
        tokens (string_bytes text) ≡ json_tokens (library_json (map hit_entry hits.now))) }
{
    let mut out = Writer::new(Vec::new(alloc));
    out.begin_object()?;
    write_entries(alloc, &mut out, hits)?;
    out.end_object()?;
    Ok(text_of(out.into_inner()))
}

// The same in YAML.
fn file_in_yaml(alloc: Global, hits: &[Hit]) -> Result<String, OutOfMemory>
    ensures { IfOk result (λ text. IsLibraryInYaml (map hit_entry hits.now) (string_bytes text)) }
{
    let json = json_file(alloc, hits)?;
    match to_yaml(alloc, json.as_str())? {
        Some(text) => Ok(text),
        None => file(alloc, hits),
    }
}

// The entries under their keys.
fn write_entries(alloc: Global, out: &mut Writer, hits: &[Hit]) -> Result<(), OutOfMemory>
    ensures members { OnOk result (out.new.tokens ++ members_tokens no_members
        ≡ out.old.tokens ++ members_tokens (library_members (map hit_entry hits.now))) }
    ensures before { OnOk result (KeepsBefore out.old out.new) }
{
    'hits: for hit in hits {
        out.key(hit.entry.key())?;
        write_entry(alloc, out, None, hit.entry)?;
    }
    Ok(())
}

// The text of bytes that are one.
fn text_of(bytes: Vec<u8>) -> String
    requires { IsUtf8 bytes.items }
    ensures { string_bytes result ≡ bytes.items }
{
    match String::from_utf8(bytes) {
        Ok(text) => text,
        Err(_) => unreachable!(),
    }
}
