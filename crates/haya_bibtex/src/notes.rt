//! What is told of a library.
ghost use Rattle.std.specs.Prelude.{◌≡◌, ◌++◌, [], IfOk, OnOk, encode_utf8_all, map};
ghost use Rattle.std.specs.Prelude.{string_bytes};
ghost use Rattle.std.specs.Str.{chars};
ghost use Rattle.haya_bibtex_text.specs.BibliographyViews.{note_view};
ghost use Rattle.haya_bibtex_inherited.specs.Views.{reference_view};
ghost use Rattle.haya_json.specs.Notes.{all_kept, notes_view};
ghost use Rattle.haya_bibtex.specs.Libraries.{names_told, note_name, reference_name};

use crate::spelled::spell;
use haya_bibtex_inherited::Reference;
use haya_bibtex_text::PassedOver;
use haya_json::{Lost, Notes};
use haya_text::OutOfMemory;
use std::alloc::Global;

/// Tells names of an entry with this key. The error: there was no memory for them.
pub(crate) fn tell_names(
    alloc: Global,
    notes: &mut Notes,
    key: &str,
    names: &[String],
) -> Result<(), OutOfMemory>
    ensures { OnOk result (notes_view notes.new
        ≡ all_kept (names_told key.now (map string_bytes names.now)) (notes_view notes.old)) }
{
    'names: for name in names {
        notes.add(alloc, key, Lost::named(alloc, name.as_str())?)?;
    }
    Ok(())
}

// The name of what is passed over in a text.
fn name_of(alloc: Global, passed_over: &PassedOver) -> Result<String, OutOfMemory>
    ensures { IfOk result (λ s. string_bytes s ≡ note_name (note_view passed_over.now)) }
{
    match passed_over {
        PassedOver::Field(name) => {
            spell(name);
            Ok(String::from_str(alloc, name.as_str())?)
        }
        PassedOver::Entry(kind) => with_sign(alloc, "@", kind),
        PassedOver::Name(name) => with_sign(alloc, "#", name),
        PassedOver::Sign => Ok(String::from_str(alloc, "@")?),
    }
}

// A name behind a sign.
fn with_sign(alloc: Global, sign: &str, name: &String) -> Result<String, OutOfMemory>
    ensures { IfOk result (λ s. string_bytes s
        ≡ sign.now ++ encode_utf8_all (chars (string_bytes name.now))) }
{
    spell(name);
    let mut text = String::from_str(alloc, sign)?;
    text.push_str(name.as_str())?;
    Ok(text)
}

/// Tells what is passed over in a text. The error: there was no memory for it.
pub(crate) fn tell_text(
    alloc: Global,
    notes: &mut Notes,
    passed_over: &[PassedOver],
) -> Result<(), OutOfMemory>
    ensures { OnOk result (notes_view notes.new
        ≡ all_kept (names_told [] (map note_name (map note_view passed_over.now)))
        (notes_view notes.old)) }
{
    'passed_over: for one in passed_over {
        let name = name_of(alloc, one)?;
        notes.add(alloc, "", Lost::named(alloc, name.as_str())?)?;
    }
    Ok(())
}

/// Tells references that are passed over. The error: there was no memory for them.
pub(crate) fn tell_references(
    alloc: Global,
    notes: &mut Notes,
    references: &[Reference<'_>],
) -> Result<(), OutOfMemory>
    ensures { OnOk result (notes_view notes.new
        ≡ all_kept (names_told [] (map reference_name (map reference_view references.now)))
        (notes_view notes.old)) }
{
    'references: for reference in references {
        let name = reference.link.to_string(alloc)?;
        notes.add(alloc, "", Lost::named(alloc, name.as_str())?)?;
    }
    Ok(())
}
