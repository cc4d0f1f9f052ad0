//! The texts of values and fields.
ghost use Rattle.std.specs.Prelude.{◌≡◌, ◌++◌, ◌∷◌, [], IfOk, OnOk, Some, length, map};
ghost use Rattle.std.specs.Prelude.{string_bytes};
ghost use Rattle.std.specs.List.{list_all};
ghost use Rattle.std.specs.Str.{chars};
ghost use Rattle.haya_bibtex_text.specs.Bibliography.{filled_fields, field_if_filled};
ghost use Rattle.haya_bibtex_text.specs.Bibliography.{unknown_names, unknown_string};
ghost use Rattle.haya_bibtex_text.specs.BibliographyViews.{field_texts, note_view};
ghost use Rattle.haya_bibtex_text.specs.Classes.{is_white};
ghost use Rattle.haya_bibtex_text.specs.Definitions.{strings_view};
ghost use Rattle.haya_bibtex_text.specs.FieldViews.{field_view};
ghost use Rattle.haya_bibtex_text.specs.PieceViews.{piece_view};
ghost use Rattle.haya_bibtex_text.specs.Pieces.{text};
ghost use Rattle.haya_bibtex_text.specs.Strings.{Strings, piece_text, piece_unknown_names};
ghost use Rattle.haya_bibtex_text.specs.Strings.{value_text, value_unknown_names};
ghost use Rattle.haya_bibtex_text.specs.Uses.{Spends, field_uses, piece_uses, use_of, value_uses};

use crate::classes::is_white;
use crate::definitions::{Definitions, defined_text};
use crate::entry::{Field, PassedOver};
use crate::fault::{FaultKind, Stop, stop_at};
use crate::fields::WrittenField;
use crate::pieces::Piece;
use crate::texts::lowercase;
use haya_characters::{push_chars, string_of};
use std::alloc::{AllocError, Global};

// Adds a text to another.
fn push_text(text: &mut String, more: &str) -> Result<(), AllocError>
    ensures { OnOk result
        (chars (string_bytes text.new) ≡ chars (string_bytes text.old) ++ chars more.now) }
{
    text.push_str(more)?;
    Ok(())
}

// How many characters a text has.
fn char_count(text: &str) -> usize
    ensures { result ≡ length (chars text.now) }
{
    if text.is_ascii() {
        return text.len();
    }
    text.chars().count()
}

// Takes the characters of a string out of the room for them, at whose name so many characters of the
// text are left.
fn take_room(room: &mut usize, left: usize, string: &str) -> Result<(), Stop>
    ensures { Spends room.old (use_of left (Some (chars string.now))) room.new result }
{
    let size = char_count(string);
    if size > *room {
        return Err(stop_at(FaultKind::Strings, left));
    }
    *room -= size;
    Ok(())
}

// Adds the text of a piece to the text, and the name of no string to what is passed over.
fn push_piece(
    alloc: Global,
    strings: &Definitions,
    piece: &Piece<'_>,
    text: &mut String,
    room: &mut usize,
    passed_over: &mut Vec<PassedOver>,
) -> Result<(), Stop>
    ensures text { OnOk result (chars (string_bytes text.new)
        ≡ chars (string_bytes text.old)
        ++ piece_text (strings_view strings.now) (piece_view piece.now)) }
    ensures unknown { OnOk result (map note_view passed_over.new.items
        ≡ map note_view passed_over.old.items
        ++ map unknown_string
        (piece_unknown_names (strings_view strings.now) (piece_view piece.now))) }
    ensures room { Spends room.old
        (piece_uses (strings_view strings.now) (piece_view piece.now)) room.new result }
{
    let (left, written) = match piece {
        Piece::Text(characters) => {
            push_chars(text, characters)?;
            return Ok(());
        }
        Piece::Name(left, characters) => (*left, characters),
    };
    let name = lowercase(alloc, written)?;
    let Some(defined) = defined_text(strings, name.as_str()) else {
        passed_over.push(PassedOver::Name(name))?;
        push_chars(text, written)?;
        return Ok(());
    };
    match take_room(room, left, defined) {
        Ok(()) => {}
        Err(stop) => return Err(stop),
    }
    push_text(text, defined)?;
    Ok(())
}

/// The text of a value. Names of no string go to what is passed over. The error: there was no
/// memory for them, or no room for a string.
pub(crate) fn value_text(
    alloc: Global,
    strings: &Definitions,
    value: &[Piece<'_>],
    room: &mut usize,
    passed_over: &mut Vec<PassedOver>,
) -> Result<String, Stop>
    ensures text { IfOk result (λ t. chars (string_bytes t)
        ≡ value_text (strings_view strings.now) (map piece_view value.now)) }
    ensures unknown { OnOk result (map note_view passed_over.new.items
        ≡ map note_view passed_over.old.items
        ++ map unknown_string
        (value_unknown_names (strings_view strings.now) (map piece_view value.now))) }
    ensures room { Spends room.old
        (value_uses (strings_view strings.now) (map piece_view value.now)) room.new result }
{
    let mut text = String::new(alloc);
    'pieces: for piece in value {
        match push_piece(alloc, strings, piece, &mut text, room, passed_over) {
            Ok(()) => {}
            Err(stop) => return Err(stop),
        }
    }
    Ok(text)
}

// Whether a text is white.
fn is_blank(text: &str) -> bool
    ensures { result ≡ list_all is_white (chars text.now) }
{
    text.chars().all(|c| is_white(c))
}

// Whether characters are white.
fn are_white(characters: &[char]) -> bool
    ensures { result ≡ list_all is_white characters.now }
{
    characters.iter().all(|c| is_white(*c))
}

// Adds a field of these characters, unless they are white. The error: there was no memory for it.
fn push_text_of(
    alloc: Global,
    name: &[char],
    characters: &[char],
    fields: &mut Vec<Field>,
) -> Result<(), AllocError>
    ensures { (ss : Strings) → OnOk result (map field_texts fields.new.items
        ≡ map field_texts fields.old.items ++ field_if_filled ss
        (record { name = name.now; value = text characters.now ∷ [] })) }
{
    if are_white(characters) {
        return Ok(());
    }
    let text = string_of(alloc, characters)?;
    let name = lowercase(alloc, name)?;
    fields.push(Field { name, text })?;
    Ok(())
}

// Adds a field, unless its text is white.
fn push_filled(
    alloc: Global,
    strings: &Definitions,
    written: &WrittenField<'_>,
    fields: &mut Vec<Field>,
    room: &mut usize,
    passed_over: &mut Vec<PassedOver>,
) -> Result<(), Stop>
    ensures fields { OnOk result (map field_texts fields.new.items
        ≡ map field_texts fields.old.items
        ++ field_if_filled (strings_view strings.now) (field_view written.now)) }
    ensures unknown { OnOk result (map note_view passed_over.new.items
        ≡ map note_view passed_over.old.items
        ++ map unknown_string
        (value_unknown_names (strings_view strings.now) (field_view written.now).value)) }
    ensures room { Spends room.old
        (value_uses (strings_view strings.now) (field_view written.now).value) room.new result }
{
    // Most values are one text.
    if let Some(characters) = written.value.only_text() {
        push_text_of(alloc, written.name, characters, fields)?;
        return Ok(());
    }
    let text = match value_text(alloc, strings, written.value.as_slice(), room, passed_over) {
        Ok(text) => text,
        Err(stop) => return Err(stop),
    };
    if is_blank(text.as_str()) {
        return Ok(());
    }
    let name = lowercase(alloc, written.name)?;
    fields.push(Field { name, text })?;
    Ok(())
}

/// The fields whose text isn't white. Names of no string go to what is passed over. The error:
/// there was no memory for them, or no room for a string.
pub(crate) fn filled_fields(
    alloc: Global,
    strings: &Definitions,
    written: &[WrittenField<'_>],
    room: &mut usize,
    passed_over: &mut Vec<PassedOver>,
) -> Result<Vec<Field>, Stop>
    ensures fields { IfOk result (λ v. map field_texts v.items
        ≡ filled_fields (strings_view strings.now) (map field_view written.now)) }
    ensures unknown { OnOk result (map note_view passed_over.new.items
        ≡ map note_view passed_over.old.items
        ++ map unknown_string
        (unknown_names (strings_view strings.now) (map field_view written.now))) }
    ensures room { Spends room.old
        (field_uses (strings_view strings.now) (map field_view written.now)) room.new result }
{
    let mut fields = Vec::with_capacity(alloc, written.len())?;
    'fields: for field in written {
        match push_filled(alloc, strings, field, &mut fields, room, passed_over) {
            Ok(()) => {}
            Err(stop) => return Err(stop),
        }
    }
    Ok(fields)
}
