//! The library of texts in any of the formats.
ghost use Rattle.std.specs.Prelude.{◌≡◌, ◌⊎◌, ◌++◌, ◌∷◌, [], Contains, IfErr, IfOk, IsTrue, List};
ghost use Rattle.std.specs.Prelude.{None, OnOk, Some, map, string_bytes};
ghost use Rattle.haya_line_library.specs.Repeats.{repeats_view};
ghost use Rattle.haya_json.specs.Notes.{NotesView, all_kept, first_note, kept_of, note_view};
ghost use Rattle.haya_json.specs.Notes.{notes_view};
ghost use Rattle.haya_json.specs.Told.{told_again};
ghost use Rattle.hayagriva.specs.Library.{get, key_of};
ghost use Rattle.hayagriva.specs.Tree.{Tree};
ghost use Rattle.haya_command.specs.Reading.{AddsPart, AreCollected, Describes, IsAgain};
ghost use Rattle.haya_command.specs.Reading.{IsAgainFault, IsAgainIn};
ghost use Rattle.haya_command.specs.Reading.{IsErrorOf, IsFaultBehind, IsFaultIn, IsInputError};
ghost use Rattle.haya_command.specs.Reading.{IsLoss};
ghost use Rattle.haya_command.specs.Reading.{IsKeyAgain, IsReadAs, Tells, TellsBy, again_note};
ghost use Rattle.haya_command.specs.Reading.{all_pushed};
ghost use Rattle.haya_command.specs.Reading.{format_in, input_names, keys_again, texts};
ghost use Rattle.haya_command.specs.Told.{told_names, told_views};
ghost use Rattle.haya_formats.specs.declared.format.Format.TheVariants.{Lines};
ghost use Rattle.haya_command.specs.declared.options.Options.{Options as OptionsData};

use crate::error::{CommandError, LibraryError};
use crate::options::{Input, Options};
use crate::told::InputNotes;
use haya_bibtex::read_bibtex_with_hash_keys;
use haya_csl::read_csl_json_with_hash_keys;
use haya_formats::{Format, format_for};
use haya_json::{Lost, Note, Notes, read_json_lines, read_library_with_hash_keys};
use haya_line_library::{InputError, Repeat, read_library_with_repeats};
use haya_text::OutOfMemory;
use haya_yaml_library::read_yaml_with_hash_keys;
use hayagriva::laws::distinct_entries_stand;
use hayagriva::{HashKeys, Library};
use std::alloc::Global;

/// The library that a text describes in this format, and what is told of the text: the members that
/// are passed over, the values that aren't read, and the keys that come again. The library's map
/// hashes with the keys.
pub fn read(
    alloc: Global,
    keys: HashKeys,
    format: Format,
    text: &str,
) -> Result<(Library, Notes), LibraryError>
    ensures library { IfOk result (λ read. Describes format text.now read.0) }
    ensures notes { IfOk result (λ read. Tells format text.now (notes_view read.1)) }
    ensures error { IfErr result (IsErrorOf format text.now) }
{
    match format {
        Format::Hayagriva => match read_library_with_hash_keys(alloc, keys, text) {
            Ok(read) => Ok(read),
            Err(error) => Err(LibraryError::Json(error)),
        },
        Format::Yaml => match read_yaml_with_hash_keys(alloc, keys, text) {
            Ok(read) => Ok(read),
            Err(error) => Err(LibraryError::Yaml(error)),
        },
        Format::Bibtex => match read_bibtex_with_hash_keys(alloc, keys, text) {
            Ok(read) => Ok(read),
            Err(error) => Err(LibraryError::Bibtex(error)),
        },
        Format::CslJson(key) => match read_csl_json_with_hash_keys(alloc, keys, key, text) {
            Ok(read) => Ok(read),
            Err(error) => Err(LibraryError::Json(error)),
        },
        Format::JsonLines => match read_json_lines(alloc, keys, text) {
            Ok(read) => Ok(read),
            Err(error) => Err(LibraryError::JsonLines(error)),
        },
        Format::Lines => read_lines(alloc, keys, text),
    }
}

// The library that a text describes in lines, and the keys that come again.
fn read_lines(alloc: Global, keys: HashKeys, text: &str) -> Result<(Library, Notes), LibraryError>
    ensures library { IfOk result (λ read. Describes Lines text.now read.0) }
    ensures notes { IfOk result (λ read. Tells Lines text.now (notes_view read.1)) }
    ensures error { IfErr result (IsErrorOf Lines text.now) }
{
    let (library, repeats) = match read_library_with_repeats(alloc, keys, text) {
        Ok(read) => read,
        Err(fault) => return Err(LibraryError::Lines(fault)),
    };
    match repeats_noted(alloc, keys, repeats) {
        Ok(notes) => Ok((library, notes)),
        Err(OutOfMemory) => {
            drop(library);
            Err(LibraryError::Lines(InputError::OutOfMemory))
        }
    }
}

// The notes that these keys come again.
#[tactic(auto, using(haya_json::proofs::NotesKept::kept_from_none))]
fn repeats_noted(alloc: Global, keys: HashKeys, repeats: Vec<Repeat>) -> Result<Notes, OutOfMemory>
    ensures { IfOk result (λ notes.
        notes_view notes ≡ kept_of (map again_note (repeats_view repeats))) }
{
    let mut notes = Notes::with_hash_keys(alloc, keys);
    'repeats: for repeat in repeats {
        notes.add(alloc, repeat.key.as_str(), Lost::again(alloc))?;
    }
    Ok(notes)
}

/// The library of all inputs, and what is told of each.
#[derive(Drop)]
pub struct Collected {
    /// The library.
    pub library: Library,
    /// What is told, in the order of the inputs.
    pub told: Vec<InputNotes>,
}

/// The library of all inputs: the entries of each in turn, pushed one after another. Of each is
/// told, under its name, what is told of its text, and which of its keys an earlier input has; in a
/// strict run the first of this is a fault. The library's map hashes with the keys. The fault is
/// the first input's that has one, or out of memory.
pub fn read_inputs(
    alloc: Global,
    keys: HashKeys,
    options: &Options,
    inputs: &[Input],
) -> Result<Collected, CommandError>
    ensures read { IfOk result (λ read.
        AreCollected options.now (texts inputs.now) read.library (told_views read.told.items)) }
    ensures names { IfOk result (λ read. told_names read.told.items ≡ input_names inputs.now) }
    ensures fault { IfErr result (IsInputError options.now inputs.now) }
{
    let mut library = Library::with_hash_keys(alloc, keys);
    let mut told = Vec::new(alloc);
    'inputs: for input in inputs {
        match add_input(alloc, keys, options, input, &mut library, &mut told) {
            Ok(()) => {}
            Err(fault) => return Err(fault),
        }
    }
    Ok(Collected { library, told })
}

// Pushes the entries of one input to the library, and tells what is told of it.
fn add_input(
    alloc: Global,
    keys: HashKeys,
    options: &Options,
    input: &Input,
    library: &mut Library,
    told: &mut Vec<InputNotes>,
) -> Result<(), CommandError>
    ensures adds { OnOk result (AddsPart options.now (string_bytes input.now.text)
        library.old library.new (told_views told.old.items) (told_views told.new.items)) }
    ensures names { OnOk result (told_names told.new.items
        ≡ told_names told.old.items ++ string_bytes input.now.name ∷ []) }
    ensures fault { IfErr result (λ e.
        (e ≡ CommandError.OutOfMemory) ⊎ IsFaultBehind options.now library.old input.now e) }
{
    let (part, notes) = read_input(alloc, keys, options, input)?;
    add_part(alloc, options, input, part, notes, library, told)
}

/// Pushes the library that one input is read as to that of those before it, and tells what is told
/// of it: these notes, and which of its keys come again.
pub(crate) fn add_part(
    alloc: Global,
    options: &Options,
    input: &Input,
    part: Library,
    notes: Notes,
    library: &mut Library,
    told: &mut Vec<InputNotes>,
) -> Result<(), CommandError>
    ensures adds { IsReadAs options.now (string_bytes input.now.text) part →
        TellsBy options.now (string_bytes input.now.text) (notes_view notes) →
        OnOk result (AddsPart options.now (string_bytes input.now.text) library.old library.new
        (told_views told.old.items) (told_views told.new.items)) }
    ensures pushed { OnOk result (library.new ≡ all_pushed library.old part) }
    ensures names { OnOk result (told_names told.new.items
        ≡ told_names told.old.items ++ string_bytes input.now.name ∷ []) }
    ensures fault { IsReadAs options.now (string_bytes input.now.text) part → IfErr result (λ e.
        (e ≡ CommandError.OutOfMemory) ⊎ IsAgainIn options.now library.old input.now e) }
{
    let mut notes = notes;
    note_repeats(
        alloc,
        options,
        input.name.as_str(),
        library,
        &part,
        &mut notes,
    )?;
    push_all(library, part)?;
    told.push(InputNotes::new(alloc, input.name.as_str(), notes)?)?;
    Ok(())
}

/// The library of one input, and what is told of it; in a strict run the first of this is a fault.
pub(crate) fn read_input(
    alloc: Global,
    keys: HashKeys,
    options: &Options,
    input: &Input,
) -> Result<(Library, Notes), CommandError>
    ensures library { IfOk result
        (λ read. IsReadAs options.now (string_bytes input.now.text) read.0) }
    ensures notes { IfOk result
        (λ read. TellsBy options.now (string_bytes input.now.text) (notes_view read.1)) }
    ensures fault { IfErr result
        (λ e. (e ≡ CommandError.OutOfMemory) ⊎ IsFaultIn options.now e input.now) }
{
    let format = format_for(alloc, options.from, input.text.as_bytes())?.keyed_by(options.key);
    match read(alloc, keys, format, input.text.as_str()) {
        Ok((library, notes)) => match check_notes(alloc, options, input.name.as_str(), notes) {
            Ok(notes) => Ok((library, notes)),
            Err(fault) => {
                drop(library);
                Err(fault)
            }
        },
        Err(error) => Err(error_fault(alloc, input, error)),
    }
}

/// What is told of the input that is called so; in a strict run the first of this is a fault.
pub fn check_notes(
    alloc: Global,
    options: &Options,
    name: &str,
    told: Notes,
) -> Result<Notes, CommandError>
    ensures same { IfOk result (λ notes. notes_view notes ≡ notes_view told) }
    ensures none { OnOk result (IsTrue options.now.strict → first_note (notes_view told) ≡ None) }
    ensures fault { IfErr result (λ e. (e ≡ CommandError.OutOfMemory)
        ⊎ (IsTrue options.now.strict × IsLoss name.now (notes_view told) e)) }
{
    if !options.strict {
        return Ok(told);
    }
    match told.into_first() {
        Ok(note) => Err(loss_fault(alloc, name, note)),
        Err(told) => Ok(told),
    }
}

// The fault that this is the first that is told of the input that is called so.
fn loss_fault(alloc: Global, name: &str, note: Note) -> CommandError
    ensures { (result ≡ CommandError.OutOfMemory)
        ⊎ ((kept : NotesView) → first_note kept ≡ Some (note_view note)
        → IsLoss name.now kept result) }
{
    match String::from_str(alloc, name) {
        Ok(name) => CommandError::PassedOver(name, note),
        Err(_) => {
            drop(note);
            CommandError::OutOfMemory
        }
    }
}

// The fault of the input that this is an error of.
fn error_fault(alloc: Global, input: &Input, error: LibraryError) -> CommandError
    ensures { (options : OptionsData) →
        IsErrorOf (format_in options (string_bytes input.now.text))
        (string_bytes input.now.text) error →
        (result ≡ CommandError.OutOfMemory) ⊎ IsFaultIn options result input.now }
{
    match String::from_str(alloc, input.name.as_str()) {
        Ok(name) => CommandError::Input(name, error),
        Err(_) => CommandError::OutOfMemory,
    }
}

// Tells which keys of the second library, that of the input that is called so, the first has. In a
// strict run the first of them is a fault.
#[tactic(auto, using(haya_json::proofs::NotesKept::kept_together))]
fn note_repeats(
    alloc: Global,
    options: &Options,
    name: &str,
    library: &Library,
    more: &Library,
    told: &mut Notes,
) -> Result<(), CommandError>
    ensures told { OnOk result (notes_view told.new
        ≡ all_kept (keys_again library.now more.now) (notes_view told.old)) }
    ensures strict { OnOk result
        (IsTrue options.now.strict → notes_view told.new ≡ notes_view told.old) }
    ensures fault { IfErr result (λ e. (e ≡ CommandError.OutOfMemory)
        ⊎ (IsTrue options.now.strict × IsAgain name.now library.now more.now e)) }
{
    if library.is_empty() {
        return Ok(());
    }
    'entries: for entry in more.iter() {
        note_repeat(alloc, options, name, library, entry.key(), told)?;
    }
    Ok(())
}

// Tells that a key of the input that is called so comes again, where the library has it; in a
// strict run that is a fault.
fn note_repeat(
    alloc: Global,
    options: &Options,
    name: &str,
    library: &Library,
    key: &str,
    told: &mut Notes,
) -> Result<(), CommandError>
    ensures told { OnOk result (notes_view told.new
        ≡ all_kept (told_again library.now key.now) (notes_view told.old)) }
    ensures none { OnOk result
        (IsTrue options.now.strict → told_again library.now key.now ≡ []) }
    ensures strict { OnOk result
        (IsTrue options.now.strict → notes_view told.new ≡ notes_view told.old) }
    ensures fault { IfErr result (λ e. (e ≡ CommandError.OutOfMemory)
        ⊎ (IsTrue options.now.strict × IsKeyAgain name.now library.now key.now e)) }
{
    if library.get(key).is_none() {
        return Ok(());
    }
    if options.strict {
        return Err(again_fault(alloc, name, key));
    }
    match told.add(alloc, key, Lost::again(alloc)) {
        Ok(()) => Ok(()),
        Err(_) => Err(CommandError::OutOfMemory),
    }
}

// The fault that a key of the input that is called so comes again.
fn again_fault(alloc: Global, name: &str, key: &str) -> CommandError
    ensures { (result ≡ CommandError.OutOfMemory) ⊎ IsAgainFault name.now key.now result }
{
    let Ok(name) = String::from_str(alloc, name) else {
        return CommandError::OutOfMemory;
    };
    match String::from_str(alloc, key) {
        Ok(key) => CommandError::Again(name, key),
        Err(_) => {
            drop(name);
            CommandError::OutOfMemory
        }
    }
}

// Pushes each entry of the second library to the first. Where that has none, the second is what its
// entries make, as they have keys of their own.
fn push_all(library: &mut Library, more: Library) -> Result<(), OutOfMemory>
    ensures { OnOk result (library.new ≡ all_pushed library.old more) }
{
    if library.is_empty() {
        distinct_entries_stand();
        drop(more.iter());
        *library = more;
        return Ok(());
    }
    'entries: for entry in more {
        library.insert(entry)?;
    }
    Ok(())
}
