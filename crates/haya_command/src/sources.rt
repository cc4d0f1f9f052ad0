//! The elements of inputs that are read as a library, under the keys of their entries.
ghost use Rattle.std.specs.Prelude.{◌≡◌, ◌≢◌, ◌⊎◌, ◌++◌, ◌∷◌, [], List, IfErr, IfOk, None, OnOk};
ghost use Rattle.std.specs.Prelude.{Some, map, string_bytes};
ghost use Rattle.hayagriva.specs.Library.{from_entries};
ghost use Rattle.haya_source.specs.Elements.{AreElementsOf, Describes, Element, entries_of};
ghost use Rattle.haya_source.specs.Elements.{parts_of};
ghost use Rattle.haya_source.specs.Places.{ArePlacesOf};
ghost use Rattle.haya_command.specs.KeptElements.{AreKept};
ghost use Rattle.haya_command.specs.Reading.{AddsPart, AreCollected, format_in, texts};
ghost use Rattle.haya_command.specs.Source.{AreElementsIn, AreOfKind, IsKindError, IsKindFault};
ghost use Rattle.haya_command.specs.Source.{IsSourceFault};
ghost use Rattle.haya_command.specs.SourceForm.{kind_in};
ghost use Rattle.haya_command.specs.Told.{told_views};
ghost use Rattle.haya_command.specs.declared.source_form.SourceForm.{SourceForm as FormData};
ghost use Rattle.haya_formats.specs.declared.format.Format.{Format as FormatData};

use crate::error::CommandError;
use crate::options::{Input, Options};
use crate::reading::{add_part, read_input};
use crate::source_error::SourceError;
use crate::source_form::SourceForm;
use crate::told::InputNotes;
use haya_formats::{Format, format_for};
use haya_source::laws::parts_say_entries;
use haya_source::{ElementKind, Places, elements};
use haya_text::OutOfMemory;
use hayagriva::laws::distinct_entries_stand;
use hayagriva::{HashKeys, Library};
use std::alloc::Global;

/// The kind of the elements of all inputs, which the form prints. Without any input it is lines of
/// JSON.
///
/// `Source`: the form prints no elements of an input's format, or not of the same kind as of the
/// first's.
pub(crate) fn kind_of_inputs(
    alloc: Global,
    options: &Options,
    form: SourceForm,
    inputs: &[Input],
) -> Result<ElementKind, CommandError>
    ensures { IfOk result (AreOfKind options.now form (texts inputs.now)) }
{
    let Some(first) = inputs.first() else {
        return Ok(ElementKind::JsonLines);
    };
    let format = format_of(alloc, options, first)?;
    let Some(kind) = form.kind_in(format) else {
        return Err(source_fault(alloc, first, no_kind(form, format)));
    };
    'inputs: for input in inputs {
        check_kind(alloc, options, form, format, input)?;
    }
    Ok(kind)
}

/// The format of an input.
pub(crate) fn format_of(
    alloc: Global,
    options: &Options,
    input: &Input,
) -> Result<Format, OutOfMemory>
    ensures { IfOk result (λ format.
        format ≡ format_in options.now (string_bytes input.now.text)) }
{
    let format = format_for(alloc, options.from, input.text.as_bytes())?;
    Ok(format.keyed_by(options.key))
}

// Sees that an input has elements of the same kind as the first, which is in this format.
fn check_kind(
    alloc: Global,
    options: &Options,
    form: SourceForm,
    first: Format,
    input: &Input,
) -> Result<(), CommandError>
    ensures kind { OnOk result
        (kind_in form (format_in options.now (string_bytes input.now.text)) ≡ kind_in form first) }
    ensures fault { IfErr result (λ e. (e ≡ CommandError.OutOfMemory)
        ⊎ IsKindFault options.now form first input.now e) }
{
    let format = format_of(alloc, options, input)?;
    if form.kind_in(format) == form.kind_in(first) {
        return Ok(());
    }
    Err(source_fault(alloc, input, other_kind(form, first, format)))
}

/// What is wrong with a format whose elements aren't of the kind of the first input's.
pub(crate) fn other_kind(form: SourceForm, first: Format, format: Format) -> SourceError
    ensures { kind_in form format ≢ kind_in form first → IsKindError form first format result }
{
    match form.kind_in(format) {
        Some(_) => SourceError::OtherFormat(format, first),
        None => no_kind(form, format),
    }
}

/// What is wrong with a format of which the form prints no elements.
pub(crate) fn no_kind(form: SourceForm, format: Format) -> SourceError
    ensures { (first : FormatData) → kind_in form format ≡ None →
        IsKindError form first format result }
{
    match form {
        SourceForm::Source => SourceError::NoSource(format),
        SourceForm::CslJson => SourceError::NoItems(format),
    }
}

/// The fault of an input that this is the error of.
pub(crate) fn source_fault(alloc: Global, input: &Input, error: SourceError) -> CommandError
    ensures { (result ≡ CommandError.OutOfMemory) ⊎ IsSourceFault error input.now result }
{
    match String::from_str(alloc, input.name.as_str()) {
        Ok(name) => CommandError::Source(name, error),
        Err(_) => CommandError::OutOfMemory,
    }
}

/// The elements that the entries of a library were read from.
#[derive(Drop)]
pub(crate) enum Elements<'t> {
    /// Those of the only input, in order.
    InOrder(Vec<&'t str>),
    /// Those of all inputs, under the keys of their entries.
    Keyed(Places<'t>),
}

/// The library of all inputs, what is told of each, and the elements that its entries were read
/// from.
#[derive(Drop)]
pub(crate) struct Sources<'t> {
    /// The library.
    pub(crate) library: Library,
    /// What is told, in the order of the inputs.
    pub(crate) told: Vec<InputNotes>,
    /// The elements.
    pub(crate) elements: Elements<'t>,
}

/// The library of all inputs, as `read_inputs` reads them, and their elements, which are of this
/// kind. `NoElements`: those of an input can't be told apart. Any other fault is as there.
pub(crate) fn read_sources<'t>(
    alloc: Global,
    keys: HashKeys,
    options: &Options,
    kind: ElementKind,
    inputs: &'t [Input],
) -> Result<Sources<'t>, CommandError>
    ensures read { IfOk result (λ read.
        AreCollected options.now (texts inputs.now) read.library (told_views read.told.items)) }
    ensures elements { (form : FormData) → AreOfKind options.now form (texts inputs.now) kind →
        IfOk result (λ read. (es : List Element) × AreElementsIn kind (texts inputs.now) es
        × AreKept kind es read.library read.elements) }
{
    match inputs {
        [input] => read_source(alloc, keys, options, kind, input),
        _ => read_several(alloc, keys, options, kind, inputs),
    }
}

// The same of one input.
fn read_source<'t>(
    alloc: Global,
    keys: HashKeys,
    options: &Options,
    kind: ElementKind,
    input: &'t Input,
) -> Result<Sources<'t>, CommandError>
    ensures read { IfOk result (λ read. AreCollected options.now (string_bytes input.now.text ∷ [])
        read.library (told_views read.told.items)) }
    ensures elements { (form : FormData) →
        kind_in form (format_in options.now (string_bytes input.now.text)) ≡ Some kind →
        IfOk result (λ read. (es : List Element)
        × AreElementsOf kind (string_bytes input.now.text) es
        × AreKept kind es read.library read.elements) }
{
    distinct_entries_stand();
    let (part, notes) = read_input(alloc, keys, options, input)?;
    // No two entries of a library have one key.
    drop(part.iter());
    let parts = match elements_of(alloc, kind, input, &part) {
        Ok(parts) => parts,
        Err(fault) => {
            drop(part);
            drop(notes);
            return Err(fault);
        }
    };
    let mut library = Library::with_hash_keys(alloc, keys);
    let mut told = Vec::new(alloc);
    add_part(alloc, options, input, part, notes, &mut library, &mut told)?;
    Ok(Sources {
        library,
        told,
        elements: Elements::InOrder(parts),
    })
}

// The same of any number of inputs.
fn read_several<'t>(
    alloc: Global,
    keys: HashKeys,
    options: &Options,
    kind: ElementKind,
    inputs: &'t [Input],
) -> Result<Sources<'t>, CommandError>
    ensures read { IfOk result (λ read.
        AreCollected options.now (texts inputs.now) read.library (told_views read.told.items)) }
    ensures elements { (form : FormData) → AreOfKind options.now form (texts inputs.now) kind →
        IfOk result (λ read. (es : List Element) × AreElementsIn kind (texts inputs.now) es
        × AreKept kind es read.library read.elements) }
{
    let mut library = Library::with_hash_keys(alloc, keys);
    let mut told = Vec::new(alloc);
    let mut places = Places::new(alloc, keys);
    'inputs: for input in inputs {
        match add_source(
            alloc,
            keys,
            options,
            kind,
            input,
            &mut library,
            &mut told,
            &mut places,
        ) {
            Ok(()) => {}
            Err(fault) => return Err(fault),
        }
    }
    Ok(Sources {
        library,
        told,
        elements: Elements::Keyed(places),
    })
}

// Pushes the entries of one input to the library, tells what is told of it, and keeps its elements.
fn add_source<'t>(
    alloc: Global,
    keys: HashKeys,
    options: &Options,
    kind: ElementKind,
    input: &'t Input,
    library: &mut Library,
    told: &mut Vec<InputNotes>,
    places: &mut Places<'t>,
) -> Result<(), CommandError>
    ensures adds { OnOk result (AddsPart options.now (string_bytes input.now.text)
        library.old library.new (told_views told.old.items) (told_views told.new.items)) }
    ensures elements { (form : FormData) (before : List Element) →
        kind_in form (format_in options.now (string_bytes input.now.text)) ≡ Some kind →
        ArePlacesOf before places.old → OnOk result ((es : List Element)
        × AreElementsOf kind (string_bytes input.now.text) es
        × ArePlacesOf (before ++ es) places.new) }
{
    let (part, notes) = read_input(alloc, keys, options, input)?;
    match add_elements(alloc, keys, kind, input, &part, places) {
        Ok(()) => add_part(alloc, options, input, part, notes, library, told),
        Err(fault) => {
            drop(part);
            drop(notes);
            Err(fault)
        }
    }
}

// Keeps the elements of an input, which describes this library.
fn add_elements<'t>(
    alloc: Global,
    keys: HashKeys,
    kind: ElementKind,
    input: &'t Input,
    part: &Library,
    places: &mut Places<'t>,
) -> Result<(), CommandError>
    ensures { (before : List Element) → Describes kind (string_bytes input.now.text) part.now →
        ArePlacesOf before places.old → OnOk result ((es : List Element)
        × AreElementsOf kind (string_bytes input.now.text) es
        × ArePlacesOf (before ++ es) places.new) }
{
    let parts = elements_of(alloc, kind, input, part)?;
    Ok(places.add(alloc, keys, kind, parts.as_slice(), part)?)
}

// The elements of an input, which describes this library.
fn elements_of<'t>(
    alloc: Global,
    kind: ElementKind,
    input: &'t Input,
    part: &Library,
) -> Result<Vec<&'t str>, CommandError>
    ensures { Describes kind (string_bytes input.now.text) part.now → IfOk result (λ parts.
        (es : List Element) × AreElementsOf kind (string_bytes input.now.text) es
        × (map (λ s. s.now) parts.items ≡ parts_of es)
        × (part.now ≡ from_entries (entries_of es))) }
{
    parts_say_entries();
    match elements(alloc, kind, input.text.as_str())? {
        Some(parts) => Ok(parts),
        None => Err(source_fault(alloc, input, SourceError::NoElements)),
    }
}
