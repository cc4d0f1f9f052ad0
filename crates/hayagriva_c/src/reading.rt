//! Libraries and selectors that are read from bytes.
ghost use Rattle.std.specs.Prelude.{◌≡◌, ◌⊎◌, IfErr, IfOk, map, string_bytes};
ghost use Rattle.haya_bibtex.specs.Libraries.{DescribesAsBibtex, TellsAsBibtex};
ghost use Rattle.haya_csl.specs.Libraries.{DescribesAsCsl};
ghost use Rattle.haya_csl.specs.Told.{TellsAsCsl};
ghost use Rattle.haya_csl.specs.declared.item_key.ItemKey.TheVariants.{CitationKey};
ghost use Rattle.haya_formats.specs.Block.{without_mark};
ghost use Rattle.haya_line_library.specs.Input.{Describes as LinesDescribe};
ghost use Rattle.haya_json.specs.JsonLines.{Describes as JsonLinesDescribe};
ghost use Rattle.haya_json.specs.JsonLines.{Tells as JsonLinesTell};
ghost use Rattle.haya_json.specs.Libraries.{Describes as JsonDescribes};
ghost use Rattle.haya_json.specs.Notes.{none_kept, notes_view};
ghost use Rattle.haya_json.specs.Told.{Tells as JsonTells};
ghost use Rattle.haya_selectors.specs.BoundNames.{bound_names};
ghost use Rattle.haya_selectors.specs.Syntax.{syntax};
ghost use Rattle.haya_yaml_library.specs.Libraries.{DescribesAsYaml, TellsAsYaml};
ghost use Rattle.hayagriva_c.specs.Noted.{noted};
ghost use Rattle.hayagriva_c.specs.Notes.{NotesOf, TellsIn};
ghost use Rattle.hayagriva_c.specs.Reading.{AsksAs, IsFront, IsToldAt, Says, SaysIn, WhyNoFront};
ghost use Rattle.hayagriva_c.specs.Reading.{WhyNoLibrary, WhyNoSelector, WhyNotBibtex, WhyNotCsl};
ghost use Rattle.hayagriva_c.specs.Reading.{WhyNotIn, WhyNotJson, WhyNotJsonLines, WhyNotLines};
ghost use Rattle.hayagriva_c.specs.Reading.{WhyNotYaml, asked_format, guessed, nests_too_deep};
ghost use Rattle.hayagriva_c.specs.Reading.{numbered};
ghost use Rattle.hayagriva_c.specs.Told.{IsMemoryTold};

use crate::content::{Asked, Shelf};
use crate::notes::counted;
use crate::told::Told;
use crate::{codes, reasons};
use haya_bibtex::read_bibtex_with_hash_keys;
use haya_csl::{ItemKey, read_csl_json_with_hash_keys};
use haya_formats::{Format as Guess, format_of, without_mark};
use haya_json::{Notes, read_json_lines, read_library_with_hash_keys};
use haya_line_library::read_library;
use haya_selectors::CompiledSelector;
use haya_text::OutOfMemory;
use haya_views::names_of;
use haya_yaml_library::read_yaml_with_hash_keys;
use hayagriva::{HashKeys, Library, Selector, SelectorError};
use std::alloc::Global;

/// How a text says a library.
#[derive(Clone, Copy, Drop)]
pub enum Format {
    /// Lines, one an entry.
    Lines,
    /// hayagriva's own file format, written as JSON.
    Json,
    /// CSL-JSON, whose entries have their items' `citation-key` as key, or the `id` where that has
    /// none.
    Csl,
    /// Lines of JSON, one an entry: an object of its `key` and of the `entry` in the file format.
    JsonLines,
    /// hayagriva's own file format, written in YAML.
    Yaml,
    /// `.bib` files.
    Bibtex,
}

impl Format {
    /// The format with this number.
    pub fn of_number(number: u32) -> Option<Format>
        ensures { result ≡ numbered number }
    {
        match number {
            1 => Some(Format::Lines),
            2 => Some(Format::Json),
            3 => Some(Format::Csl),
            4 => Some(Format::JsonLines),
            5 => Some(Format::Yaml),
            6 => Some(Format::Bibtex),
            _ => None,
        }
    }

    // The format that is guessed.
    fn of_guess(guess: Guess) -> Format
        ensures { result ≡ guessed guess }
    {
        match guess {
            Guess::Hayagriva => Format::Json,
            Guess::Yaml => Format::Yaml,
            Guess::Bibtex => Format::Bibtex,
            Guess::CslJson(_) => Format::Csl,
            Guess::JsonLines => Format::JsonLines,
            Guess::Lines => Format::Lines,
        }
    }
}

// The number that asks for the format that a text's first signs tell.
const GUESSED: u32 = 0;

// The format that this number asks for, if there is one: at 0 the one that is guessed from the
// bytes, as the command does.
fn asked_format(alloc: Global, number: u32, bytes: &[u8]) -> Result<Option<Format>, OutOfMemory>
    ensures format { IfOk result (λ format. format ≡ asked_format number bytes.now) }
    ensures memory { IfErr result (λ _. number ≡ 0) }
{
    if number != GUESSED {
        return Ok(Format::of_number(number));
    }
    let guess = format_of(alloc, bytes)?;
    Ok(Some(Format::of_guess(guess)))
}

/// The library that bytes say in the format with this number, or why they say none. A byte order
/// mark at their front is passed over.
pub fn library_of(alloc: Global, keys: HashKeys, number: u32, bytes: &[u8]) -> Result<Shelf, Told>
    ensures library { IfOk result (λ shelf. Says number (without_mark bytes.now) shelf.library) }
    ensures notes { IfOk result
        (λ shelf. NotesOf number (without_mark bytes.now) (noted shelf.notes.items)) }
    ensures told { IfErr result (WhyNoLibrary number (without_mark bytes.now)) }
{
    let bytes = without_mark(bytes);
    let Ok(format) = asked_format(alloc, number, bytes) else {
        return Err(Told::memory(alloc));
    };
    let Some(format) = format else {
        return Err(Told::alone(alloc, codes::NO_FORMAT));
    };
    let Ok(text) = str::from_utf8(bytes) else {
        return Err(Told::alone(alloc, codes::NOT_TEXT));
    };
    match library_in(alloc, keys, format, text) {
        Ok((library, notes)) => shelf_of(alloc, keys, library, &notes),
        Err(told) => Err(told),
    }
}

// The library with the names that are counted of what is told of its text.
fn shelf_of(alloc: Global, keys: HashKeys, library: Library, notes: &Notes) -> Result<Shelf, Told>
    ensures library { IfOk result (λ shelf. shelf.library ≡ library) }
    ensures notes { IfOk result
        (λ shelf. noted shelf.notes.items ≡ (notes_view notes.now).counts) }
    ensures told { IfErr result IsMemoryTold }
{
    match counted(alloc, notes) {
        Ok(notes) => Ok(Shelf {
            library,
            notes,
            keys,
            alloc,
        }),
        Err(_) => Err(Told::memory(alloc)),
    }
}

// The library that a text says in this format and what is told of it, or why it says none.
fn library_in(
    alloc: Global,
    keys: HashKeys,
    format: Format,
    text: &str,
) -> Result<(Library, Notes), Told>
    ensures library { IfOk result (λ read. SaysIn format text.now read.0) }
    ensures notes { IfOk result (λ read. TellsIn format text.now (notes_view read.1)) }
    ensures told { IfErr result (WhyNotIn format text.now) }
{
    match format {
        Format::Lines => lines(alloc, keys, text),
        Format::Json => json(alloc, keys, text),
        Format::Csl => csl(alloc, keys, text),
        Format::JsonLines => json_lines(alloc, keys, text),
        Format::Yaml => yaml(alloc, keys, text),
        Format::Bibtex => bibtex(alloc, keys, text),
    }
}

fn lines(alloc: Global, keys: HashKeys, text: &str) -> Result<(Library, Notes), Told>
    ensures library { IfOk result (λ read. LinesDescribe text.now read.0) }
    ensures notes { IfOk result (λ read. notes_view read.1 ≡ none_kept) }
    ensures told { IfErr result (WhyNotLines text.now) }
{
    match read_library(alloc, keys, text) {
        Ok(library) => Ok((library, Notes::with_hash_keys(alloc, keys))),
        Err(fault) => Err(reasons::of_input(alloc, fault)),
    }
}

/// The library that a text says in hayagriva's file format, written as JSON, and what is told of
/// it, or why it says none.
pub fn json(alloc: Global, keys: HashKeys, text: &str) -> Result<(Library, Notes), Told>
    ensures library { IfOk result (λ read. JsonDescribes text.now read.0) }
    ensures notes { IfOk result (λ read. JsonTells text.now (notes_view read.1)) }
    ensures told { IfErr result (WhyNotJson text.now) }
{
    match read_library_with_hash_keys(alloc, keys, text) {
        Ok(read) => Ok(read),
        Err(error) => Err(reasons::of_json(alloc, &error)),
    }
}

fn csl(alloc: Global, keys: HashKeys, text: &str) -> Result<(Library, Notes), Told>
    ensures library { IfOk result (λ read. DescribesAsCsl CitationKey text.now read.0) }
    ensures notes { IfOk result (λ read. TellsAsCsl CitationKey text.now (notes_view read.1)) }
    ensures told { IfErr result (WhyNotCsl text.now) }
{
    match read_csl_json_with_hash_keys(alloc, keys, ItemKey::CitationKey, text) {
        Ok(read) => Ok(read),
        Err(error) => Err(reasons::of_json(alloc, &error)),
    }
}

fn json_lines(alloc: Global, keys: HashKeys, text: &str) -> Result<(Library, Notes), Told>
    ensures library { IfOk result (λ read. JsonLinesDescribe text.now read.0) }
    ensures notes { IfOk result (λ read. JsonLinesTell text.now (notes_view read.1)) }
    ensures told { IfErr result (WhyNotJsonLines text.now) }
{
    match read_json_lines(alloc, keys, text) {
        Ok(read) => Ok(read),
        Err(error) => Err(reasons::of_json_line(alloc, &error)),
    }
}

fn yaml(alloc: Global, keys: HashKeys, text: &str) -> Result<(Library, Notes), Told>
    ensures library { IfOk result (λ read. DescribesAsYaml text.now read.0) }
    ensures notes { IfOk result (λ read. TellsAsYaml text.now (notes_view read.1)) }
    ensures told { IfErr result (WhyNotYaml text.now) }
{
    match read_yaml_with_hash_keys(alloc, keys, text) {
        Ok(read) => Ok(read),
        Err(error) => Err(reasons::of_yaml(alloc, &error)),
    }
}

fn bibtex(alloc: Global, keys: HashKeys, text: &str) -> Result<(Library, Notes), Told>
    ensures library { IfOk result (λ read. DescribesAsBibtex text.now read.0) }
    ensures notes { IfOk result (λ read. TellsAsBibtex text.now (notes_view read.1)) }
    ensures told { IfErr result (WhyNotBibtex text.now) }
{
    match read_bibtex_with_hash_keys(alloc, keys, text) {
        Ok(read) => Ok(read),
        Err(error) => Err(reasons::of_bibtex(alloc, &error)),
    }
}

// How many parentheses a selector may open within each other: all else that it says takes no stack.
const MOST_OPEN: usize = 1000;

// Whether more than that are open somewhere.
fn nests_too_deep(bytes: &[u8]) -> bool
    ensures { result ≡ nests_too_deep bytes.now }
{
    let mut opened: usize = 0;
    'bytes: for byte in bytes {
        match *byte {
            b'(' => opened += 1,
            b')' => opened = opened.saturating_sub(1),
            _ => {}
        }
        if opened > MOST_OPEN {
            return true;
        }
    }
    false
}

/// The selector at the front of bytes, and the byte at which it ends, or why there is none.
pub fn selector_of(alloc: Global, bytes: &[u8]) -> Result<(Asked, usize), Told>
    ensures selector { IfOk result (λ read. AsksAs bytes.now read.0 read.1) }
    ensures told { IfErr result (WhyNoSelector bytes.now) }
{
    if nests_too_deep(bytes) {
        return Err(Told::alone(alloc, codes::TOO_DEEP));
    }
    let Ok(text) = str::from_utf8(bytes) else {
        return Err(Told::alone(alloc, codes::NOT_TEXT));
    };
    front_of(alloc, text)
}

// The selector at the front of a text, and the byte at which it ends, or why there is none.
fn front_of(alloc: Global, text: &str) -> Result<(Asked, usize), Told>
    ensures selector { IfOk result (λ read. IsFront text.now read.0 read.1) }
    ensures told { IfErr result (WhyNoFront text.now) }
{
    let (selector, end) = match Selector::parse_prefix(alloc, text) {
        Ok(read) => read,
        Err(error) => return Err(why_none(alloc, text, error)),
    };
    let Ok(asked) = asked_of(alloc, &selector) else {
        return Err(Told::memory(alloc));
    };
    Ok((asked, end))
}

// The selector in the form in which it is asked, and its names.
fn asked_of(alloc: Global, selector: &Selector) -> Result<Asked, OutOfMemory>
    ensures selector { IfOk result (λ asked. asked.selector ≡ syntax selector.now) }
    ensures names { IfOk result (λ asked.
        map string_bytes asked.names.items ≡ bound_names (syntax selector.now)) }
{
    Ok(Asked {
        selector: CompiledSelector::new(alloc, selector)?,
        names: names_of(alloc, selector)?,
    })
}

// Why a text is no selector.
fn why_none(alloc: Global, text: &str, error: SelectorError) -> Told
    ensures { IsToldAt text.now error result ⊎ IsMemoryTold result }
{
    if let SelectorError::OutOfMemory = error {
        return Told::memory(alloc);
    }
    match Selector::fault_place(alloc, text) {
        Ok(Some(place)) => reasons::of_selector(alloc, place, error),
        _ => Told::memory(alloc),
    }
}
