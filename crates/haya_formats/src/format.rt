//! The formats that a library's text may have.
ghost use Rattle.std.specs.Prelude.{◌≡◌, ℕ, [], IfNone, IfOk, IfSome, find};
ghost use Rattle.json.specs.Json.{read_key};
ghost use Rattle.haya_formats.specs.FirstLine.{behind};
ghost use Rattle.haya_formats.specs.Formats.{begins_key, file_format, format_name, format_named};
ghost use Rattle.haya_formats.specs.Formats.{format_of};
ghost use Rattle.haya_formats.specs.Formats.{begins_list, format_for, format_of_members, has_list};
ghost use Rattle.haya_formats.specs.Formats.{is_format_named, keyed_by, members_in};

use crate::bibtex::is_bibtex;
use crate::block::first_text;
use crate::first_line::{behind, is_yaml_text};
use haya_csl::ItemKey;
use json::{Reader, Scratch, Token};
use std::alloc::{AllocError, Global};

/// How a text says a library.
#[derive(Clone, Copy, Debug, Drop, PartialEq, Eq)]
pub enum Format {
    /// hayagriva's own file format, written as JSON.
    Hayagriva,
    /// hayagriva's own file format, written in YAML.
    Yaml,
    /// BibTeX and BibLaTeX, as `.bib` files have them.
    Bibtex,
    /// CSL-JSON, whose entries have these members of their items as keys.
    CslJson(ItemKey),
    /// Lines of JSON, one an entry: an object of its `key` and of the `entry` in the file format.
    JsonLines,
    /// Lines of text, one an entry.
    Lines,
}

impl Format {
    /// Each format once, in the order of the variants.
    pub const ALL: [Format; 6] = [
        Format::Hayagriva,
        Format::Yaml,
        Format::Bibtex,
        Format::CslJson(ItemKey::CitationKey),
        Format::JsonLines,
        Format::Lines,
    ];

    /// The name that the command gives it.
    pub fn name(self) -> &'static str
        ensures { result.now ≡ format_name self }
    {
        match self {
            Format::Hayagriva => "hayagriva",
            Format::Yaml => "yaml",
            Format::Bibtex => "bibtex",
            Format::CslJson(_) => "csl-json",
            Format::JsonLines => "json-lines",
            Format::Lines => "lines",
        }
    }

    /// The same with this key, where it is CSL-JSON; any other is as it was.
    pub fn keyed_by(self, key: ItemKey) -> Format
        ensures { result ≡ keyed_by key self }
    {
        match self {
            Format::CslJson(_) => Format::CslJson(key),
            _ => self,
        }
    }

    /// The format with this name, written exactly as `name` answers.
    pub fn named(name: &str) -> Option<Format>
        ensures { result ≡ format_named name.now }
    {
        first_named(&Format::ALL, name)
    }
}

// The first of the formats with this name.
fn first_named(formats: &[Format], name: &str) -> Option<Format>
    ensures { result ≡ find (is_format_named name.now) formats.now }
{
    formats.iter().copied().find(|format| format.name() == name)
}

/// The format that is given, otherwise the one that is guessed from a text's first bytes, these.
/// Where hayagriva's format is given, they tell whether the text is in JSON or in YAML.
pub fn format_for(alloc: Global, given: Option<Format>, bytes: &[u8]) -> Result<Format, AllocError>
    ensures { IfOk result (λ format. format ≡ format_for given bytes.now) }
{
    match given {
        Some(Format::Hayagriva) => Ok(file_format(bytes)),
        Some(format) => Ok(format),
        None => format_of(alloc, bytes),
    }
}

// Whether a text in hayagriva's format with these first bytes is in JSON or in YAML: white space
// aside, JSON begins with `{`.
fn file_format(bytes: &[u8]) -> Format
    ensures { result ≡ file_format bytes.now }
{
    let text = first_text(bytes).trim_start();
    if text.is_empty() || text.starts_with('{') {
        Format::Hayagriva
    } else {
        Format::Yaml
    }
}

/// The format that is guessed from a text's first bytes, these, as far as `first_text` goes. White
/// space aside, the first sign is `[` in CSL-JSON, `{` in hayagriva's format, and any other
/// in lines. But an object that begins with a text as `key` is the first of lines of JSON, one
/// of `items` that are a list, wherever they stand among its members, is CSL-JSON, a text that
/// begins with `@` or `%`, or has an entry of BibTeX somewhere, is BibTeX, and one whose first line
/// begins with dashes, an item or a key is YAML.
pub fn format_of(alloc: Global, bytes: &[u8]) -> Result<Format, AllocError>
    ensures { IfOk result (λ format. format ≡ format_of bytes.now) }
{
    let text = first_text(bytes);
    if behind("[", text).is_some() {
        return Ok(Format::CslJson(ItemKey::CitationKey));
    }
    match behind("{", text) {
        Some(members) => format_of_members(alloc, members),
        None if is_bibtex(text) => Ok(Format::Bibtex),
        None if is_yaml_text(text) => Ok(Format::Yaml),
        None => Ok(Format::Lines),
    }
}

// The format of an object, or of a first part of it, with these members.
fn format_of_members(alloc: Global, members: &str) -> Result<Format, AllocError>
    ensures { IfOk result (λ format. format ≡ format_of_members members.now) }
{
    if begins_key(members) {
        return Ok(Format::JsonLines);
    }
    if has_list(alloc, "items", members)? {
        Ok(Format::CslJson(ItemKey::CitationKey))
    } else {
        Ok(Format::Hayagriva)
    }
}

// Whether the members of an object begin with a text as `key`.
fn begins_key(members: &str) -> bool
    ensures { result ≡ begins_key members.now }
{
    let Some(value) = behind("\"key\"", members) else {
        return false;
    };
    let Some(value) = behind(":", value) else {
        return false;
    };
    behind("\"", value).is_some()
}

// How deep the value of a member may nest.
const DEPTH: usize = 127;

// Whether the first of an object's members with this name is a list.
fn has_list(alloc: Global, name: &str, members: &str) -> Result<bool, AllocError>
    ensures { IfOk result (λ has. has ≡ has_list name.now members.now) }
{
    let mut scratch = Scratch::new(alloc);
    let mut reader = Reader::new(members, &mut scratch)?;
    'members: for _ in 0..members.len() {
        let Some(found) = next_name(&mut reader) else {
            return Ok(false);
        };
        if found == name {
            return Ok(begins_list(&mut reader));
        }
        let Ok(()) = reader.skip_value(DEPTH) else {
            return Ok(false);
        };
    }
    Ok(false)
}

// The name of the next member, if the object has one more.
fn next_name<'a>(reader: &mut Reader<'a>) -> Option<&'a str>
    ensures name { IfSome result (λ name. read_key reader.old ≡ Some (Some name.now, reader.new)) }
    ensures none { IfNone result ((n : ℕ) → members_in n reader.old ≡ []) }
{
    match reader.next_key() {
        Ok(name) => name,
        Err(_) => None,
    }
}

// Whether the next value is a list.
fn begins_list(reader: &mut Reader<'_>) -> bool
    ensures { result ≡ begins_list reader.old }
{
    matches!(reader.next(), Some(Token::BeginArray))
}
