//! Numbers of archives.
ghost use Rattle.std.specs.Prelude.{◌≡◌, IfOk, map, option_map, string_bytes};
ghost use Rattle.haya_text.specs.Chunks.{chunks};
ghost use Rattle.haya_bibtex_fields.specs.FieldTexts.{unknown_of};
ghost use Rattle.haya_bibtex_fields.specs.Serials.{arxiv_bytes, eprint_alone, eprint_by, eprint_in};
ghost use Rattle.haya_bibtex_fields.specs.Serials.{eprint_of, eprint_view, is_word};
ghost use Rattle.haya_bibtex_fields.specs.Serials.{eprint_arxiv};

use crate::addresses::read_standing;
use crate::reading::Reading;
use crate::serials::number_of_arxiv;
use crate::texts::{formatted_if_any, plain_if_any};
use haya_bibtex_values::is_address;
use haya_text::{ChunkedString, OutOfMemory};
use std::alloc::Global;

/// What the number of an archive is.
#[derive(Drop)]
pub enum Eprint {
    /// A number of arXiv, without `arXiv:` in front.
    Arxiv(String),
    /// A number of PubMed.
    Pmid(String),
    /// A number of PubMed Central.
    Pmcid(String),
    /// What another archive has under a number.
    Kept(ChunkedString, String),
    /// An address, where no archive is named.
    Address(String),
    /// No archive is named, and it is no address: the field isn't read.
    Unread,
}

// Whether a name is this word, in any case.
fn is_word(word: &str, name: &str) -> bool
    ensures { result ≡ is_word word.now name.now }
{
    name.eq_ignore_ascii_case(word)
}

// What a number is that no archive is named with.
fn eprint_alone(alloc: Global, number: String) -> Result<Eprint, OutOfMemory>
    ensures { IfOk result (λ e. eprint_view e ≡ eprint_alone (string_bytes number)) }
{
    if is_address(alloc, number.as_str())? {
        Ok(Eprint::Address(number))
    } else {
        Ok(Eprint::Unread)
    }
}

// What a number of arXiv is.
fn arxiv_eprint(alloc: Global, number: &str) -> Result<Option<Eprint>, OutOfMemory>
    ensures { IfOk result (λ e. option_map eprint_view e
        ≡ option_map (λ n. eprint_arxiv n) (arxiv_bytes number.now)) }
{
    match number_of_arxiv(alloc, number)? {
        Some(number) => Ok(Some(Eprint::Arxiv(number))),
        None => Ok(None),
    }
}

// What a number is in the archive of this name, and of this text.
fn eprint_by(
    alloc: Global,
    name: &str,
    archive: Option<ChunkedString>,
    number: String,
) -> Result<Option<Eprint>, OutOfMemory>
    ensures { IfOk result (λ e. option_map eprint_view e
        ≡ eprint_by name.now (option_map chunks archive) (string_bytes number)) }
{
    if is_word("arxiv", name) {
        return arxiv_eprint(alloc, number.as_str());
    }
    if is_word("pubmed", name) || is_word("pmid", name) {
        return Ok(Some(Eprint::Pmid(number)));
    }
    if is_word("pmc", name) || is_word("pmcid", name) {
        return Ok(Some(Eprint::Pmcid(number)));
    }
    match archive {
        Some(archive) => Ok(Some(Eprint::Kept(archive, number))),
        None => Ok(None),
    }
}

// What a number is, by the name of its archive, if there is one.
fn eprint_of(
    alloc: Global,
    name: Option<String>,
    archive: Option<ChunkedString>,
    number: String,
) -> Result<Option<Eprint>, OutOfMemory>
    ensures { IfOk result (λ e. option_map eprint_view e
        ≡ eprint_of (option_map string_bytes name) (option_map chunks archive)
        (string_bytes number)) }
{
    match name {
        Some(name) => eprint_by(alloc, name.as_str(), archive, number),
        None => Ok(Some(eprint_alone(alloc, number)?)),
    }
}

/// What the number of an archive is, by the name of the archive, if that is there, in any case.
/// Nothing where nothing is left of the number.
///
/// | Number and archive | What it is |
/// |---|---|
/// | `arXiv:1234.5678`, `arXiv` | the number `1234.5678` of arXiv |
/// | `2324`, `jstor` | what the archive `jstor` has under `2324` |
/// | `http://a.b/c`, none | an address |
pub fn read_eprint(
    alloc: Global,
    number: &str,
    archive: Option<&str>,
) -> Result<Reading<Eprint>, OutOfMemory>
    ensures value { IfOk result (λ r. option_map eprint_view r.value
        ≡ eprint_in number.now (option_map (λ t. t.now) archive.entry)) }
    ensures unknown { IfOk result (λ r. map string_bytes r.unknown.items
        ≡ unknown_of (option_map (λ t. t.now) archive.entry)) }
{
    let number = read_standing(alloc, number)?;
    let Reading {
        value: name,
        unknown: _,
    } = plain_if_any(alloc, archive)?;
    let Reading {
        value: text,
        unknown,
    } = formatted_if_any(alloc, archive)?;
    let value = match number {
        Some(number) => eprint_of(alloc, name, text, number)?,
        None => None,
    };
    Ok(Reading { value, unknown })
}
