//! What a library answers by the `.bib` texts that it was read from.
ghost use Rattle.std.specs.Prelude.{◌≡◌, IfOk, IsTrue, map, string_bytes};
ghost use Rattle.haya_command.specs.BibtexSource.{AreBibtex, IsBibtexAnswer, IsBibtexShown};
ghost use Rattle.haya_command.specs.BibtexSource.{IsBibtexSource};
ghost use Rattle.haya_command.specs.Reading.{format_in, texts};
ghost use Rattle.haya_formats.specs.declared.format.Format.TheVariants.{Bibtex};

use crate::answering::{Answer, asked_hits, count_line};
use crate::error::CommandError;
use crate::options::{Input, Options};
use crate::picking::picks;
use crate::source_error::SourceError;
use crate::sources::{format_of, source_fault};
use haya_bibtex_slices::{items_of, picked_text};
use haya_formats::Format;
use haya_text::OutOfMemory;
use hayagriva::{HashKeys, Hit, Library};
use std::alloc::Global;

/// Whether there is an input and all are `.bib` texts.
///
/// `Source`: some are, and this input is of another kind than the first.
pub(crate) fn are_bibtex(
    alloc: Global,
    options: &Options,
    inputs: &[Input],
) -> Result<bool, CommandError>
    ensures { IfOk result (λ are. IsTrue are → AreBibtex options.now (texts inputs.now)) }
{
    let Some(first) = inputs.first() else {
        return Ok(false);
    };
    if all_are_bibtex(alloc, options, inputs)? {
        return Ok(true);
    }
    let format = format_of(alloc, options, first)?;
    'inputs: for input in inputs {
        let other = format_of(alloc, options, input)?;
        if matches!(other, Format::Bibtex) != matches!(format, Format::Bibtex) {
            let error = SourceError::OtherFormat(other, format);
            return Err(source_fault(alloc, input, error));
        }
    }
    Ok(false)
}

// Whether all inputs are `.bib` texts.
fn all_are_bibtex(alloc: Global, options: &Options, inputs: &[Input]) -> Result<bool, OutOfMemory>
    ensures { IfOk result (λ are. IsTrue are → AreBibtex options.now (texts inputs.now)) }
{
    'inputs: for input in inputs {
        if !is_bibtex(alloc, options, input)? {
            return Ok(false);
        }
    }
    Ok(true)
}

// Whether an input is a `.bib` text.
fn is_bibtex(alloc: Global, options: &Options, input: &Input) -> Result<bool, OutOfMemory>
    ensures { IfOk result (λ is. IsTrue is →
        format_in options.now (string_bytes input.now.text) ≡ Bibtex) }
{
    let format = format_of(alloc, options, input)?;
    Ok(matches!(format, Format::Bibtex))
}

/// The answer of a library to what is asked, by the `.bib` inputs that it was read from. A map of
/// values hashes with the keys. `Selector`: the selector's text is none. `NoPart`: the items of an
/// input can't be told apart. `OtherTogether`: the hits' entries, put together, say something else.
pub(crate) fn ask_bibtex(
    alloc: Global,
    keys: HashKeys,
    library: &Library,
    options: &Options,
    inputs: &[Input],
) -> Result<Answer, CommandError>
    ensures { IfOk result (λ answer. IsBibtexAnswer options.now (texts inputs.now) library.now
        (string_bytes answer.text) answer.found) }
{
    let hits = match picks(alloc, library, options.selector.as_str(), options.invert) {
        Ok(hits) => hits,
        Err(error) => return Err(CommandError::Selector(error)),
    };
    let asked = asked_hits(alloc, keys, hits, &options.questions)?;
    let found = !asked.is_empty();
    let text = shown(alloc, keys, asked.as_slice(), options, inputs)?;
    Ok(Answer {
        text,
        found,
        notes: String::new(alloc),
    })
}

// What is printed of the hits.
fn shown(
    alloc: Global,
    keys: HashKeys,
    hits: &[Hit],
    options: &Options,
    inputs: &[Input],
) -> Result<String, CommandError>
    ensures { IfOk result (λ text.
        IsBibtexShown options.now (texts inputs.now) hits.now (string_bytes text)) }
{
    if options.quiet {
        return Ok(String::new(alloc));
    }
    if options.count {
        return count_line(alloc, hits.len());
    }
    bibtex_text(alloc, keys, hits, inputs)
}

// The entries of the hits as one text.
fn bibtex_text(
    alloc: Global,
    keys: HashKeys,
    hits: &[Hit],
    inputs: &[Input],
) -> Result<String, CommandError>
    ensures { IfOk result (λ text.
        IsBibtexSource (texts inputs.now) hits.now (string_bytes text)) }
{
    let texts = texts_of(alloc, inputs)?;
    let Some(items) = items_of(alloc, texts.as_slice())? else {
        return Err(CommandError::NoPart);
    };
    match picked_text(alloc, keys, items.as_slice(), hits)? {
        Some(text) => Ok(text),
        None => Err(CommandError::OtherTogether),
    }
}

// The texts of inputs.
fn texts_of<'t>(alloc: Global, inputs: &'t [Input]) -> Result<Vec<&'t str>, OutOfMemory>
    ensures { IfOk result (λ found. map (λ s. s.now) found.items ≡ texts inputs.now) }
{
    let mut found = Vec::new(alloc);
    'inputs: for input in inputs {
        found.push(input.text.as_str())?;
    }
    Ok(found)
}
