//! What a library answers.
ghost use Rattle.std.specs.Prelude.{◌≡◌, [], ◌∷◌, ◌++◌, decimal, IfErr, IfOk, IsOkUnless};
ghost use Rattle.std.specs.Prelude.{string_bytes};
ghost use Rattle.haya_asked.specs.Asked.{AreAsked};
ghost use Rattle.haya_command.specs.Answer.{IsAnswer, IsAnswerFault, IsShown, IsWritten};
ghost use Rattle.haya_command.specs.declared.error.CommandError.TheVariants.{OutOfMemory as memory};
ghost use Rattle.haya_lines.specs.Signs.{line_feed};

use crate::error::CommandError;
use crate::left::LeftNotes;
use crate::options::Options;
use crate::picking::picks;
use crate::printing::hits_text;
use haya_asked::Questions;
use haya_asked::laws::all_are_asked;
use haya_text::OutOfMemory;
use hayagriva::{HashKeys, Hit, Library};
use std::alloc::Global;

/// What is printed, and whether an entry is found.
#[derive(Debug, Drop, PartialEq, Eq)]
pub struct Answer {
    /// The text that is printed.
    pub text: String,
    /// Whether there is a hit.
    pub found: bool,
    /// What lines leave out of the hits, if anything.
    pub notes: String,
}

/// The answer of a library to what is asked. A map of values hashes with the keys. `Selector`: the
/// selector's text is none. `NotPrintable`: in a strict run a hit can't be printed in lines.
pub fn ask(
    alloc: Global,
    keys: HashKeys,
    library: &Library,
    options: &Options,
) -> Result<Answer, CommandError>
    ensures answer { IfOk result (λ answer.
        IsAnswer options.now library.now (string_bytes answer.text) answer.found) }
    ensures fault { IfErr result (IsAnswerFault options.now) }
{
    let hits = match picks(alloc, library, options.selector.as_str(), options.invert) {
        Ok(hits) => hits,
        Err(error) => return Err(CommandError::Selector(error)),
    };
    let asked = asked_hits(alloc, keys, hits, &options.questions)?;
    let found = !asked.is_empty();
    let mut left = LeftNotes::new(alloc);
    let text = shown(alloc, asked.as_slice(), options, &mut left)?;
    let notes = left.text(alloc)?;
    Ok(Answer { text, found, notes })
}

/// The hits that are asked for.
pub(crate) fn asked_hits<'l>(
    alloc: Global,
    keys: HashKeys,
    hits: Vec<Hit<'l>>,
    questions: &Questions,
) -> Result<Vec<Hit<'l>>, OutOfMemory>
    ensures { IfOk result (λ asked. AreAsked questions.now hits.entry.items asked.items) }
{
    all_are_asked();
    if questions.asks_nothing() {
        return Ok(hits);
    }
    questions.asked_hits(alloc, keys, hits)
}

// What is printed of the hits.
fn shown(
    alloc: Global,
    hits: &[Hit],
    options: &Options,
    left: &mut LeftNotes,
) -> Result<String, CommandError>
    ensures shown { IfOk result (λ text. IsShown options.now hits.now (string_bytes text)) }
    ensures fault { IfErr result (IsAnswerFault options.now) }
{
    if options.quiet {
        return Ok(String::new(alloc));
    }
    if options.count {
        return count_line(alloc, hits.len());
    }
    written(alloc, hits, options, left)
}

// The hits in their table, or in the form.
fn written(
    alloc: Global,
    hits: &[Hit],
    options: &Options,
    left: &mut LeftNotes,
) -> Result<String, CommandError>
    ensures written { IfOk result (λ text.
        IsWritten options.now options.now.columns hits.now (string_bytes text)) }
    ensures fault { IfErr result (IsAnswerFault options.now) }
{
    if let Some(columns) = &options.columns {
        return Ok(columns.text(alloc, hits)?);
    }
    match hits_text(alloc, hits, options.to, options.strict, left) {
        Ok(text) => Ok(text),
        Err(error) => Err(CommandError::NotPrintable(error)),
    }
}

/// A number in a line of its own.
pub(crate) fn count_line(alloc: Global, count: usize) -> Result<String, CommandError>
    ensures line { IfOk result (λ text. string_bytes text ≡ decimal count ++ line_feed ∷ []) }
    ensures error { IsOkUnless result memory }
{
    Ok(format!(in alloc; "{count}\n")?)
}
