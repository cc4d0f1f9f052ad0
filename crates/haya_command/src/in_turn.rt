//! The answer of a list whose entries are asked in turn, as they are read, and let go.
ghost use Rattle.std.specs.Prelude.{◌≡◌, ◌<◌, ◌↔◌, ◌++◌, ◌∷◌, [], ℕ, List, false, IfOk, IfSome};
ghost use Rattle.std.specs.Prelude.{IsTrue, OnOk, string_bytes};
ghost use Rattle.std.specs.Str.{chars};
ghost use Rattle.hayagriva.specs.Reading.{TextReads};
ghost use Rattle.hayagriva.specs.Syntax.{Syntax};
ghost use Rattle.haya_command.specs.InTurn.{AnswersTexts, was_seen};
ghost use Rattle.haya_command.specs.Picks.{wanted};
ghost use Rattle.haya_command.specs.Reading.{texts};
ghost use Rattle.haya_command.specs.Streamable.{is_streamable};
ghost use Rattle.haya_command.specs.Streamed.{end_text, start_text};

use crate::answering::{Answer, count_line};
use crate::asker::{Asker, start};
use crate::error::CommandError;
use crate::hints::ParentsHint;
use crate::options::{Input, Options};
use crate::reading::check_notes;
use crate::seen_keys::SeenKeys;
use crate::told::InputNotes;
use haya_csl::{EntryTaker, take_csl_entries};
use haya_entry_stream::EntryAnswerer;
use haya_formats::{Format, format_for};
use haya_json::Notes;
use hayagriva::{Entry, HashKeys};
use std::alloc::Global;

/// An answer, and what is told beside it.
#[derive(Drop)]
pub(crate) struct ToldAnswer {
    /// The answer.
    pub(crate) answer: Answer,
    /// What is told of the inputs.
    pub(crate) told: Vec<InputNotes>,
    /// What was probably meant where no entry is found, or nothing.
    pub(crate) hint: String,
}

// What is asked of each entry, and what was printed of those before.
#[derive(Drop)]
struct Turns<'o> {
    asker: Asker<'o>,
    printed: String,
    seen: SeenKeys,
    hint: ParentsHint,
}

/// The answer of one text that is a list of items in CSL-JSON, whose entries are asked in turn and
/// let go, so that no library is made of them. `None` where that can't be: the input is another, a
/// key comes again, hits are to be sorted, told from others or bounded in number, the run is quiet,
/// there is any fault, or memory is out.
pub(crate) fn answer_in_turn(
    alloc: Global,
    keys: HashKeys,
    options: &Options,
    inputs: &[Input],
) -> Option<ToldAnswer>
    ensures { IfSome result (λ answered. AnswersTexts options.now (texts inputs.now)
        (string_bytes answered.answer.text) answered.answer.found) }
{
    let [input] = inputs else {
        return None;
    };
    if options.quiet || options.questions.max.is_some() {
        return None;
    }
    match answer_text(alloc, keys, options, input) {
        Ok(answered) => answered,
        Err(_) => None,
    }
}

// The same of this input; an error says nothing.
fn answer_text(
    alloc: Global,
    keys: HashKeys,
    options: &Options,
    input: &Input,
) -> Result<Option<ToldAnswer>, CommandError>
    ensures { IfOk result (λ o. IfSome o (λ answered. AnswersTexts options.now
        (string_bytes input.now.text ∷ [])
        (string_bytes answered.answer.text) answered.answer.found)) }
{
    let text = input.text.as_str();
    let format = format_for(alloc, options.from, text.as_bytes())?.keyed_by(options.key);
    let Format::CslJson(by) = format else {
        return Ok(None);
    };
    let mut turns = Turns::new(alloc, keys, options)?;
    let Some(notes) = take_csl_entries(alloc, keys, by, text, &mut turns) else {
        return Ok(None);
    };
    let notes = check_notes(alloc, options, input.name.as_str(), notes)?;
    Ok(Some(turns.into_answered(alloc, input.name.as_str(), notes)?))
}

impl<'o> Turns<'o> {
    // Of no entry.
    fn new(alloc: Global, keys: HashKeys, options: &'o Options) -> Result<Turns<'o>, CommandError>
        ensures selector { IfOk result (λ turns. (s : Syntax)
            × TextReads (chars (string_bytes options.now.selector)) s
            × (turns.asker.selector ≡ wanted options.now.invert s)) }
        ensures options { IfOk result (λ turns. turns.asker.options.now ≡ options.now) }
        ensures streamable { OnOk result (IsTrue (is_streamable options.now)) }
        ensures none { IfOk result (λ turns. turns.asker.hits ≡ 0) }
        ensures printed { IfOk result (λ turns.
            string_bytes turns.printed ≡ start_text options.now) }
        ensures unseen { IfOk result (λ turns.
            (key : List ℕ) → was_seen turns.seen key ≡ false) }
    {
        Ok(Turns {
            asker: Asker::new(alloc, keys, options)?,
            printed: start(alloc, options)?,
            seen: SeenKeys::new(alloc, keys),
            hint: ParentsHint::new(alloc, options.selector.as_str())?,
        })
    }

    // The answer when all entries were asked, with what is told of the input that is called so.
    fn into_answered(
        self,
        alloc: Global,
        name: &str,
        notes: Notes,
    ) -> Result<ToldAnswer, CommandError>
        ensures printed { IfOk result (λ answered. string_bytes answered.answer.text
            ≡ string_bytes self.entry.printed
            ++ end_text self.entry.asker.options.now self.entry.asker.hits) }
        ensures found { IfOk result (λ answered.
            IsTrue answered.answer.found ↔ (0 < self.entry.asker.hits)) }
    {
        let Turns {
            asker,
            mut printed,
            seen: _,
            hint,
        } = self;
        if asker.options.count && !asker.options.quiet {
            printed.push_str(count_line(alloc, asker.hits)?.as_str())?;
        }
        let mut told = Vec::new(alloc);
        told.push(InputNotes::new(alloc, name, notes)?)?;
        let found = asker.hits > 0;
        let hint = if found {
            String::new(alloc)
        } else {
            hint.into_text()
        };
        let notes = asker.left.text(alloc)?;
        Ok(ToldAnswer {
            answer: Answer {
                text: printed,
                found,
                notes,
            },
            told,
            hint,
        })
    }
}

impl<'o> EntryTaker for Turns<'o> {
    ghost use Rattle.haya_command.specs.InTurn.{AsksNew};

    ghost takes = { AsksNew };

    fn take(&mut self, entry: &Entry) -> bool {
        let alloc = self.asker.alloc;
        if self.asker.is_done() {
            return false;
        }
        if self.asker.hits == 0 && self.hint.see(alloc, entry).is_err() {
            return false;
        }
        match self.seen.is_new(alloc, entry.key()) {
            Ok(true) => self.asker.answer(entry, &mut self.printed).is_ok(),
            _ => false,
        }
    }
}
