//! A whole run, but for where its words and its texts come from.
ghost use Rattle.std.specs.Prelude.{◌≡◌, ◌≤◌, ◌++◌, ℕ, List, false, true, IfOk, IsTrue, OnErr};
ghost use Rattle.std.specs.Prelude.{OnOk, Some, string_bytes};
ghost use Rattle.std.specs.Io.KnownBytes.{Appends, Keeps};
ghost use Rattle.haya_command.specs.InTurn.{AnswersTexts};
ghost use Rattle.haya_command.specs.Reading.{texts};
ghost use Rattle.haya_command.specs.Run.{Prints, Stands};
ghost use Rattle.haya_command.specs.SelectorText.{IsOneSelector};
ghost use Rattle.haya_command.specs.BibtexSource.{PrintsBibtex};
ghost use Rattle.haya_command.specs.Source.{Answered, Halted, HaltedInBibtex, HaltedInSource};
ghost use Rattle.haya_command.specs.Source.{PrintsSource};

use crate::answering::{Answer, ask};
use crate::bibtex_answering::{are_bibtex, ask_bibtex};
use crate::error::CommandError;
use crate::hints::{parents_hint, warnings};
use crate::in_turn::{ToldAnswer, answer_in_turn};
use crate::notes::fault_text;
use crate::options::{Input, Options};
use crate::reading::{Collected, read_inputs};
use crate::selector_text::check_selector;
use crate::source_answering::ask_source;
use crate::source_form::SourceForm;
use crate::sources::{Sources, kind_of_inputs, read_sources};
use crate::told::{InputNotes, told_text};
use haya_line_stream::write_text;
use hayagriva::{HashKeys, Library};
use std::alloc::Global;
use std::io::Write;
use std::mem;

/// Reads the inputs as a library, asks it, and prints its answer. The answer is the status that the
/// process is to end with: 0 where there is a hit, 1 where there is none, 2 at a fault. Nothing is
/// printed before all inputs are read. Messages go to `err`, where the run isn't quiet.
pub fn run<W: Write, E: Write>(
    alloc: Global,
    keys: HashKeys,
    options: &Options,
    inputs: &[Input],
    out: &mut W,
    err: &mut E,
) -> u8
    ensures hit { result ≡ 0 → Answered options.now.source options.now (texts inputs.now)
        (W.contents out.old) (W.contents out.new) true }
    ensures none { result ≡ 1 → Answered options.now.source options.now (texts inputs.now)
        (W.contents out.old) (W.contents out.new) false }
    ensures fault { result ≡ 2 → Halted options.now.source options.now (texts inputs.now)
        (W.contents out.old) (W.contents out.new) }
    ensures status { result ≤ 2 }
    ensures alone { result ≤ 1 → IsOneSelector (string_bytes options.now.selector) }
    ensures quiet { IsTrue options.now.quiet →
        Keeps (E.contents err.old) (E.contents err.new) }
{
    let printed = match options.source {
        Some(form) => print_as_source(alloc, keys, options, form, inputs, out, err),
        None => print_answer(alloc, keys, options, inputs, out, err),
    };
    match printed {
        Ok(true) => 0,
        Ok(false) => 1,
        Err(fault) => complain(alloc, options, &fault, err),
    }
}

/// Tells a fault, where the run isn't quiet and somebody reads what it prints. The answer is the
/// status that the process is to end with, 2.
pub fn complain<E: Write>(alloc: Global, options: &Options, fault: &CommandError, err: &mut E) -> u8
    ensures status { result ≡ 2 }
    ensures quiet { IsTrue options.now.quiet →
        Keeps (E.contents err.old) (E.contents err.new) }
{
    if options.quiet || matches!(fault, CommandError::Closed) {
        return 2;
    }
    match fault_text(alloc, options.selector.as_str(), fault) {
        Ok(text) => tell(err, text.as_str()),
        Err(_) => tell(err, "haya: out of memory\n"),
    }
    2
}

// Writes a message. Where this fails, the status says it all.
fn tell<E: Write>(err: &mut E, text: &str) {
    let _ = write_text(err, text);
}

// Prints the answer, and says whether an entry is found.
fn print_answer<W: Write, E: Write>(
    alloc: Global,
    keys: HashKeys,
    options: &Options,
    inputs: &[Input],
    out: &mut W,
    err: &mut E,
) -> Result<bool, CommandError>
    ensures answer { IfOk result (λ found. Prints options.now (texts inputs.now)
        (W.contents out.old) (W.contents out.new) found) }
    ensures fault { OnErr result (Stands options.now (texts inputs.now)
        (W.contents out.old) (W.contents out.new)) }
    ensures alone { OnOk result (IsOneSelector (string_bytes options.now.selector)) }
    ensures quiet { IsTrue options.now.quiet →
        Keeps (E.contents err.old) (E.contents err.new) }
{
    check_selector(alloc, options.selector.as_str())?;
    let ToldAnswer { answer, told, hint } = answer(alloc, keys, options, inputs)?;
    print_told(
        alloc,
        options,
        told.as_slice(),
        &answer,
        hint.as_str(),
        out,
        err,
    )?;
    Ok(answer.found)
}

// The answer of the inputs: in turn where that can be, and otherwise of their library.
fn answer(
    alloc: Global,
    keys: HashKeys,
    options: &Options,
    inputs: &[Input],
) -> Result<ToldAnswer, CommandError>
    ensures { IfOk result (λ answered. AnswersTexts options.now (texts inputs.now)
        (string_bytes answered.answer.text) answered.answer.found) }
{
    match answer_in_turn(alloc, keys, options, inputs) {
        Some(answered) => Ok(answered),
        None => answer_whole(alloc, keys, options, inputs),
    }
}

// The answer of the library that the inputs are read as.
fn answer_whole(
    alloc: Global,
    keys: HashKeys,
    options: &Options,
    inputs: &[Input],
) -> Result<ToldAnswer, CommandError>
    ensures { IfOk result (λ answered. AnswersTexts options.now (texts inputs.now)
        (string_bytes answered.answer.text) answered.answer.found) }
{
    let Collected { library, told } = read_inputs(alloc, keys, options, inputs)?;
    let asked = ask(alloc, keys, &library, options);
    let hint = hint_for(alloc, options, &library, &asked);
    // The process ends with this answer, and gives all memory back at once: entry by entry that
    // takes longer than any selector.
    mem::forget(library);
    Ok(ToldAnswer {
        answer: asked?,
        told,
        hint,
    })
}

// Prints the answer as the inputs have it, in this form, and says whether an entry is found: by items
// of `.bib` texts where all are such, and otherwise by elements.
fn print_as_source<W: Write, E: Write>(
    alloc: Global,
    keys: HashKeys,
    options: &Options,
    form: SourceForm,
    inputs: &[Input],
    out: &mut W,
    err: &mut E,
) -> Result<bool, CommandError>
    ensures answer { IfOk result (λ found. Answered (Some form) options.now (texts inputs.now)
        (W.contents out.old) (W.contents out.new) found) }
    ensures fault { OnErr result (Halted (Some form) options.now (texts inputs.now)
        (W.contents out.old) (W.contents out.new)) }
    ensures alone { OnOk result (IsOneSelector (string_bytes options.now.selector)) }
    ensures quiet { IsTrue options.now.quiet →
        Keeps (E.contents err.old) (E.contents err.new) }
{
    if let SourceForm::Source = form {
        if are_bibtex(alloc, options, inputs)? {
            return print_bibtex(alloc, keys, options, inputs, out, err);
        }
    }
    print_source(alloc, keys, options, form, inputs, out, err)
}

// Prints the answer as `.bib` inputs have it, and says whether an entry is found.
fn print_bibtex<W: Write, E: Write>(
    alloc: Global,
    keys: HashKeys,
    options: &Options,
    inputs: &[Input],
    out: &mut W,
    err: &mut E,
) -> Result<bool, CommandError>
    ensures answer { IfOk result (λ found. PrintsBibtex options.now (texts inputs.now)
        (W.contents out.old) (W.contents out.new) found) }
    ensures fault { OnErr result (HaltedInBibtex options.now (texts inputs.now)
        (W.contents out.old) (W.contents out.new)) }
    ensures alone { OnOk result (IsOneSelector (string_bytes options.now.selector)) }
    ensures quiet { IsTrue options.now.quiet →
        Keeps (E.contents err.old) (E.contents err.new) }
{
    check_selector(alloc, options.selector.as_str())?;
    let Collected { library, told } = read_inputs(alloc, keys, options, inputs)?;
    let asked = ask_bibtex(alloc, keys, &library, options, inputs);
    let hint = hint_for(alloc, options, &library, &asked);
    mem::forget(library);
    let answer = asked?;
    print_told(
        alloc,
        options,
        told.as_slice(),
        &answer,
        hint.as_str(),
        out,
        err,
    )?;
    Ok(answer.found)
}

// Prints the answer as the inputs have it, in this form, and says whether an entry is found.
fn print_source<W: Write, E: Write>(
    alloc: Global,
    keys: HashKeys,
    options: &Options,
    form: SourceForm,
    inputs: &[Input],
    out: &mut W,
    err: &mut E,
) -> Result<bool, CommandError>
    ensures answer { IfOk result (λ found. PrintsSource options.now form (texts inputs.now)
        (W.contents out.old) (W.contents out.new) found) }
    ensures fault { OnErr result (HaltedInSource form options.now (texts inputs.now)
        (W.contents out.old) (W.contents out.new)) }
    ensures alone { OnOk result (IsOneSelector (string_bytes options.now.selector)) }
    ensures quiet { IsTrue options.now.quiet →
        Keeps (E.contents err.old) (E.contents err.new) }
{
    check_selector(alloc, options.selector.as_str())?;
    let kind = kind_of_inputs(alloc, options, form, inputs)?;
    let sources = read_sources(alloc, keys, options, kind, inputs)?;
    let asked = ask_source(alloc, keys, options, kind, &sources);
    let hint = hint_for(alloc, options, &sources.library, &asked);
    let Sources {
        library,
        told,
        elements,
    } = sources;
    mem::forget(library);
    mem::forget(elements);
    let answer = asked?;
    print_told(
        alloc,
        options,
        told.as_slice(),
        &answer,
        hint.as_str(),
        out,
        err,
    )?;
    Ok(answer.found)
}

// Tells what the inputs and the answer want told, and what was probably meant; then prints the
// answer. Where a write fails, a first part of it is printed.
fn print_told<W: Write, E: Write>(
    alloc: Global,
    options: &Options,
    told: &[InputNotes],
    answer: &Answer,
    hint: &str,
    out: &mut W,
    err: &mut E,
) -> Result<(), CommandError>
    ensures written { OnOk result
        (Appends (W.contents out.old) (W.contents out.new) (string_bytes answer.now.text)) }
    ensures begun { OnErr result ((first : List ℕ) × (rest : List ℕ)
        × (string_bytes answer.now.text ≡ first ++ rest)
        × Appends (W.contents out.old) (W.contents out.new) first) }
    ensures quiet { IsTrue options.now.quiet →
        Keeps (E.contents err.old) (E.contents err.new) }
{
    let notes = told_text(alloc, told)?;
    tell_notes(options, notes.as_str(), err);
    tell_notes(options, answer.notes.as_str(), err);
    warn(alloc, options, err);
    tell_notes(options, hint, err);
    write_text(out, answer.text.as_str())?;
    Ok(())
}

// What was probably meant where no entry is found. Without memory there is no hint.
fn hint_for(
    alloc: Global,
    options: &Options,
    library: &Library,
    asked: &Result<Answer, CommandError>,
) -> String {
    match asked {
        Ok(answer) if !answer.found => {
            match parents_hint(alloc, library, options.selector.as_str()) {
                Ok(hint) => hint,
                Err(_) => String::new(alloc),
            }
        }
        _ => String::new(alloc),
    }
}

/// Tells what was passed over; nothing in a quiet run, or in one without notes.
pub fn tell_notes<E: Write>(options: &Options, notes: &str, err: &mut E)
    ensures { IsTrue options.now.quiet → Keeps (E.contents err.old) (E.contents err.new) }
{
    if !options.quiet && options.notes {
        tell(err, notes);
    }
}

/// Tells what the selector asks for in vain; nothing in a quiet run.
pub fn warn<E: Write>(alloc: Global, options: &Options, err: &mut E)
    ensures { IsTrue options.now.quiet → Keeps (E.contents err.old) (E.contents err.new) }
{
    if options.quiet || !options.notes {
        return;
    }
    if let Ok(text) = warnings(alloc, options.selector.as_str()) {
        tell(err, text.as_str());
    }
}
