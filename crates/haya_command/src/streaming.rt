//! The entries of inputs asked one after another, as they are read.
ghost use Rattle.std.specs.Prelude.{◌≡◌, ◌⊎◌, IfErr, IfOk, IsTrue, None, OnOk};
ghost use Rattle.haya_json.specs.Notes.{first_note, none_kept, notes_view};
ghost use Rattle.haya_command.specs.Reading.{IsLoss};
ghost use Rattle.haya_command.specs.Streamed.{AsksElements, AsksElementsPart, AsksFirst, AsksInput};
ghost use Rattle.haya_command.specs.Streamed.{AsksPart, IsStreamError};
ghost use Rattle.haya_formats.specs.declared.format.Format.TheVariants.{CslJson, Hayagriva};
ghost use Rattle.haya_formats.specs.declared.format.Format.TheVariants.{JsonLines, Lines};

use crate::asker::Asker;
use crate::element_readers::{ItemReader, MemberReader};
use crate::error::{CommandError, LibraryError};
use crate::json_reader::JsonReader;
use crate::reading::check_notes;
use haya_csl::ItemKey;
use haya_entry_stream::{ListError, Stopped, answer_elements, answer_entry_lines, answer_lines};
use haya_json::Notes;
use haya_json_elements::Brackets;
use haya_line_stream::StreamError;
use haya_printing::LinesError;
use std::alloc::Global;
use std::io::{Read, Write};

/// Where the asking of an input stops.
#[derive(Drop)]
pub struct Stop<'o> {
    /// Why.
    pub fault: CommandError,
    /// What is asked, as it is left there.
    pub asker: Asker<'o>,
    /// What is told of the input in front of the fault. Where that is the first that a strict run
    /// would tell, nothing.
    pub notes: Notes,
}

/// Asks each entry that the input lists in lines, as it is read, and prints what is to be printed
/// of the hits that are asked for. No more is read than it takes to find as many as are wanted, or,
/// in a quiet run, one. Keys that come again are not looked for: each entry is asked. The name is
/// what the input is called in a fault.
///
/// At a fault the entries in front of it are asked, and their hits stay printed.
pub fn ask_lines<'o, R: Read, W: Write>(
    asker: Asker<'o>,
    name: &str,
    input: &mut R,
    out: &mut W,
) -> Result<Asker<'o>, Stop<'o>>
    ensures options { IfOk result (λ done. done.options.now ≡ asker.entry.options.now) }
    ensures selector { IfOk result (λ done. done.selector ≡ asker.entry.selector) }
    ensures asks { IfOk result (λ done.
        AsksInput Lines asker.entry.options.now asker.entry.selector asker.entry.hits done.hits
        none_kept (R.remaining input.old) (R.remaining input.new)
        (W.contents out.old) (W.contents out.new)
        ⊎ AsksFirst Lines asker.entry.options.now asker.entry.selector asker.entry.hits
        done.hits (R.remaining input.old) (R.remaining input.new)
        (W.contents out.old) (W.contents out.new)) }
    ensures part { IfErr result (λ stop.
        AsksPart Lines name.now asker.entry.options.now asker.entry.selector asker.entry.hits
        (notes_view stop.notes) (R.remaining input.old) (R.remaining input.new)
        (W.contents out.old) (W.contents out.new) stop.fault) }
{
    let alloc = asker.alloc;
    match answer_lines(alloc, asker, input, out) {
        Ok(asked) => Ok(asked),
        Err(stopped) => {
            let Stopped {
                fault,
                answerer,
                reader: _,
            } = stopped;
            let notes = Notes::with_hash_keys(alloc, answerer.keys);
            Err(Stop {
                fault: list_fault(alloc, name, fault),
                asker: answerer,
                notes,
            })
        }
    }
}

/// The same of an input in lines of JSON, with what is told of it. In a strict run the first that
/// is told is a fault, when the input has ended.
pub fn ask_json_lines<'o, R: Read, W: Write>(
    asker: Asker<'o>,
    name: &str,
    input: &mut R,
    out: &mut W,
) -> Result<(Asker<'o>, Notes), Stop<'o>>
    ensures options { IfOk result (λ done. done.0.options.now ≡ asker.entry.options.now) }
    ensures selector { IfOk result (λ done. done.0.selector ≡ asker.entry.selector) }
    ensures asks { IfOk result (λ done.
        AsksInput JsonLines asker.entry.options.now asker.entry.selector asker.entry.hits
        done.0.hits (notes_view done.1) (R.remaining input.old) (R.remaining input.new)
        (W.contents out.old) (W.contents out.new)
        ⊎ AsksFirst JsonLines asker.entry.options.now asker.entry.selector asker.entry.hits
        done.0.hits (R.remaining input.old) (R.remaining input.new)
        (W.contents out.old) (W.contents out.new)) }
    ensures part { IfErr result (λ stop.
        AsksPart JsonLines name.now asker.entry.options.now asker.entry.selector asker.entry.hits
        (notes_view stop.notes) (R.remaining input.old) (R.remaining input.new)
        (W.contents out.old) (W.contents out.new) stop.fault) }
{
    let alloc = asker.alloc;
    match answer_entry_lines(alloc, JsonReader::new(alloc, asker.keys), asker, input, out) {
        Ok((asked, reader)) => noted(asked, name, reader.notes),
        Err(stopped) => {
            let Stopped {
                fault,
                answerer,
                reader,
            } = stopped;
            Err(Stop {
                fault: list_fault(alloc, name, fault),
                asker: answerer,
                notes: reader.notes,
            })
        }
    }
}

/// The same of an input in CSL-JSON that is a list of items, whose entries have this member as key:
/// each item is asked as it is read. What is printed is a contract where the bytes of the input are
/// known.
pub fn ask_csl_json<'o, R: Read, W: Write>(
    asker: Asker<'o>,
    key: ItemKey,
    name: &str,
    input: &mut R,
    out: &mut W,
) -> Result<(Asker<'o>, Notes), Stop<'o>>
    ensures asks { IfOk result (λ done. AsksElements (CslJson key) asker.entry.options.now
        done.0.options.now asker.entry.selector done.0.selector asker.entry.hits done.0.hits
        (notes_view done.1) (R.remaining input.old) (R.remaining input.new) (W.contents out.old)
        (W.contents out.new)) }
    ensures part { IfErr result (λ stop. AsksElementsPart (CslJson key) name.now
        asker.entry.options.now asker.entry.selector asker.entry.hits (notes_view stop.notes)
        (R.remaining input.old) (W.contents out.old) (W.contents out.new) stop.fault) }
{
    let alloc = asker.alloc;
    match answer_elements(
        alloc,
        Brackets::Square,
        ItemReader::new(alloc, asker.keys, key),
        asker,
        input,
        out,
    ) {
        Ok((asked, items)) => noted(asked, name, items.notes),
        Err(stopped) => {
            let Stopped {
                fault,
                answerer,
                reader,
            } = stopped;
            Err(Stop {
                fault: list_fault(alloc, name, fault),
                asker: answerer,
                notes: reader.notes,
            })
        }
    }
}

/// The same of an input in hayagriva's format: each member of its object is asked as it is read.
pub fn ask_hayagriva<'o, R: Read, W: Write>(
    asker: Asker<'o>,
    name: &str,
    input: &mut R,
    out: &mut W,
) -> Result<(Asker<'o>, Notes), Stop<'o>>
    ensures asks { IfOk result (λ done. AsksElements Hayagriva asker.entry.options.now
        done.0.options.now asker.entry.selector done.0.selector asker.entry.hits done.0.hits
        (notes_view done.1) (R.remaining input.old) (R.remaining input.new) (W.contents out.old)
        (W.contents out.new)) }
    ensures part { IfErr result (λ stop. AsksElementsPart Hayagriva name.now
        asker.entry.options.now asker.entry.selector asker.entry.hits (notes_view stop.notes)
        (R.remaining input.old) (W.contents out.old) (W.contents out.new) stop.fault) }
{
    let alloc = asker.alloc;
    match answer_elements(
        alloc,
        Brackets::Curly,
        MemberReader::new(alloc, asker.keys),
        asker,
        input,
        out,
    ) {
        Ok((asked, members)) => noted(asked, name, members.notes),
        Err(stopped) => {
            let Stopped {
                fault,
                answerer,
                reader,
            } = stopped;
            Err(Stop {
                fault: list_fault(alloc, name, fault),
                asker: answerer,
                notes: reader.notes,
            })
        }
    }
}

// What is told of an input that is asked; in a strict run the first of this is a fault.
fn noted<'o>(asker: Asker<'o>, name: &str, told: Notes) -> Result<(Asker<'o>, Notes), Stop<'o>>
    ensures asker { IfOk result (λ done. done.0 ≡ asker.entry) }
    ensures same { IfOk result (λ done. notes_view done.1 ≡ notes_view told) }
    ensures none { OnOk result
        (IsTrue asker.entry.options.now.strict → first_note (notes_view told) ≡ None) }
    ensures fault { IfErr result (λ stop. (stop.fault ≡ CommandError.OutOfMemory)
        ⊎ (IsTrue asker.entry.options.now.strict
        × IsLoss name.now (notes_view told) stop.fault)) }
    ensures nothing { IfErr result (λ stop. notes_view stop.notes ≡ none_kept) }
{
    let alloc = asker.alloc;
    match check_notes(alloc, asker.options, name, told) {
        Ok(notes) => Ok((asker, notes)),
        Err(fault) => {
            let notes = Notes::with_hash_keys(alloc, asker.keys);
            Err(Stop {
                fault,
                asker,
                notes,
            })
        }
    }
}

// The fault of the input that is called so, at which its stream stops.
fn list_fault<L: Into<LibraryError> + Drop>(
    alloc: Global,
    name: &str,
    fault: StreamError<ListError<L, LinesError>>,
) -> CommandError
    ensures { (result ≡ CommandError.OutOfMemory) ⊎ IsStreamError L.converts name.now fault result }
{
    let Ok(name) = String::from_str(alloc, name) else {
        return CommandError::OutOfMemory;
    };
    match fault {
        StreamError::CannotRead(error) => CommandError::of_read(name, error),
        StreamError::NotText => CommandError::NotText(name),
        StreamError::Refused(ListError::Line(error)) => CommandError::Input(name, error.into()),
        StreamError::Refused(ListError::Entry(error)) => CommandError::NotPrintable(error),
        StreamError::CannotWrite(fault) => CommandError::from(fault),
        StreamError::OutOfMemory => CommandError::OutOfMemory,
    }
}
