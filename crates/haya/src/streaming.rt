//! Asks the entries of files one after another, as they are read.
use haya_command::{
    Asker, CommandError, InputNotes, Options, Stop, ask_csl_json, ask_hayagriva, ask_json_lines,
    ask_lines, begin_asking, check_selector, complain, end_asking, input_format, tell_notes,
    told_text, warn,
};
use haya_formats::{Format, MARKED_BLOCK, SIGNATURE_LEN, STANDARD_INPUT, read_block, without_mark};
use haya_json::Notes;
use haya_text::OutOfMemory;
use hayagriva::HashKeys;
use std::alloc::Global;
use std::fs::File;
use std::io;
use std::io::{Cursor, Read, Write};
use std::rt::Files;

/// Prints the hits of the entries of these files in turn, of standard input for `-` or where there
/// is no file. The answer is the status that the process is to end with.
pub fn stream<F: Files, R: Read, W: Write, E: Write>(
    alloc: Global,
    rt: &F,
    keys: HashKeys,
    options: &Options,
    stdin: &mut R,
    out: &mut W,
    err: &mut E,
) -> u8 {
    match print_hits(alloc, rt, keys, options, stdin, out, err) {
        Ok(true) => 0,
        Ok(false) => 1,
        Err(fault) => complain(alloc, options, &fault, err),
    }
}

// A fault, and what was asked up to it.
#[derive(Drop)]
struct Halt<'o> {
    fault: CommandError,
    asker: Asker<'o>,
}

// Prints the hits, and says whether there is one. At a fault what was left out of the input and of
// the hits in front of it is told before the fault is.
fn print_hits<F: Files, R: Read, W: Write, E: Write>(
    alloc: Global,
    rt: &F,
    keys: HashKeys,
    options: &Options,
    stdin: &mut R,
    out: &mut W,
    err: &mut E,
) -> Result<bool, CommandError> {
    check_selector(alloc, options.selector.as_str())?;
    let asker = Asker::new(alloc, keys, options)?;
    warn(alloc, options, err);
    begin_asking(&asker, out)?;
    ended(
        alloc,
        ask_files(alloc, rt, asker, stdin, out, err),
        out,
        err,
    )
}

// Prints what is behind the hits, and says whether there is one.
fn ended<W: Write, E: Write>(
    alloc: Global,
    asked: Result<Asker<'_>, Halt<'_>>,
    out: &mut W,
    err: &mut E,
) -> Result<bool, CommandError> {
    match asked {
        Ok(asker) => {
            tell_left(alloc, &asker, err)?;
            end_asking(asker, out)
        }
        Err(halt) => Err(fault_of(alloc, halt, err)),
    }
}

// The fault. What lines leave out of the hits in front of it is told, but where nobody reads what is
// printed.
fn fault_of<E: Write>(alloc: Global, halt: Halt<'_>, err: &mut E) -> CommandError {
    let Halt { fault, asker } = halt;
    if matches!(fault, CommandError::Closed) {
        return fault;
    }
    match tell_left(alloc, &asker, err) {
        Ok(()) => fault,
        Err(_) => CommandError::OutOfMemory,
    }
}

// Tells what lines leave out of the hits that are printed.
fn tell_left<E: Write>(alloc: Global, asker: &Asker<'_>, err: &mut E) -> Result<(), OutOfMemory> {
    let text = asker.left.text(alloc)?;
    tell_notes(asker.options, text.as_str(), err);
    Ok(())
}

// Asks the entries of all files, or of standard input where there is none, until enough is found.
fn ask_files<'o, F: Files, R: Read, W: Write, E: Write>(
    alloc: Global,
    rt: &F,
    mut asker: Asker<'o>,
    stdin: &mut R,
    out: &mut W,
    err: &mut E,
) -> Result<Asker<'o>, Halt<'o>> {
    let options = asker.options;
    if options.files.is_empty() && !options.has_enough(asker.hits) {
        return ask_input(alloc, asker, STANDARD_INPUT, stdin, out, err);
    }
    for file in &options.files {
        if options.has_enough(asker.hits) {
            break;
        }
        asker = ask_file(alloc, rt, asker, file.as_str(), &mut *stdin, out, err)?;
    }
    Ok(asker)
}

// Asks the entries of a file, or of standard input.
fn ask_file<'o, F: Files, R: Read, W: Write, E: Write>(
    alloc: Global,
    rt: &F,
    asker: Asker<'o>,
    name: &str,
    stdin: &mut R,
    out: &mut W,
    err: &mut E,
) -> Result<Asker<'o>, Halt<'o>> {
    if name == "-" {
        return ask_input(alloc, asker, STANDARD_INPUT, stdin, out, err);
    }
    match File::open(rt, name) {
        Ok(file) => ask_input(alloc, asker, name, file, out, err),
        Err(error) => {
            let fault = read_fault(alloc, name, error);
            Err(Halt { fault, asker })
        }
    }
}

/// The fault that the input that is called so can't be read.
pub(crate) fn read_fault(alloc: Global, name: &str, error: io::Error) -> CommandError {
    match String::from_str(alloc, name) {
        Ok(name) => CommandError::of_read(name, error),
        Err(_) => CommandError::OutOfMemory,
    }
}

// Asks the entries of an input that is called so, in the format that is given, otherwise the one
// that is guessed from its first block, and tells what is passed over of it. Nothing is asked before
// so many bytes are there as tell the format.
fn ask_input<'o, R: Read + Drop, W: Write, E: Write>(
    alloc: Global,
    asker: Asker<'o>,
    name: &str,
    mut input: R,
    out: &mut W,
    err: &mut E,
) -> Result<Asker<'o>, Halt<'o>> {
    match begun(alloc, asker.options, name, &mut input) {
        Ok((first, format)) => {
            let whole = Cursor::new(first).chain(input);
            ask_rest(alloc, asker, name, format, whole, out, err)
        }
        Err(fault) => Err(Halt { fault, asker }),
    }
}

/// The first bytes of an input that is called so, and its format.
pub(crate) fn begun<R: Read>(
    alloc: Global,
    options: &Options,
    name: &str,
    input: &mut R,
) -> Result<(Vec<u8>, Format), CommandError> {
    let first = first_bytes(alloc, name, options.from, input)?;
    let format = input_format(alloc, name, options.from, first.as_slice())?;
    Ok((first, format.keyed_by(options.key)))
}

// The first bytes of an input that is called so, without a byte order mark: so many as tell its
// format, or, where that is given, whether it is in another encoding, or an archive.
fn first_bytes<R: Read>(
    alloc: Global,
    name: &str,
    given: Option<Format>,
    input: &mut R,
) -> Result<Vec<u8>, CommandError> {
    let mut block = [0u8; MARKED_BLOCK];
    let most = match given {
        None | Some(Format::Hayagriva) => MARKED_BLOCK,
        Some(_) => SIGNATURE_LEN,
    };
    match read_block(input, &mut block[..most]) {
        Ok(len) => {
            let mut bytes = Vec::new(alloc);
            bytes.extend_from_slice(without_mark(&block[..len]))?;
            Ok(bytes)
        }
        Err(error) => Err(read_fault(alloc, name, error)),
    }
}

// Asks the entries of an input in this format, and tells what is passed over of it.
fn ask_rest<'o, R: Read + Drop, W: Write, E: Write>(
    alloc: Global,
    asker: Asker<'o>,
    name: &str,
    format: Format,
    mut input: R,
    out: &mut W,
    err: &mut E,
) -> Result<Asker<'o>, Halt<'o>> {
    match format {
        Format::Lines => asked_lines(ask_lines(asker, name, &mut input, out)),
        Format::JsonLines => told(
            alloc,
            name,
            ask_json_lines(asker, name, &mut input, out),
            err,
        ),
        Format::CslJson(key) => {
            told(
                alloc,
                name,
                ask_csl_json(asker, key, name, &mut input, out),
                err,
            )
        }
        Format::Hayagriva => told(
            alloc,
            name,
            ask_hayagriva(asker, name, &mut input, out),
            err,
        ),
        Format::Yaml => Err(not_streamed(alloc, asker, name, "YAML")),
        Format::Bibtex => {
            let bibtex = "BibTeX, where an entry may inherit from a later one";
            Err(not_streamed(alloc, asker, name, bibtex))
        }
    }
}

// Tells what is passed over of an input that was asked, or of a first part of it.
fn told<'o, E: Write>(
    alloc: Global,
    name: &str,
    asked: Result<(Asker<'o>, Notes), Stop<'o>>,
    err: &mut E,
) -> Result<Asker<'o>, Halt<'o>> {
    match asked {
        Ok((asker, notes)) => match tell_input(alloc, asker.options, name, notes, err) {
            Ok(()) => Ok(asker),
            Err(_) => Err(Halt {
                fault: CommandError::OutOfMemory,
                asker,
            }),
        },
        Err(stop) => Err(halted(alloc, name, stop, err)),
    }
}

// Tells what is passed over in front of a fault, but where nobody reads what is printed.
fn halted<'o, E: Write>(alloc: Global, name: &str, stop: Stop<'o>, err: &mut E) -> Halt<'o> {
    let Stop {
        fault,
        asker,
        notes,
    } = stop;
    if matches!(fault, CommandError::Closed) {
        drop(notes);
        return Halt { fault, asker };
    }
    match tell_input(alloc, asker.options, name, notes, err) {
        Ok(()) => Halt { fault, asker },
        Err(_) => Halt {
            fault: CommandError::OutOfMemory,
            asker,
        },
    }
}

// The same of lines, of which nothing is told.
fn asked_lines<'o>(asked: Result<Asker<'o>, Stop<'o>>) -> Result<Asker<'o>, Halt<'o>> {
    match asked {
        Ok(asked) => Ok(asked),
        Err(stop) => {
            let Stop {
                fault,
                asker,
                notes,
            } = stop;
            drop(notes);
            Err(Halt { fault, asker })
        }
    }
}

// The fault that the input that is called so is in a format that isn't asked entry by entry.
fn not_streamed<'o>(alloc: Global, asker: Asker<'o>, name: &str, format: &'static str) -> Halt<'o> {
    let fault = match String::from_str(alloc, name) {
        Ok(name) => CommandError::NotStreamed(name, format),
        Err(_) => CommandError::OutOfMemory,
    };
    Halt { fault, asker }
}

/// Tells what is passed over of the input that is called so.
pub(crate) fn tell_input<E: Write>(
    alloc: Global,
    options: &Options,
    name: &str,
    notes: Notes,
    err: &mut E,
) -> Result<(), OutOfMemory> {
    let mut told = Vec::new(alloc);
    told.push(InputNotes::new(alloc, name, notes)?)?;
    let text = told_text(alloc, told.as_slice())?;
    tell_notes(options, text.as_str(), err);
    Ok(())
}
