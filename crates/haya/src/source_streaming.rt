//! Prints the elements of files whose entries are picked, as they are read.
use crate::streaming::{begun, read_fault, tell_input};
use haya_command::{
    CommandError, LibraryError, Options, SourceForm, check_notes, check_selector, complain,
    kind_behind, warn,
};
use haya_formats::{Format, STANDARD_INPUT};
use haya_line_stream::StreamError;
use haya_source_stream::{
    Asking, PartError, Shown, SourceAsker, StreamedKind, ask_elements, end_elements,
};
use haya_text::OutOfMemory;
use hayagriva::{CompiledSelector, HashKeys, Selector};
use std::alloc::Global;
use std::fs::File;
use std::io::{Cursor, Read, Write};
use std::rt::Files;

/// Prints the elements of the hits of these files in turn, of standard input for `-` or where there
/// is no file, in this form. The answer is the status that the process is to end with.
pub fn stream_source<F: Files, R: Read, W: Write, E: Write>(
    alloc: Global,
    rt: &F,
    keys: HashKeys,
    options: &Options,
    form: SourceForm,
    stdin: &mut R,
    out: &mut W,
    err: &mut E,
) -> u8 {
    let mut elements = Elements {
        alloc,
        keys,
        options,
        form,
        asked: None,
    };
    match elements.print(rt, stdin, out, err) {
        Ok(true) => 0,
        Ok(false) => 1,
        Err(fault) => complain(alloc, options, &fault, err),
    }
}

// The elements of inputs, which are of one kind.
#[derive(Drop)]
struct Elements<'o> {
    alloc: Global,
    keys: HashKeys,
    options: &'o Options,
    form: SourceForm,
    // None in front of the first input.
    asked: Option<Asked<'o>>,
}

// The format of the first input, and what is asked of elements.
#[derive(Drop)]
struct Asked<'o> {
    first: Format,
    asker: SourceAsker<'o>,
}

impl<'o> Elements<'o> {
    // Prints the elements of the hits, and says whether there is one.
    fn print<F: Files, R: Read, W: Write, E: Write>(
        &mut self,
        rt: &F,
        stdin: &mut R,
        out: &mut W,
        err: &mut E,
    ) -> Result<bool, CommandError> {
        let (alloc, options) = (self.alloc, self.options);
        check_selector(alloc, options.selector.as_str())?;
        if !options.is_streamable() {
            return Err(CommandError::StreamAsks);
        }
        warn(alloc, options, err);
        if options.files.is_empty() {
            self.ask(STANDARD_INPUT, &mut *stdin, out, err)?;
        }
        for file in &options.files {
            if self.has_enough() {
                break;
            }
            self.ask_file(rt, file.as_str(), &mut *stdin, out, err)?;
        }
        match &self.asked {
            Some(asked) => match end_elements(&asked.asker, out) {
                Ok(found) => Ok(found),
                Err(fault) => Err(fault_of(alloc, STANDARD_INPUT, fault)),
            },
            None => Ok(false),
        }
    }

    // Whether no more inputs need to be read. The first is: its format says what is printed.
    fn has_enough(&self) -> bool {
        match &self.asked {
            Some(asked) => asked.asker.asking.has_enough(asked.asker.hits),
            None => false,
        }
    }

    // Asks the elements of a file, or of standard input.
    fn ask_file<F: Files, R: Read, W: Write, E: Write>(
        &mut self,
        rt: &F,
        name: &str,
        stdin: &mut R,
        out: &mut W,
        err: &mut E,
    ) -> Result<(), CommandError> {
        if name == "-" {
            return self.ask(STANDARD_INPUT, stdin, out, err);
        }
        match File::open(rt, name) {
            Ok(file) => self.ask(name, file, out, err),
            Err(error) => Err(read_fault(self.alloc, name, error)),
        }
    }

    // Asks the elements of the input that is called so, and tells what is passed over of it.
    fn ask<R: Read + Drop, W: Write, E: Write>(
        &mut self,
        name: &str,
        mut input: R,
        out: &mut W,
        err: &mut E,
    ) -> Result<(), CommandError> {
        let (alloc, options) = (self.alloc, self.options);
        let (first, format) = begun(alloc, options, name, &mut input)?;
        let asker = self.asker_for(name, format)?;
        let mut whole = Cursor::new(first).chain(input);
        match ask_elements(asker, &mut whole, out) {
            Ok(()) => {
                let notes = check_notes(alloc, options, name, asker.take_notes())?;
                tell_input(alloc, options, name, notes, err)?;
                Ok(())
            }
            Err(fault) => Err(halted(alloc, options, name, asker, fault, err)),
        }
    }

    // What is asked of the elements of the input that is called so and is in this format.
    fn asker_for(
        &mut self,
        name: &str,
        format: Format,
    ) -> Result<&mut SourceAsker<'o>, CommandError> {
        let alloc = self.alloc;
        let first = match &self.asked {
            Some(asked) => asked.first,
            None => format,
        };
        let kind = kind_behind(alloc, name, self.form, first, format)?;
        let Some(kind) = StreamedKind::streamed(kind) else {
            return Err(not_streamed(alloc, name, format.name()));
        };
        if self.asked.is_none() {
            let asker = asker_of(alloc, self.keys, self.options, kind)?;
            self.asked = Some(Asked { first, asker });
        }
        match &mut self.asked {
            Some(asked) => Ok(&mut asked.asker),
            None => Err(CommandError::OutOfMemory),
        }
    }
}

// What is asked of elements of this kind.
fn asker_of<'o>(
    alloc: Global,
    keys: HashKeys,
    options: &'o Options,
    kind: StreamedKind,
) -> Result<SourceAsker<'o>, CommandError> {
    let read = match Selector::parse(alloc, options.selector.as_str()) {
        Ok(read) => read,
        Err(error) => return Err(CommandError::Selector(error)),
    };
    let selector = if options.invert {
        Selector::Neg(Box::new(alloc, read)?)
    } else {
        read
    };
    let shown = if options.quiet {
        Shown::Nothing
    } else if options.count {
        Shown::Number
    } else {
        Shown::Elements
    };
    let asking = Asking {
        selector: CompiledSelector::new(alloc, &selector)?,
        questions: &options.questions,
        kind,
        shown,
    };
    Ok(SourceAsker::new(alloc, keys, asking))
}

// The fault that the input that is called so is in a format whose elements aren't asked one by one.
fn not_streamed(alloc: Global, name: &str, format: &'static str) -> CommandError {
    match String::from_str(alloc, name) {
        Ok(name) => CommandError::NotStreamed(name, format),
        Err(_) => CommandError::OutOfMemory,
    }
}

// The fault of the input that is called so. What is passed over in front of it is told, but where
// nobody reads what is printed.
fn halted<E: Write>(
    alloc: Global,
    options: &Options,
    name: &str,
    asker: &mut SourceAsker<'_>,
    fault: StreamError<PartError>,
    err: &mut E,
) -> CommandError {
    let fault = fault_of(alloc, name, fault);
    if matches!(fault, CommandError::Closed) {
        return fault;
    }
    match tell_input(alloc, options, name, asker.take_notes(), err) {
        Ok(()) => fault,
        Err(_) => CommandError::OutOfMemory,
    }
}

// The same fault, as the command tells it.
fn fault_of(alloc: Global, name: &str, fault: StreamError<PartError>) -> CommandError {
    let Ok(name) = String::from_str(alloc, name) else {
        return CommandError::from(OutOfMemory);
    };
    match fault {
        StreamError::CannotRead(error) => CommandError::of_read(name, error),
        StreamError::NotText => CommandError::NotText(name),
        StreamError::Refused(PartError::Element(error)) => {
            CommandError::Input(name, LibraryError::Element(error))
        }
        StreamError::Refused(PartError::Line(error)) => {
            CommandError::Input(name, LibraryError::JsonLines(error))
        }
        StreamError::Refused(PartError::Lines(error)) => {
            CommandError::Input(name, LibraryError::Lines(error))
        }
        StreamError::Refused(PartError::OutOfMemory) => CommandError::OutOfMemory,
        StreamError::CannotWrite(fault) => CommandError::from(fault),
        StreamError::OutOfMemory => CommandError::OutOfMemory,
    }
}
