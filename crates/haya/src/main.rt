//! Prints the entries that a selector picks from the libraries of files.
#![tactic(auto)]

mod arguments;
mod asking;
mod error;
mod files;
mod help;
mod lists;
mod progress;
mod source_streaming;
mod streaming;

use arguments::{Arguments, Request, request_of};
use asking::read_words;
use error::StartError;
use files::read_files;
use haya_command::{CommandError, Options, complain, run};
use haya_line_stream::{WriteError, write_text};
use hayagriva::{HashKeys, Selector};
use lists::List;
use progress::Progress;
use source_streaming::stream_source;
use std::alloc::Global;
use std::env;
use std::io::{IsTerminal, Read, Write};
use std::process::ExitCode;
use std::rt::Files;
use streaming::stream;

fn main(rt: HostRuntime) -> ExitCode {
    let alloc = rt.alloc();
    let (mut stdin, mut out, mut err) = (rt.stdin(), rt.stdout(), rt.stderr());
    let words = match words(&rt) {
        Ok(words) => words,
        Err(fault) => return ended(tell(&fault, &mut err)),
    };
    let Arguments {
        mut options,
        words: asked,
        stream: streams,
    } = match request_of(alloc, words.as_slice()) {
        Ok(Request::Ask(arguments)) => arguments,
        Ok(Request::List(list)) => return ended(print_list(alloc, list, &mut out, &mut err)),
        Err(error) => {
            let _ = error.print(&rt);
            return ended(if error.use_stderr() { 2 } else { 0 });
        }
    };
    // A fault of the selector or of the words is told before any input is waited for.
    if let Err(error) = Selector::parse(alloc, options.selector.as_str()) {
        return ended(complain(alloc, &options, &CommandError::Selector(error), &mut err));
    }
    if let Err(fault) = read_words(alloc, &asked, &mut options) {
        return ended(complain(alloc, &options, &fault, &mut err));
    }
    let Ok(keys) = HashKeys::random(&rt) else {
        return ended(tell_of(&options, &StartError::NoKeys, &mut err));
    };
    ended(match (streams, options.source) {
        (true, Some(form)) => stream_source(
            alloc, &rt, keys, &options, form, &mut stdin, &mut out, &mut err,
        ),
        (true, None) => stream(alloc, &rt, keys, &options, &mut stdin, &mut out, &mut err),
        (false, _) => run_files(alloc, &rt, keys, &options, &mut stdin, &mut out, &mut err),
    })
}

// Asks the library of the input. How far the reading is is shown to a person.
fn run_files<F: Files, R: Read, W: Write, E: Write + IsTerminal>(
    alloc: Global,
    rt: &F,
    keys: HashKeys,
    options: &Options,
    stdin: &mut R,
    out: &mut W,
    err: &mut E,
) -> u8 {
    let is_shown = err.is_terminal() && !options.quiet;
    let mut progress = Progress::new(err, is_shown);
    let read = read_files(alloc, rt, options, stdin, &mut progress);
    progress.end();
    match read {
        Ok(inputs) => run(alloc, keys, options, inputs.as_slice(), out, err),
        Err(fault) => complain(alloc, options, &fault, err),
    }
}

// The words of the process, its own name first.
fn words(rt: &(impl env::Env + AllocGlobal)) -> Result<Vec<String>, StartError> {
    match env::args(rt) {
        Ok(words) => Ok(words.collect(rt.alloc())?),
        Err(error) => Err(StartError::of_words(&error)),
    }
}

// Prints a list, and answers the status. Where nobody reads it, nothing is told.
fn print_list<W: Write, E: Write>(alloc: Global, list: List, out: &mut W, err: &mut E) -> u8 {
    let Ok(text) = list.text(alloc) else {
        return tell(&StartError::OutOfMemory, err);
    };
    match write_text(out, text.as_str()) {
        Ok(()) => 0,
        Err(WriteError::Closed) => 2,
        Err(WriteError::CannotWrite) => tell(&StartError::CannotWrite, err),
    }
}

// Tells a fault, but not in a quiet run, and answers the status.
fn tell_of<E: Write>(options: &Options, fault: &StartError, err: &mut E) -> u8 {
    if options.quiet { 2 } else { tell(fault, err) }
}

// Tells a fault, and answers the status. Where it can't be written, the status says it all.
fn tell<E: Write>(fault: &StartError, err: &mut E) -> u8 {
    let _ = writeln!(err, "haya: {fault}");
    let _ = err.flush();
    2
}

// How the process ends.
fn ended(status: u8) -> ExitCode {
    ExitCode::from(status)
}
