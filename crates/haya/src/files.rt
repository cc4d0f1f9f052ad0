//! Reads the input: files, and standard input.
use crate::progress::Progress;
use haya_command::{CommandError, Input, Options};
use haya_formats::{Format, STANDARD_INPUT};
use std::alloc::Global;
use std::fs::File;
use std::io::{Read, Write};
use std::rt::Files;

/// The texts of the files that are asked for in their order, of standard input for `-` or where
/// there is no file.
pub fn read_files<F: Files, R: Read, E: Write>(
    alloc: Global,
    rt: &F,
    options: &Options,
    stdin: &mut R,
    progress: &mut Progress<'_, E>,
) -> Result<Vec<Input>, CommandError> {
    let given = options.from;
    let mut inputs = Vec::new(alloc);
    if options.files.is_empty() {
        inputs.push(Input::read(alloc, STANDARD_INPUT, given, stdin, progress)?)?;
    }
    for file in &options.files {
        inputs.push(read_file(alloc, rt, file.as_str(), given, stdin, progress)?)?;
    }
    Ok(inputs)
}

// The text of a file, or of standard input.
fn read_file<F: Files, R: Read, E: Write>(
    alloc: Global,
    rt: &F,
    name: &str,
    given: Option<Format>,
    stdin: &mut R,
    progress: &mut Progress<'_, E>,
) -> Result<Input, CommandError> {
    if name == "-" {
        return Input::read(alloc, STANDARD_INPUT, given, stdin, progress);
    }
    match File::open(rt, name) {
        Ok(mut file) => Input::read(alloc, name, given, &mut file, progress),
        Err(error) => {
            let name = String::from_str(alloc, name)?;
            Err(CommandError::of_read(name, error))
        }
    }
}
