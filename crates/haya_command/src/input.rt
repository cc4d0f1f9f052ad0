//! Reads an input, and sees what it is.
ghost use Rattle.std.specs.Prelude.{◌≡◌, ◌+◌, None, IfErr, IfOk, OnOk, length, string_bytes};
ghost use Rattle.std.specs.Io.KnownBytes.{IsAtEnd};
ghost use Rattle.haya_formats.specs.Block.{without_mark};
ghost use Rattle.haya_formats.specs.Formats.{format_for};
ghost use Rattle.haya_formats.specs.Likeness.{foreign_for};
ghost use Rattle.haya_command.specs.Reading.{IsForeignFault, IsReadFault, ReadsText};

use crate::error::CommandError;
use crate::options::Input;
use haya_formats::{
    ForeignInput, Format, foreign_for, foreign_of, format_for, likeness_for, without_mark,
};
use haya_line_stream::{ByteCounter, read_all};
use std::alloc::Global;
use std::io::Read;

impl Input {
    /// All that a reader has left, under this name, without a byte order mark in front. The counter
    /// is told of each read.
    ///
    /// `CannotRead`: a read fails. `Foreign`: what is read to the end is no text in UTF-8, by its
    /// first bytes, or, where no format is given, it looks like a text in none of the formats.
    /// `NotUtf8`: it isn't UTF-8.
    pub fn read<R: Read, C: ByteCounter>(
        alloc: Global,
        name: &str,
        given: Option<Format>,
        reader: &mut R,
        counter: &mut C,
    ) -> Result<Input, CommandError>
        ensures text { IfOk result (λ input.
            ReadsText given (R.remaining reader.old) (R.remaining reader.new)
            (string_bytes input.text)) }
        ensures end { OnOk result (IsAtEnd (R.remaining reader.new)) }
        ensures name { IfOk result (λ input. string_bytes input.name ≡ name.now) }
        ensures fault { IfErr result
            (IsReadFault name.now given (R.remaining reader.old) (R.remaining reader.new)) }
    {
        let name = String::from_str(alloc, name)?;
        let mut bytes = match read_all(alloc, reader, counter) {
            Ok(bytes) => bytes,
            Err(error) => return Err(CommandError::of_read(name, error)),
        };
        let marked = drop_mark(&mut bytes);
        if let Some(foreign) = foreign_of(bytes.as_slice()) {
            return Err(CommandError::Foreign(ForeignInput { name, foreign }));
        }
        let text = match String::from_utf8(bytes) {
            Ok(text) => text,
            Err(error) => {
                let at = marked + error.utf8_error().valid_up_to() + 1;
                return Err(CommandError::NotUtf8(name, at));
            }
        };
        match likeness_for(given, text.as_bytes()) {
            Some(foreign) => Err(CommandError::Foreign(ForeignInput { name, foreign })),
            None => Ok(Input { name, text }),
        }
    }
}

// Drops the byte order mark that the bytes may begin with: how many bytes that is.
fn drop_mark(bytes: &mut Vec<u8>) -> usize
    ensures bytes { bytes.new.items ≡ without_mark bytes.old.items }
    ensures count { result + length bytes.new.items ≡ length bytes.old.items }
{
    let kept = without_mark(bytes.as_slice()).len();
    let marked = bytes.len() - kept;
    if marked > 0 {
        bytes.as_mut_slice().copy_within(marked.., 0);
        bytes.truncate(kept);
    }
    marked
}

/// The format of the input that is called so and begins with these bytes, behind a byte order mark:
/// the one that is given, otherwise the one that is guessed from them.
///
/// `Foreign`: it is no text in UTF-8, or, where no format is given, it looks like a text in none of
/// the formats.
pub fn input_format(
    alloc: Global,
    name: &str,
    given: Option<Format>,
    bytes: &[u8],
) -> Result<Format, CommandError>
    ensures format { IfOk result (λ format. format ≡ format_for given bytes.now) }
    ensures own { OnOk result (foreign_for given bytes.now ≡ None) }
    ensures fault { IfErr result (IsForeignFault name.now given bytes.now) }
{
    if let Some(foreign) = foreign_for(given, bytes) {
        let name = String::from_str(alloc, name)?;
        return Err(CommandError::Foreign(ForeignInput { name, foreign }));
    }
    Ok(format_for(alloc, given, bytes)?)
}
