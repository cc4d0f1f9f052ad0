//! Hands a text on to a writer.
ghost use Rattle.std.specs.Prelude.{◌≡◌, ◌++◌, ◌↔◌, List, ℕ, OnErr, OnOk};
ghost use Rattle.std.specs.Io.KnownBytes.{Appends, Keeps};
ghost use Rattle.std.specs.IoError.{error_kind};
ghost use Rattle.std.specs.declared.io.ErrorKind.TheVariants.{BrokenPipe};
ghost use Rattle.haya_line_stream.specs.declared.error.WriteError.TheVariants.{Closed};

use crate::error::WriteError;
use std::io;
use std::io::Write;

/// Writes the whole text, and hands on what the writer holds back. Where a write fails, a first
/// part of it is written.
pub fn write_text<W: Write>(out: &mut W, text: &str) -> Result<(), WriteError>
    ensures written { OnOk result (Appends (W.contents out.old) (W.contents out.new) text.now) }
    ensures begun { OnErr result ((first : List ℕ) × (rest : List ℕ)
        × (text.now ≡ first ++ rest) × Appends (W.contents out.old) (W.contents out.new) first) }
{
    write_all(out, text)?;
    flushed(out)
}

/// Writes the whole text, by one write but where the writer takes less of it or is interrupted.
/// Where a write fails, a first part of it is written.
pub fn write_all<W: Write>(out: &mut W, text: &str) -> Result<(), WriteError>
    ensures written { OnOk result (Appends (W.contents out.old) (W.contents out.new) text.now) }
    ensures begun { OnErr result ((first : List ℕ) × (rest : List ℕ)
        × (text.now ≡ first ++ rest) × Appends (W.contents out.old) (W.contents out.new) first) }
{
    let mut rest = text.as_bytes();
    'writes: for _ in 0..u64::MAX {
        if rest.is_empty() {
            return Ok(());
        }
        match out.write(rest) {
            Ok(0) => return Err(WriteError::CannotWrite),
            Ok(taken) => rest = &rest[taken..],
            Err(error) => {
                if error.kind() != io::ErrorKind::Interrupted {
                    return Err(fault_of(&error));
                }
            }
        }
    }
    Err(WriteError::CannotWrite)
}

// Hands on what the writer holds back.
fn flushed<W: Write>(out: &mut W) -> Result<(), WriteError>
    ensures { Keeps (W.contents out.old) (W.contents out.new) }
{
    match out.flush() {
        Ok(()) => Ok(()),
        Err(error) => Err(fault_of(&error)),
    }
}

// What an error of a writer says.
fn fault_of(error: &io::Error) -> WriteError
    ensures { (result ≡ Closed) ↔ (error_kind error.now ≡ BrokenPipe) }
{
    match error.kind() {
        io::ErrorKind::BrokenPipe => WriteError::Closed,
        _ => WriteError::CannotWrite,
    }
}
