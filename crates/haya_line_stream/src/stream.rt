//! Answers a text line by line, as it is read.
ghost use Rattle.std.specs.Prelude.{◌≡◌, ◌⊎◌, ◌++◌, ◌∷◌, [], ℕ, List, Option, Some, None, true};
ghost use Rattle.std.specs.Prelude.{false, length, IfErr, OnErr, OnOk, string_bytes};
ghost use Rattle.std.specs.Io.KnownBytes.{Appends};
ghost use Rattle.std.specs.Str.{IsUtf8};
ghost use Rattle.haya_line_stream.specs.Turns.{HasNoFeed};
ghost use Rattle.haya_line_stream.specs.Answered.{Answers, Asked, StopsAt, StopsBefore, Takes};
ghost use Rattle.haya_line_stream.specs.Streamed.{AnswersAll, AnswersEnough, AnswersPart};
ghost use Rattle.haya_line_stream.specs.Streamed.{HaveEnded, Moves, Writes};

use crate::answerer::Answerer;
use crate::error::StreamError;
use crate::line_end::{line_end, without_return};
use crate::writing::write_text;
use std::alloc::Global;
use std::io;
use std::io::{Read, Write};

/// Answers each line of the input in turn, and then its end; or the lines of a first part of it,
/// where the answerer is done with these. What is printed of the lines that one read ended is
/// written together, and handed on. A line is let go before the next is looked at. None is asked
/// before it has ended, or the input has.
///
/// At a fault a first part is answered, and what is printed of that is written: of a whole number
/// of lines, but where the writer itself fails. The answerer is left as that part leaves it, or as it
/// refused what is next.
pub fn answer_all<A: Answerer, R: Read, W: Write>(
    alloc: Global,
    answerer: &mut A,
    input: &mut R,
    out: &mut W,
) -> Result<(), StreamError<A::Refusal>>
    ensures all { OnOk result (
        AnswersAll (Asked A.is_done A.answers) answerer.old answerer.new
        (R.remaining input.old) (R.remaining input.new) (W.contents out.old) (W.contents out.new)
        ⊎ AnswersEnough (Asked A.is_done A.answers) A.is_done answerer.old answerer.new
        (R.remaining input.old) (R.remaining input.new) (W.contents out.old) (W.contents out.new)) }
    ensures part { IfErr result (AnswersPart (Asked A.is_done A.answers) A.refuses answerer.old
        answerer.new (R.remaining input.old) (R.remaining input.new) (W.contents out.old) (W.contents out.new)) }
{
    let mut held = Vec::new(alloc);
    let mut line = String::new(alloc);
    let mut printed = String::new(alloc);
    let mut block = [0u8; 65536];
    'reads: for _ in 0..u64::MAX {
        if answerer.is_done() {
            return Ok(());
        }
        match input.read(&mut block) {
            Ok(0) => return answer_rest(answerer, held.as_slice(), &mut line, &mut printed, out),
            Ok(n) => answer_block(
                answerer,
                &mut held,
                &block[..n],
                &mut line,
                &mut printed,
                out,
            )?,
            Err(error) if error.kind() == io::ErrorKind::Interrupted => {}
            Err(error) => return Err(StreamError::CannotRead(error)),
        }
    }
    if answerer.is_done() {
        return Ok(());
    }
    Err(StreamError::CannotRead(io::Error::from(io::ErrorKind::Other)))
}

// Answers each line that is whole now, and writes what is printed of them.
fn answer_block<A: Answerer, W: Write>(
    answerer: &mut A,
    held: &mut Vec<u8>,
    block: &[u8],
    line: &mut String,
    printed: &mut String,
    out: &mut W,
) -> Result<(), StreamError<A::Refusal>>
    requires none { HasNoFeed held.old.items }
    requires empty { string_bytes printed.old ≡ [] }
    ensures empty { OnOk result (string_bytes printed.new ≡ []) }
    ensures moves { OnOk result (Moves (Asked A.is_done A.answers) A.is_done
        (held.old.items ++ block.now) held.new.items answerer.old answerer.new
        (W.contents out.old) (W.contents out.new)) }
    ensures part { IfErr result (λ fault. (writes : Writes (Asked A.is_done A.answers) A.refuses
        (held.old.items ++ block.now) answerer.old answerer.new
        (W.contents out.old) (W.contents out.new) fault)
        × HaveEnded (held.old.items ++ block.now) (length writes.first.parts) fault) }
{
    let answered = take_block(answerer, held, block, line, printed);
    match write_text(out, printed.as_str()) {
        Ok(()) => {
            printed.clear();
            answered
        }
        Err(fault) => {
            drop(answered);
            Err(StreamError::CannotWrite(fault))
        }
    }
}

// Answers what is held as the last line, and the end, and writes what is printed of them.
fn answer_rest<A: Answerer, W: Write>(
    answerer: &mut A,
    held: &[u8],
    line: &mut String,
    printed: &mut String,
    out: &mut W,
) -> Result<(), StreamError<A::Refusal>>
    requires none { HasNoFeed held.now }
    requires empty { string_bytes printed.old ≡ [] }
    requires goes_on { A.is_done answerer.old ≡ false }
    ensures all { OnOk result ((more : List ℕ) × (later : List (Option (List ℕ)))
        × Answers (Asked A.is_done A.answers) held.now later answerer.old answerer.new more
        × ((later ≡ []) ⊎ (A.is_done answerer.new ≡ true))
        × Appends (W.contents out.old) (W.contents out.new) more) }
    ensures part { IfErr result (Writes (Asked A.is_done A.answers) A.refuses held.now
        answerer.old answerer.new (W.contents out.old) (W.contents out.new)) }
{
    let answered = take_end(answerer, held, line, printed);
    match write_text(out, printed.as_str()) {
        Ok(()) => answered,
        Err(fault) => {
            drop(answered);
            Err(StreamError::CannotWrite(fault))
        }
    }
}

// Answers each line that is whole now, and holds the bytes of the last, which isn't; or as many as
// are enough.
fn take_block<A: Answerer>(
    answerer: &mut A,
    held: &mut Vec<u8>,
    block: &[u8],
    line: &mut String,
    printed: &mut String,
) -> Result<(), StreamError<A::Refusal>>
    requires { HasNoFeed held.old.items }
    ensures takes { OnOk result ((more : List ℕ) × (rest : List ℕ)
        × Takes (Asked A.is_done A.answers) (held.old.items ++ block.now) rest
        answerer.old answerer.new more
        × ((A.is_done answerer.new ≡ true) ⊎ ((rest ≡ held.new.items) × HasNoFeed rest))
        × (string_bytes printed.new ≡ string_bytes printed.old ++ more)) }
    ensures stops { IfErr result (λ fault. (more : List ℕ)
        × (stops : StopsAt (Asked A.is_done A.answers) A.refuses (held.old.items ++ block.now)
        answerer.old answerer.new more fault)
        × (string_bytes printed.new ≡ string_bytes printed.old ++ more)
        × HaveEnded (held.old.items ++ block.now) (length stops.first.parts) fault) }
{
    let mut rest = block;
    'lines: while let Some(end) = line_end(rest) {
        if answerer.is_done() {
            return Ok(());
        }
        held.extend_from_slice(&rest[..end])?;
        answer_line(answerer, without_return(held.as_slice()), line, printed)?;
        held.clear();
        rest = &rest[end + 1..];
    }
    held.extend_from_slice(rest)?;
    Ok(())
}

// Answers what is held as the last line, if there is anything, and then the end, if that is asked.
fn take_end<A: Answerer>(
    answerer: &mut A,
    held: &[u8],
    line: &mut String,
    printed: &mut String,
) -> Result<(), StreamError<A::Refusal>>
    requires none { HasNoFeed held.now }
    requires goes_on { A.is_done answerer.old ≡ false }
    ensures all { OnOk result ((more : List ℕ) × (later : List (Option (List ℕ)))
        × Answers (Asked A.is_done A.answers) held.now later answerer.old answerer.new more
        × ((later ≡ []) ⊎ (A.is_done answerer.new ≡ true))
        × (string_bytes printed.new ≡ string_bytes printed.old ++ more)) }
    ensures stops { IfErr result (λ fault. (more : List ℕ)
        × StopsAt (Asked A.is_done A.answers) A.refuses held.now answerer.old answerer.new more fault
        × (string_bytes printed.new ≡ string_bytes printed.old ++ more)) }
{
    if !held.is_empty() {
        answer_line(answerer, held, line, printed)?;
        if answerer.is_done() {
            return Ok(());
        }
    }
    answer_end(answerer, line, printed)
}

/// Answers a line, and puts what is printed of it behind what is. `line` has it first, in place of
/// what it had, so that nothing is printed of a line that is refused.
pub fn answer_line<A: Answerer>(
    answerer: &mut A,
    bytes: &[u8],
    line: &mut String,
    printed: &mut String,
) -> Result<(), StreamError<A::Refusal>>
    requires { A.is_done answerer.old ≡ false }
    ensures answers { OnOk result ((more : List ℕ) × IsUtf8 bytes.now
        × Asked A.is_done A.answers answerer.old (Some bytes.now) more answerer.new
        × (string_bytes printed.new ≡ string_bytes printed.old ++ more)) }
    ensures stops { IfErr result
        (StopsBefore A.refuses answerer.old (Some bytes.now) answerer.new) }
    ensures kept { OnErr result (string_bytes printed.new ≡ string_bytes printed.old) }
{
    let Ok(text) = str::from_utf8(bytes) else {
        return Err(StreamError::NotText);
    };
    line.clear();
    match answerer.answer(text, line) {
        Ok(()) => Ok(printed.push_str(line.as_str())?),
        Err(refusal) => Err(StreamError::Refused(refusal)),
    }
}

// Answers the end, and puts what is printed of it behind what is.
fn answer_end<A: Answerer>(
    answerer: &mut A,
    line: &mut String,
    printed: &mut String,
) -> Result<(), StreamError<A::Refusal>>
    requires { A.is_done answerer.old ≡ false }
    ensures answers { OnOk result ((more : List ℕ)
        × Asked A.is_done A.answers answerer.old None more answerer.new
        × (string_bytes printed.new ≡ string_bytes printed.old ++ more)) }
    ensures stops { IfErr result (StopsBefore A.refuses answerer.old None answerer.new) }
    ensures kept { OnErr result (string_bytes printed.new ≡ string_bytes printed.old) }
{
    line.clear();
    match answerer.end(line) {
        Ok(()) => Ok(printed.push_str(line.as_str())?),
        Err(refusal) => Err(StreamError::Refused(refusal)),
    }
}
