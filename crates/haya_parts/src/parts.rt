//! The parts of a text, answered as it is read.
ghost use Rattle.std.specs.Prelude.{◌≡◌, ◌⊎◌, ◌++◌, ◌-◌, ◌≤◌, ◌∷◌, [], ℕ, List, Some, IfErr};
ghost use Rattle.std.specs.Prelude.{OnOk, IfOk, drop, false, length, string_bytes};
ghost use Rattle.json.specs.Ascii as ascii;
ghost use Rattle.std.specs.Io.KnownBytes.{Appends};
ghost use Rattle.haya_line_stream.specs.Answered.{StopsBefore};
ghost use Rattle.haya_parts.specs.Answered.{AnswersAll, AnswersEnough, AnswersPart, Moves, MovesOn};
ghost use Rattle.haya_parts.specs.Answered.{Stops, StopsAt};
ghost use Rattle.haya_parts.specs.Answered.{AnswersUnwritten, EndsIn, EndsParts, EndsUnwritten, IsWriteFault};
ghost use Rattle.haya_parts.specs.Divided.{Begins, Begun};

use crate::divider::{Divider, Last, Next};
use haya_line_stream::{Answerer, StreamError, answer_line, write_text};
use std::alloc::Global;
use std::io;
use std::io::{Read, Write};

// What is kept from one read to the next.
#[derive(Drop)]
struct Buffers {
    // What was read, behind the parts that are answered.
    held: Vec<u8>,
    // What is printed of one part.
    line: String,
    // What is printed and not yet written.
    printed: String,
}

/// Answers each part of the input in turn; or the parts of a first part of it, where the answerer is
/// done with these. No more of the input is held than the bytes of a part, and of a read. What is
/// printed of the parts that one read ended is written together, and handed on. The answerer's end
/// isn't asked.
///
/// At a fault the first parts are answered, and what is printed of them is written. What can't be a
/// part is refused by what the answerer says of it with a comma behind, as no part ends.
pub fn answer_parts<D: Divider, A: Answerer, R: Read, W: Write>(
    alloc: Global,
    divider: &mut D,
    answerer: &mut A,
    input: &mut R,
    out: &mut W,
) -> Result<(), StreamError<A::Refusal>>
    requires { Begins D.divides divider.old [] [] [] }
    ensures all { OnOk result (
        AnswersAll (D.are_parts divider.old) A.answers A.is_done answerer.old answerer.new
        (R.remaining input.old) (R.remaining input.new) (W.contents out.old) (W.contents out.new)
        ⊎ AnswersEnough D.divides A.answers A.is_done divider.new answerer.old answerer.new
        (R.remaining input.old) (R.remaining input.new) (W.contents out.old) (W.contents out.new)) }
    ensures part { IfErr result (λ fault. AnswersPart D.divides D.are_parts A.answers A.refuses
        A.is_done answerer.old answerer.new (R.remaining input.old) (R.remaining input.new)
        (W.contents out.old) (W.contents out.new) fault
        ⊎ (IsWriteFault fault × AnswersUnwritten (D.are_parts divider.old) A.answers A.is_done
        answerer.old (R.remaining input.old) (R.remaining input.new)
        (W.contents out.old) (W.contents out.new))) }
{
    let mut buffers = Buffers {
        held: Vec::new(alloc),
        line: String::new(alloc),
        printed: String::new(alloc),
    };
    let mut block = [0u8; 65536];
    'reads: for _ in 0..u64::MAX {
        if answerer.is_done() {
            return Ok(());
        }
        match input.read(&mut block) {
            Ok(0) => return answer_rest(alloc, divider, answerer, &mut buffers, out),
            Ok(n) => answer_block(alloc, divider, answerer, &mut buffers, &block[..n], out)?,
            Err(error) if error.kind() == io::ErrorKind::Interrupted => {}
            Err(error) => return Err(StreamError::CannotRead(error)),
        }
    }
    Err(StreamError::CannotRead(io::Error::from(io::ErrorKind::Other)))
}

// Answers each part that is whole now, writes what is printed of them, and holds what is left.
fn answer_block<D: Divider, A: Answerer, W: Write>(
    alloc: Global,
    divider: &mut D,
    answerer: &mut A,
    buffers: &mut Buffers,
    block: &[u8],
    out: &mut W,
) -> Result<(), StreamError<A::Refusal>>
    requires begun { Begun D.divides divider.old buffers.old.held.items }
    requires empty { string_bytes buffers.old.printed ≡ [] }
    ensures empty { OnOk result (string_bytes buffers.new.printed ≡ []) }
    ensures moves { OnOk result (MovesOn D.divides A.answers A.is_done divider.old divider.new
        answerer.old answerer.new (buffers.old.held.items ++ block.now) buffers.new.held.items
        (W.contents out.old) (W.contents out.new)) }
    ensures same { (text : List ℕ) (parts : List (List ℕ)) →
        D.are_parts divider.new text parts → D.are_parts divider.old text parts }
    ensures stops { IfErr result (StopsAt D.divides D.are_parts A.answers A.refuses A.is_done
        divider.old answerer.old answerer.new (buffers.old.held.items ++ block.now)
        (W.contents out.old) (W.contents out.new)) }
{
    let Buffers {
        held,
        line,
        printed,
    } = buffers;
    held.extend_from_slice(block)?;
    let taken = take_parts(alloc, divider, answerer, held.as_slice(), line, printed);
    match write_text(out, printed.as_str()) {
        Ok(()) => {
            printed.clear();
            keep_last(held, taken?);
            Ok(())
        }
        Err(fault) => {
            drop(taken);
            Err(StreamError::CannotWrite(fault))
        }
    }
}

// Keeps so many of the last bytes.
fn keep_last(held: &mut Vec<u8>, left: usize)
    requires { left ≤ length held.old.items }
    ensures { held.new.items ≡ drop (length held.old.items - left) held.old.items }
{
    let front = held.len() - left;
    if front > 0 {
        held.as_mut_slice().copy_within(front.., 0);
        held.truncate(left);
    }
}

// Answers what is left at the end, and writes what is printed of it.
fn answer_rest<D: Divider, A: Answerer, W: Write>(
    alloc: Global,
    divider: &D,
    answerer: &mut A,
    buffers: &mut Buffers,
    out: &mut W,
) -> Result<(), StreamError<A::Refusal>>
    requires begun { Begun D.divides divider.now buffers.old.held.items }
    requires empty { string_bytes buffers.old.printed ≡ [] }
    requires goes_on { A.is_done answerer.old ≡ false }
    ensures ends { OnOk result (EndsParts D.divides D.are_parts A.answers A.is_done divider.now
        answerer.old answerer.new buffers.old.held.items
        (W.contents out.old) (W.contents out.new)) }
    ensures stops { IfErr result (λ fault. StopsAt D.divides D.are_parts A.answers A.refuses
        A.is_done divider.now answerer.old answerer.new buffers.old.held.items
        (W.contents out.old) (W.contents out.new) fault
        ⊎ (IsWriteFault fault × EndsUnwritten D.divides D.are_parts A.answers A.is_done divider.now
        answerer.old buffers.old.held.items (W.contents out.old) (W.contents out.new))) }
{
    let Buffers {
        held,
        line,
        printed,
    } = buffers;
    let answered = take_last(alloc, divider, answerer, held.as_slice(), line, printed);
    match write_text(out, printed.as_str()) {
        Ok(()) => answered,
        Err(fault) => {
            drop(answered);
            Err(StreamError::CannotWrite(fault))
        }
    }
}

// Answers each part that is whole, or as many as are enough: how many bytes are left.
fn take_parts<D: Divider, A: Answerer>(
    alloc: Global,
    divider: &mut D,
    answerer: &mut A,
    held: &[u8],
    line: &mut String,
    printed: &mut String,
) -> Result<usize, StreamError<A::Refusal>>
    requires { Begun D.divides divider.old held.now }
    ensures moves { IfOk result (λ left. (more : List ℕ) × (rest : List ℕ)
        × Moves D.divides A.answers A.is_done divider.old divider.new answerer.old answerer.new
        held.now rest more × (length rest ≡ left)
        × (string_bytes printed.new ≡ string_bytes printed.old ++ more)) }
    ensures same { (text : List ℕ) (parts : List (List ℕ)) →
        D.are_parts divider.new text parts → D.are_parts divider.old text parts }
    ensures stops { IfErr result (λ fault. (more : List ℕ)
        × Stops D.divides D.are_parts A.answers A.refuses A.is_done divider.old answerer.old
        answerer.new held.now more fault
        × (string_bytes printed.new ≡ string_bytes printed.old ++ more)) }
{
    let mut rest = held;
    'parts: while !rest.is_empty() {
        if answerer.is_done() {
            return Ok(rest.len());
        }
        match divider.next(rest) {
            Next::Part(part, split) => {
                answer_line(answerer, part, line, printed)?;
                rest = split.behind;
            }
            Next::Between(split) => rest = split.behind,
            Next::More => return Ok(rest.len()),
            Next::Broken(split) => return Err(refusal(alloc, answerer, split.front, line)),
        }
    }
    Ok(0)
}

// Answers the last part, if there is one.
fn take_last<D: Divider, A: Answerer>(
    alloc: Global,
    divider: &D,
    answerer: &mut A,
    held: &[u8],
    line: &mut String,
    printed: &mut String,
) -> Result<(), StreamError<A::Refusal>>
    requires begun { Begun D.divides divider.now held.now }
    requires goes_on { A.is_done answerer.old ≡ false }
    ensures ends { OnOk result ((more : List ℕ)
        × EndsIn D.divides D.are_parts A.answers A.is_done divider.now
        answerer.old answerer.new held.now more
        × (string_bytes printed.new ≡ string_bytes printed.old ++ more)) }
    ensures stops { IfErr result (λ fault. (more : List ℕ)
        × Stops D.divides D.are_parts A.answers A.refuses A.is_done divider.now answerer.old
        answerer.new held.now more fault
        × (string_bytes printed.new ≡ string_bytes printed.old ++ more)) }
{
    match divider.last(held) {
        Last::Part(part) => answer_line(answerer, part, line, printed),
        Last::Nothing => Ok(()),
        Last::Broken => Err(refusal(alloc, answerer, held, line)),
    }
}

// Why bytes that are no part are refused: by what the answerer says of them and a comma, as no part
// ends. One that it answers is told as out of memory.
fn refusal<A: Answerer>(
    alloc: Global,
    answerer: &mut A,
    bytes: &[u8],
    line: &mut String,
) -> StreamError<A::Refusal>
    ensures { StopsBefore A.refuses answerer.old (Some (bytes.now ++ ascii.comma ∷ []))
        answerer.new result }
{
    let mut marked = Vec::new(alloc);
    let Ok(()) = marked.extend_from_slice(bytes) else {
        return StreamError::OutOfMemory;
    };
    let Ok(()) = marked.push(b',') else {
        return StreamError::OutOfMemory;
    };
    let Ok(text) = str::from_utf8(marked.as_slice()) else {
        return StreamError::NotText;
    };
    line.clear();
    match answerer.answer(text, line) {
        Ok(()) => StreamError::OutOfMemory,
        Err(refusal) => StreamError::Refused(refusal),
    }
}
