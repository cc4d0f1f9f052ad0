//! How texts are read, mark by mark.
ghost use Rattle.std.specs.Prelude.{◌≡◌, ◌+◌, ◌^◌, ◌<◌, ◌≤◌, [], ◌∷◌, ℕ, List, Bool, true, false};
ghost use Rattle.std.specs.Prelude.{Ok, Err, Option, Some, None, length, IfOk, IfErr, IfSome};
ghost use Rattle.std.specs.Prelude.{MatchOption, MatchResult, OnOk, not};
ghost use Rattle.haya_text.specs.Chunks.{chunks, characters};
ghost use Rattle.haya_text.specs.Cursor.{text_len};
ghost use Rattle.haya_text.specs.Normal.{norm};
ghost use Rattle.haya_text.specs.Printing.{is_control};
ghost use Rattle.haya_text.specs.Marks.{scan_of_mark, scan_of_reader, IsInRuns, Refuses, TakesMark};
ghost use Rattle.haya_text.specs.Marks.{TakesPlain};
ghost use Rattle.haya_text.specs.Reading.{kind_in, result_after, scan, chunks_read, IsRefusal};
ghost use Rattle.haya_text.specs.declared.strings.reading.Mark.TheVariants.{Close};

use super::printing::is_control;
use crate::cursor::Cursor;
use crate::{ChunkKind, ChunkedString, OutOfMemory, ReadFault, ReadText};
use std::alloc::Global;
use thiserror::Error;

/// A closing brace in a text where no group is open.
#[derive(Clone, Copy, Debug, PartialEq, Eq, Error)]
#[error("unmatched closing brace at position {position}")]
pub struct ChunkedStrParseError {
    position: usize,
}

impl ChunkedStrParseError {
    ghost use Rattle.haya_text.specs.Reading.{position_of};

    /// How many bytes stand before the brace.
    pub fn position(&self) -> usize
        ensures { result ≡ position_of self.now }
    {
        self.position
    }
}

/// Why a text was not read as a chunked one.
#[derive(Clone, Copy, Debug, PartialEq, Eq, Error)]
pub enum ChunkedReadError {
    /// A closing brace where no group is open.
    #[error("{0}")]
    Parse(ChunkedStrParseError),
    /// An allocation failed, which says nothing of the text.
    #[error("out of memory")]
    OutOfMemory,
}

impl From<OutOfMemory> for ChunkedReadError {
    ghost use Rattle.std.specs.Prelude.{◌≡◌};
    ghost use Rattle.haya_text.specs.declared.strings.reading.ChunkedReadError.TheVariants as error;

    ghost from_gives = { λ _ e. e ≡ error.OutOfMemory };

    fn from(_error: OutOfMemory) -> ChunkedReadError {
        ChunkedReadError::OutOfMemory
    }
}

impl ReadFault for ChunkedReadError {
    ghost use Rattle.haya_text.specs.Reading.{is_out_of_memory};

    ghost out_of_memory = { is_out_of_memory };

    fn is_out_of_memory(&self) -> bool {
        matches!(self, ChunkedReadError::OutOfMemory)
    }
}

impl ReadText for ChunkedString {
    type Fault = ChunkedReadError;

    ghost use Rattle.std.specs.Prelude.{◌≡◌, List, false, Some, None, IfOk, IfErr};
    ghost use Rattle.haya_text.specs.Chunks.{Chunk, chunks};
    ghost use Rattle.haya_text.specs.Grammar.{ReadsAs};
    ghost use Rattle.haya_text.specs.Reading.{chunks_read, is_out_of_memory, IsRefusal};

    ghost Value = { List Chunk };

    ghost value = { chunks };

    ghost reads = { chunks_read };

    /// The text in its chunks: what stands between braces is verbatim, what stands between dollars
    /// is math, and a backslash before a brace, a dollar or a backslash makes that character plain.
    /// Refused with its place is a closing brace where no group is open.
    fn from_str(alloc: Global, text: &str) -> Result<ChunkedString, ChunkedReadError>
        ensures ok { IfOk result (λ v. chunks_read text.now ≡ Some (chunks v)) }
        ensures fault { IfErr result
            (λ e. is_out_of_memory e ≡ false → chunks_read text.now ≡ None) }
        ensures grammar { IfOk result (λ v. ReadsAs text.now (chunks v)) }
        ensures refused { IfErr result (IsRefusal text.now) }
    {
        read_chunks(alloc, text)
    }
}

// Reads mark by mark.
fn read_chunks(alloc: Global, text: &str) -> Result<ChunkedString, ChunkedReadError>
    ensures { MatchResult result
        (λ v. chunks_read text.now ≡ Some (chunks v)) (IsRefusal text.now) }
{
    let mut reader = Reader {
        read: ChunkedString::new(alloc),
        depth: 0,
        math: false,
    };
    let mut cursor = Cursor::new(text);
    reader.take_plain(&mut cursor)?;
    let mut place = cursor.place();
    'marks: while let Some(mark) = next_mark(&mut cursor) {
        reader.take(mark, place)?;
        reader.take_plain(&mut cursor)?;
        place = cursor.place();
    }
    Ok(reader.read)
}

// A sign of a text, or a character that stands for itself.
#[derive(Clone, Copy)]
enum Mark {
    Plain(char),
    Open,
    Close,
    Dollar,
}

// What is read of a text so far, how many groups are open, and whether math is.
#[derive(Drop)]
struct Reader {
    read: ChunkedString,
    depth: usize,
    math: bool,
}

impl Reader {
    // Takes the characters that stand next and are no control characters, all at once.
    fn take_plain(&mut self, cursor: &mut Cursor) -> Result<(), ChunkedReadError>
        ensures reads { OnOk result
            (scan_of_reader self.new cursor.new.rest ≡ scan_of_reader self.old cursor.old.rest) }
        ensures normal { IsInRuns self.old → OnOk result (IsInRuns self.new) }
        ensures depth { self.new.depth ≡ self.old.depth }
        ensures forward { cursor.old.place ≤ cursor.new.place }
        ensures same_text { text_len cursor.new ≡ text_len cursor.old }
        ensures fault { IfErr result (λ e. e ≡ ChunkedReadError.OutOfMemory) }
    {
        let plain = cursor.eat_while(
            |c| -> bool
                ensures { result ≡ not (is_control c) }
            { !is_control(c) },
        );
        if !plain.is_empty() {
            let kind = self.kind();
            self.read.push_str(plain, kind)?;
        }
        Ok(())
    }

    // Takes the mark at this place.
    fn take(&mut self, mark: Mark, place: usize) -> Result<(), ChunkedReadError>
        requires { self.old.depth + 1 < 2 ^ 64 }
        ensures reads { MatchResult result
            (λ _. TakesMark self.old mark self.new) (Refuses place self.old mark) }
        ensures normal { IsInRuns self.old → OnOk result (IsInRuns self.new) }
        ensures depth { self.new.depth ≤ self.old.depth + 1 }
    {
        match mark {
            Mark::Plain(c) => self.push(c),
            Mark::Dollar => {
                self.math = !self.math;
                Ok(())
            }
            Mark::Open if self.math => self.push('{'),
            Mark::Close if self.math => self.push('}'),
            Mark::Open => {
                self.depth += 1;
                Ok(())
            }
            Mark::Close if self.depth > 0 => {
                self.depth -= 1;
                Ok(())
            }
            Mark::Close => Err(ChunkedReadError::Parse(ChunkedStrParseError { position: place })),
        }
    }

    // Appends a character that stands for itself here.
    fn push(&mut self, c: char) -> Result<(), ChunkedReadError>
        ensures reads { OnOk result (TakesPlain self.old c self.new) }
        ensures normal { IsInRuns self.old → OnOk result (IsInRuns self.new) }
        ensures depth { self.new.depth ≡ self.old.depth }
        ensures fault { IfErr result (λ e. e ≡ ChunkedReadError.OutOfMemory) }
    {
        let kind = self.kind();
        self.read.push_char(c, kind)?;
        Ok(())
    }

    // The kind of a character that stands for itself here.
    fn kind(&self) -> ChunkKind
        ensures { result ≡ kind_in self.now.depth self.now.math }
    {
        if self.math {
            ChunkKind::Math
        } else if self.depth > 0 {
            ChunkKind::Verbatim
        } else {
            ChunkKind::Normal
        }
    }
}

// Takes the next mark. A backslash stands for itself where no control character follows it.
fn next_mark(cursor: &mut Cursor) -> Option<Mark>
    ensures reads { (depth : ℕ) (math : Bool) → MatchOption result
        (scan depth math false cursor.old.rest ≡ Ok [])
        (λ m. scan depth math false cursor.old.rest ≡ scan_of_mark depth math m cursor.new.rest) }
    ensures forward { IfSome result (λ m. cursor.old.place < cursor.new.place) }
    ensures closing { result ≡ Some Close → cursor.new.place ≡ cursor.old.place + 1 }
    ensures same_text { text_len cursor.new ≡ text_len cursor.old }
{
    match cursor.eat()? {
        '\\' => Some(Mark::Plain(escaped(cursor))),
        '{' => Some(Mark::Open),
        '}' => Some(Mark::Close),
        '$' => Some(Mark::Dollar),
        c => Some(Mark::Plain(c)),
    }
}

// The character that a backslash before this place stands for: the control character that follows,
// which is taken, or otherwise itself.
fn escaped(cursor: &mut Cursor) -> char
    ensures reads { (depth : ℕ) (math : Bool) → scan depth math true cursor.old.rest
        ≡ result_after
        ((result, kind_in depth math) ∷ []) (scan depth math false cursor.new.rest) }
    ensures forward { cursor.old.place ≤ cursor.new.place }
    ensures same_text { text_len cursor.new ≡ text_len cursor.old }
{
    let Some(c) = cursor.peek() else {
        return '\\';
    };
    if !is_control(c) {
        return '\\';
    }
    cursor.eat();
    c
}
