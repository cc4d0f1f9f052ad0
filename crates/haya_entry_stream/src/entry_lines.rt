//! The entries of a text of which each line says one.
ghost use Rattle.std.specs.Prelude.{◌≡◌, ◌⊎◌, ◌++◌, ℕ, List, IfErr, IfOk, OnOk, string_bytes};
ghost use Rattle.std.specs.Str.Lines.{lines};
ghost use Rattle.hayagriva.specs.Tree.{view};
ghost use Rattle.haya_entry_stream.specs.EntryLines.{IsFaultOf, LeavesReader, ReadsFirst, ReadsLines};
ghost use Rattle.haya_entry_stream.specs.Listed.{AnswersEnough, AnswersList, AnswersPart};

use crate::entry_answerer::EntryAnswerer;
use crate::entry_reader::EntryReader;
use crate::error::{EntryError, ListError, Stopped};
use haya_line_stream::{Answerer, StreamError, answer_all};
use hayagriva::Entry;
use std::alloc::Global;
use std::io::{Read, Write};

/// Answers the entry that the reader reads from each line of the input that isn't empty, in order,
/// and lets it go before the next line; or the entries of a first part of it, where the answerer is
/// done with these. Keys that come again are not looked for. The answerer and the reader are handed
/// back.
///
/// At a fault the entries in front of it are answered, and the answerer and the reader are handed
/// back as they are left there.
pub fn answer_entry_lines<L: EntryReader + Drop, A: EntryAnswerer + Drop, R: Read, W: Write>(
    alloc: Global,
    reader: L,
    answerer: A,
    input: &mut R,
    out: &mut W,
) -> Result<(A, L), Stopped<StreamError<ListError<EntryError<L::Error>, A::Refusal>>, A, L>>
    ensures all { IfOk result (λ done.
        AnswersList (λ text entries. ReadsLines L.says (lines text) entries reader done.1)
        A.answers A.is_done answerer done.0 (R.remaining input.old)
        (R.remaining input.new) (W.contents out.old) (W.contents out.new)
        ⊎ AnswersEnough (λ _ text entries. ReadsFirst L.says text entries reader done.1)
        A.answers A.is_done answerer done.0 (R.remaining input.old)
        (R.remaining input.new) (W.contents out.old) (W.contents out.new)) }
    ensures part { IfErr result (λ stopped. AnswersPart
        (λ _ text entries. (after : L) × ReadsFirst L.says text entries reader after)
        (IsFaultOf L.says L.refuses reader) (LeavesReader L.says L.leaves reader stopped.reader)
        A.answers A.is_done A.refuses answerer stopped.answerer
        (R.remaining input.old) (R.remaining input.new)
        (W.contents out.old) (W.contents out.new) stopped.fault) }
{
    let mut list = EntryLineList {
        reader,
        number: 0,
        answerer,
    };
    match answer_all(alloc, &mut list, input, out) {
        Ok(()) => Ok(parts_of(list)),
        Err(fault) => {
            let (answerer, reader) = parts_of(list);
            Err(Stopped {
                fault,
                answerer,
                reader,
            })
        }
    }
}

// How a line is read, how many were taken, and what is asked of an entry.
#[derive(Drop)]
struct EntryLineList<L, A> {
    reader: L,
    number: usize,
    answerer: A,
}

// What is asked of an entry, and how a line is read.
fn parts_of<L: Drop, A: Drop>(list: EntryLineList<L, A>) -> (A, L)
    ensures { result ≡ (list.answerer, list.reader) }
{
    let EntryLineList {
        reader,
        answerer,
        ..
    } = list;
    (answerer, reader)
}

impl<L: EntryReader, A: EntryAnswerer> EntryLineList<L, A> {
    // Answers an entry.
    fn answer_entry(
        &mut self,
        entry: &Entry,
        printed: &mut String,
    ) -> Result<(), ListError<EntryError<L::Error>, A::Refusal>>
        ensures answers { OnOk result ((more : List ℕ)
            × A.answers self.old.answerer (view entry.now) more self.new.answerer
            × (string_bytes printed.new ≡ string_bytes printed.old ++ more)) }
        ensures reader { self.new.reader ≡ self.old.reader }
        ensures number { self.new.number ≡ self.old.number }
        ensures refuses { IfErr result (λ e. (r : A.Refusal) × (e ≡ ListError.Entry r)
            × A.refuses self.old.answerer (view entry.now) r) }
    {
        match self.answerer.answer(entry, printed) {
            Ok(()) => Ok(()),
            Err(refusal) => Err(ListError::Entry(refusal)),
        }
    }
}

impl<L: EntryReader, A: EntryAnswerer> Answerer for EntryLineList<L, A> {
    ghost use Rattle.std.specs.Prelude.{◌+◌};
    ghost use Rattle.haya_entry_stream.specs.EntryLines.{AnswersTurn, RefusesTurn};

    type Refusal = ListError<EntryError<L::Error>, A::Refusal>;

    ghost answers = { λ s turn printed t. AnswersTurn L.says A.answers
        s.number s.reader s.answerer turn printed t.number t.reader t.answerer };

    ghost refuses = { λ s turn e t. RefusesTurn L.says L.refuses L.leaves A.refuses
        (s.number + 1) s.reader s.answerer turn e t.reader t.answerer };

    ghost is_done = { λ s. A.is_done s.answerer };

    fn answer(
        &mut self,
        line: &str,
        printed: &mut String,
    ) -> Result<(), ListError<EntryError<L::Error>, A::Refusal>> {
        let Some(number) = self.number.checked_add(1) else {
            return Err(ListError::Line(EntryError::TooMany));
        };
        self.number = number;
        if line.is_empty() {
            return Ok(());
        }
        match self.reader.read(line) {
            Ok(entry) => self.answer_entry(&entry, printed),
            Err(error) => Err(ListError::Line(EntryError::Line(number, error))),
        }
    }

    fn end(
        &mut self,
        _printed: &mut String,
    ) -> Result<(), ListError<EntryError<L::Error>, A::Refusal>> {
        Ok(())
    }

    fn is_done(&self) -> bool {
        self.answerer.is_done()
    }
}
