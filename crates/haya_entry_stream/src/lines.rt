//! The entries that a text in lines lists.
ghost use Rattle.std.specs.Prelude.{◌≡◌, ◌⊎◌, ◌++◌, ℕ, List, [], Some, None, length};
ghost use Rattle.std.specs.Prelude.{IfErr, IfOk, OnOk, string_bytes};
ghost use Rattle.haya_line_library.specs.Opened.{Opened};
ghost use Rattle.haya_entry_stream.specs.Lines.{AnswersClosed, BeginsList, IsFaultOf, IsListOf};
ghost use Rattle.haya_entry_stream.specs.Listed.{AnswersEnough, AnswersList, AnswersPart};

use crate::entry_answerer::EntryAnswerer;
use crate::error::{ListError, Stopped};
use haya_line_library::{InputError, OpenEntries};
use haya_line_stream::{Answerer, StreamError, answer_all};
use std::alloc::Global;
use std::io::{Read, Write};

/// Answers each entry that the input lists in lines, in order, as soon as the next begins or the
/// input ends; or the entries of a first part of it, where the answerer is done with these. Keys
/// that come again are not looked for.
///
/// At a fault the entries in front of it are answered, and the answerer is handed back as it is left
/// there.
pub fn answer_lines<A: EntryAnswerer + Drop, R: Read, W: Write>(
    alloc: Global,
    answerer: A,
    input: &mut R,
    out: &mut W,
) -> Result<A, Stopped<StreamError<ListError<InputError, A::Refusal>>, A, ()>>
    ensures all { IfOk result (λ answered.
        AnswersList IsListOf A.answers A.is_done answerer answered (R.remaining input.old)
        (R.remaining input.new) (W.contents out.old) (W.contents out.new)
        ⊎ AnswersEnough BeginsList A.answers A.is_done answerer answered (R.remaining input.old)
        (R.remaining input.new) (W.contents out.old) (W.contents out.new)) }
    ensures part { IfErr result (λ stopped. AnswersPart BeginsList IsFaultOf (λ _ _ _. Unit {0})
        A.answers A.is_done A.refuses answerer stopped.answerer (R.remaining input.old)
        (R.remaining input.new) (W.contents out.old) (W.contents out.new) stopped.fault) }
{
    let mut list = LineList {
        alloc,
        entries: OpenEntries::new(alloc),
        number: 0,
        answerer,
    };
    match answer_all(alloc, &mut list, input, out) {
        Ok(()) => Ok(answerer_of(list)),
        Err(fault) => Err(Stopped {
            fault,
            answerer: answerer_of(list),
            reader: (),
        }),
    }
}

// The entries that are open, how many lines were taken, and what is asked of an entry.
#[derive(Drop)]
struct LineList<A> {
    alloc: Global,
    entries: OpenEntries,
    number: usize,
    answerer: A,
}

// What is asked of an entry.
fn answerer_of<A: Drop>(list: LineList<A>) -> A
    ensures { result ≡ list.answerer }
{
    list.answerer
}

impl<A: EntryAnswerer> LineList<A> {
    ghost use Rattle.hayagriva.specs.Tree.{Tree};

    // Answers the entry that is closed, if there is one.
    fn answer_closed(
        &mut self,
        printed: &mut String,
    ) -> Result<(), ListError<InputError, A::Refusal>>
        ensures answers { OnOk result ((more : List ℕ)
            × AnswersClosed A.answers self.old.answerer self.old.entries.closed more
            self.new.answerer
            × (string_bytes printed.new ≡ string_bytes printed.old ++ more)) }
        ensures entries { self.new.entries ≡ self.old.entries }
        ensures number { self.new.number ≡ self.old.number }
        ensures refuses { IfErr result (λ e. (r : A.Refusal) × (e ≡ ListError.Entry r)
            × (entry : Tree) × (self.old.entries.closed ≡ Some entry)
            × A.refuses self.old.answerer entry r) }
    {
        let Some(entry) = self.entries.closed() else {
            return Ok(());
        };
        match self.answerer.answer(entry, printed) {
            Ok(()) => Ok(()),
            Err(refusal) => Err(ListError::Entry(refusal)),
        }
    }
}

impl<A: EntryAnswerer> Answerer for LineList<A> {
    ghost use Rattle.std.specs.Prelude.{◌≡◌, ◌+◌};
    ghost use Rattle.haya_entry_stream.specs.Lines.{AnswersTurn, RefusesTurn};

    type Refusal = ListError<InputError, A::Refusal>;

    ghost answers = { λ s turn printed t. (t.number ≡ s.number + 1)
        × AnswersTurn A.answers s.entries.chain s.answerer turn printed t.entries t.answerer };

    ghost refuses = { λ s turn e t.
        RefusesTurn A.refuses (s.number + 1) s.entries.chain s.answerer turn e t.answerer };

    ghost is_done = { λ s. A.is_done s.answerer };

    fn answer(
        &mut self,
        line: &str,
        printed: &mut String,
    ) -> Result<(), ListError<InputError, A::Refusal>> {
        let Some(number) = self.number.checked_add(1) else {
            return Err(ListError::Line(InputError::OutOfMemory));
        };
        if let Err(fault) = self.entries.take_line(self.alloc, line, number) {
            return Err(ListError::Line(fault));
        }
        self.number = number;
        self.answer_closed(printed)
    }

    fn end(&mut self, printed: &mut String) -> Result<(), ListError<InputError, A::Refusal>> {
        let Some(number) = self.number.checked_add(1) else {
            return Err(ListError::Line(InputError::OutOfMemory));
        };
        if let Err(fault) = self.entries.end() {
            return Err(ListError::Line(fault));
        }
        self.number = number;
        self.answer_closed(printed)
    }

    fn is_done(&self) -> bool {
        self.answerer.is_done()
    }
}
