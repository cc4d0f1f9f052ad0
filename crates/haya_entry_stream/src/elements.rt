//! The entries of a text in JSON of which each element says one.
ghost use Rattle.std.specs.Prelude.{◌≡◌, ◌⊎◌, ℕ, List, Option, Some, IfErr, IfOk};
ghost use Rattle.std.specs.Str.Lines.{lines};
ghost use Rattle.haya_json_elements.specs.Elements.{element_lines};
ghost use Rattle.haya_entry_stream.specs.Elements.{lines_left, loan_of};
ghost use Rattle.haya_entry_stream.specs.EntryLines.{IsFaultOf, LeavesReader, ReadsFirst, ReadsLines};
ghost use Rattle.haya_entry_stream.specs.Listed.{AnswersEnough, AnswersList, AnswersPart};

use crate::entry_answerer::EntryAnswerer;
use crate::entry_lines::answer_entry_lines;
use crate::entry_reader::EntryReader;
use crate::error::{EntryError, ListError, Stopped};
use crate::lent::{Lent, Loan};
use haya_json_elements::{Brackets, ElementLines};
use haya_line_stream::StreamError;
use std::alloc::Global;
use std::io::{Read, Write};
use std::marker::{Brand, PhantomData};

/// Answers the entry that the reader reads from each element of the input, in order, and lets it go
/// before the next one; or the entries of a first part of it, where the answerer is done with
/// these. The input is a text in JSON with brackets of this kind round its elements, and the reader
/// is given each as a line of `ElementLines`. Keys that come again are not looked for. The answerer
/// and the reader are handed back.
///
/// At a fault the entries in front of it are answered, and the answerer and the reader are handed
/// back as they are left there.
pub fn answer_elements<L: EntryReader + Drop, A: EntryAnswerer + Drop, R: Read, W: Write>(
    alloc: Global,
    brackets: Brackets,
    reader: L,
    answerer: A,
    input: &mut R,
    out: &mut W,
) -> Result<(A, L), Stopped<StreamError<ListError<EntryError<L::Error>, A::Refusal>>, A, L>>
    ensures all { (text : List ℕ) → R.remaining input.old ≡ Some text → IfOk result (λ done.
        AnswersList (λ bytes entries.
        ReadsLines L.says (lines (element_lines brackets bytes)) entries reader done.1)
        A.answers A.is_done answerer done.0 (R.remaining input.old)
        (R.remaining input.new) (W.contents out.old) (W.contents out.new)
        ⊎ (left : Option (List ℕ))
        × AnswersEnough (λ _ part entries. ReadsFirst L.says part entries reader done.1)
        A.answers A.is_done answerer done.0 (Some (element_lines brackets text)) left
        (W.contents out.old) (W.contents out.new)) }
    ensures part { (text : List ℕ) → R.remaining input.old ≡ Some text → IfErr result (λ stopped.
        (left : Option (List ℕ)) × AnswersPart
        (λ _ part entries. (after : L) × ReadsFirst L.says part entries reader after)
        (IsFaultOf L.says L.refuses reader) (LeavesReader L.says L.leaves reader stopped.reader)
        A.answers A.is_done A.refuses answerer stopped.answerer
        (Some (element_lines brackets text)) left
        (W.contents out.old) (W.contents out.new) stopped.fault) }
{
    let lent = Lent::<R, Brand> {
        reader: input,
        loan: PhantomData,
    };
    let mut elements = ElementLines::new(lent, brackets);
    answer_lent::<Brand, L, A, R, W>(alloc, reader, answerer, &mut elements, out)
}

// The same of what a reader that is lent by this loan has left: `text` are the lines of that.
fn answer_lent<K: Loan, L: EntryReader + Drop, A: EntryAnswerer + Drop, R: Read, W: Write>(
    alloc: Global,
    reader: L,
    answerer: A,
    elements: &mut ElementLines<Lent<'_, R, K>>,
    out: &mut W,
) -> Result<(A, L), Stopped<StreamError<ListError<EntryError<L::Error>, A::Refusal>>, A, L>>
    requires { loan_of elements.old ≡ K.name }
    ensures same_loan { (text : List ℕ) → lines_left R.remaining elements.old ≡ Some text
        → loan_of elements.new ≡ loan_of elements.old }
    ensures all { (text : List ℕ) → lines_left R.remaining elements.old ≡ Some text
        → IfOk result (λ done.
        AnswersList (λ part entries. ReadsLines L.says (lines part) entries reader done.1)
        A.answers A.is_done answerer done.0 (Some text) (lines_left R.remaining elements.new)
        (W.contents out.old) (W.contents out.new)
        ⊎ AnswersEnough (λ _ part entries. ReadsFirst L.says part entries reader done.1)
        A.answers A.is_done answerer done.0 (Some text) (lines_left R.remaining elements.new)
        (W.contents out.old) (W.contents out.new)) }
    ensures part { (text : List ℕ) → lines_left R.remaining elements.old ≡ Some text
        → IfErr result (λ stopped. AnswersPart
        (λ _ part entries. (after : L) × ReadsFirst L.says part entries reader after)
        (IsFaultOf L.says L.refuses reader) (LeavesReader L.says L.leaves reader stopped.reader)
        A.answers A.is_done A.refuses answerer stopped.answerer
        (Some text) (lines_left R.remaining elements.new)
        (W.contents out.old) (W.contents out.new) stopped.fault) }
{
    answer_entry_lines(alloc, reader, answerer, elements, out)
}
