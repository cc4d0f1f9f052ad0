//! Laws of the definitions. A call of one, as `streamed_elements_answer();`, gives its statement to
//! the caller's proof.
ghost use Rattle.std.specs.Prelude.{◌≡◌, ◌++◌, IsTrue, List, length};
ghost use Rattle.hayagriva.specs.Library.{AreDistinct};
ghost use Rattle.hayagriva.specs.Syntax.{Syntax};
ghost use Rattle.haya_asked.specs.declared.questions.Questions.{Questions as QuestionsData};
ghost use Rattle.haya_source.specs.Elements.{Element, entries_of};
ghost use Rattle.haya_source_stream.specs.Answers.{AnswersByElements, keeps_order};
ghost use Rattle.haya_source_stream.specs.Asked.{AreFound, Found, found_parts, passing};
ghost use Rattle.haya_source_stream.specs.Enough.{IsWithin};
ghost use Rattle.haya_source_stream.specs.Kinds.{element_kind};
ghost use Rattle.haya_source_stream.specs.Printed.{last_text, told_text};
ghost use Rattle.haya_source_stream.specs.declared.asking.Shown.TheVariants.{Elements};
ghost use Rattle.haya_source_stream.specs.declared.kind.StreamedKind.{StreamedKind as KindData};

use haya_source::laws::all_elements_are_found;

/// What is printed of the elements of hits as they come, and behind them, is what the library that
/// was read from these elements answers by them, where no key comes twice and the hits are neither
/// sorted nor told from others.
pub fn streamed_elements_answer()
    ensures { (questions : QuestionsData) (kind : KindData) (s : Syntax) (es : List Element)
        (found : Found) →
        AreDistinct (entries_of es) → IsTrue (keeps_order questions) → AreFound s es found →
        IsWithin questions.max (length (passing questions found)) →
        AnswersByElements questions (element_kind kind) s es
        (told_text Elements kind 0 (found_parts (passing questions found))
        ++ last_text Elements kind (length (passing questions found)))
        (length (passing questions found)) }
{
    all_elements_are_found();
}
