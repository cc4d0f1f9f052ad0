//! The texts of tests.
ghost use Rattle.std.specs.Prelude.{◌≡◌, ◌<◌, ◌++◌, false, IfErr, IfOk, IfSome, Ok, Some};
ghost use Rattle.std.specs.Prelude.{encode_utf8_all, length, option_map, position};
ghost use Rattle.std.specs.Prelude.{slice_index, string_bytes, unwrap_or};
ghost use Rattle.std.specs.Str.{chars};
ghost use Rattle.haya_questions.specs.Place.{part_view, place_view};
ghost use Rattle.haya_questions.specs.Test.{test_view, wanted_view};
ghost use Rattle.haya_questions.specs.TestText.{AreSigns, IsFaultOf, at_end};
ghost use Rattle.haya_questions.specs.TestText.{cut_from, cut_view};
ghost use Rattle.haya_questions.specs.TestText.{exclamation_mark, fault_of, is_sign, operator_cut};
ghost use Rattle.haya_questions.specs.TestText.{operator_of, order_fault, part_kind};
ghost use Rattle.haya_questions.specs.TestText.{place_or_fault, quoted, test_of, test_read};
ghost use Rattle.haya_questions.specs.TestText.{text_read, typed_wanted, unquoted, wanted_date};
ghost use Rattle.haya_questions.specs.TestText.{wanted_duration, wanted_in_order, wanted_number};
ghost use Rattle.haya_questions.specs.TestText.{wanted_read, wanted_text};
ghost use Rattle.haya_questions.specs.Whole.{whole_read};

use crate::case_aside::case_aside;
use crate::error::{PlaceError, TestError};
use crate::kind::{Kind, kind_of};
use crate::place::{Part, Place};
use crate::test::{Operator, Test, Wanted};
use haya_text::OutOfMemory;
use haya_text::chars::split_char;
use haya_time::{Date, Duration};
use std::alloc::Global;

/// The test that a text reads as.
#[tactic(auto, unfolding(crate::specs::TestText::test_read))]
pub(crate) fn read_test(alloc: Global, text: &str) -> Result<Test, TestError>
    ensures ok { IfOk result (λ test. test_read text.now ≡ Ok (test_view test)) }
    ensures fault { IfErr result (IsFaultOf (test_read text.now)) }
{
    let Some(cut) = cut_at_operator(text) else {
        return Err(TestError::NoOperator);
    };
    let place = read_place(alloc, cut.before.trim())?;
    let wanted = read_text(alloc, cut.behind.trim())?;
    test_of(alloc, place, cut.operator, wanted.as_str())
}

// The test of a place, an operator, and a text.
fn test_of(alloc: Global, place: Place, operator: Operator, text: &str) -> Result<Test, TestError>
    ensures ok { IfOk result (λ test.
        test_of (place_view place) operator text.now ≡ Ok (test_view test)) }
    ensures fault { IfErr result (IsFaultOf (test_of (place_view place) operator text.now)) }
{
    let wanted = read_wanted(alloc, operator, &place.part, text)?;
    Ok(Test {
        place,
        operator,
        wanted,
    })
}

// A text round an operator.
#[derive(Clone, Copy)]
struct Cut<'t> {
    before: &'t str,
    operator: Operator,
    behind: &'t str,
}

// The text before and behind the first sign of an operator, if one begins there.
#[tactic(auto, unfolding(crate::specs::TestText::operator_cut))]
fn cut_at_operator(text: &str) -> Option<Cut<'_>>
    ensures { option_map cut_view result ≡ operator_cut text.now }
{
    let start = sign_place(text)?;
    cut_from(text, start)
}

// The place of the first sign of an operator.
fn sign_place(text: &str) -> Option<usize>
    ensures { result ≡ position is_sign text.now }
{
    text.as_bytes().iter().position(|byte| is_sign(*byte))
}

fn is_sign(byte: u8) -> bool
    ensures { result ≡ is_sign byte }
{
    byte == b'!' || byte == b'=' || byte == b'~' || byte == b'<' || byte == b'>'
}

// The text before and behind an operator that begins at this place, if one does.
fn cut_from(text: &str, start: usize) -> Option<Cut<'_>>
    requires { start < length text.now }
    ensures { option_map cut_view result ≡ cut_from text.now start }
{
    let operator = operator_of(byte_at(text, start), byte_at(text, start + 1))?;
    Some(Cut {
        before: &text[..start],
        operator,
        behind: &text[start + operator.as_str().len()..],
    })
}

// The byte at a place, or 0 behind the end.
fn byte_at(text: &str, place: usize) -> u8
    ensures { result ≡ slice_index text.now place }
{
    text.as_bytes().get(place).copied().unwrap_or(0)
}

// The operator that two signs begin with, the longest.
fn operator_of(first: u8, second: u8) -> Option<Operator>
    ensures operator { result ≡ operator_of first second }
    ensures signs { IfSome result (AreSigns first second) }
{
    if first == b'!' {
        return opposite_of(second);
    }
    let or_equal = second == b'=';
    if first == b'=' {
        Some(Operator::Is)
    } else if first == b'~' {
        Some(Operator::Has)
    } else if first == b'<' {
        Some(if or_equal {
            Operator::AtMost
        } else {
            Operator::Below
        })
    } else if first == b'>' {
        Some(if or_equal {
            Operator::AtLeast
        } else {
            Operator::Above
        })
    } else {
        None
    }
}

// The opposite of the operator of a sign.
fn opposite_of(sign: u8) -> Option<Operator>
    ensures operator { result ≡ operator_of exclamation_mark sign }
    ensures signs { IfSome result (AreSigns exclamation_mark sign) }
{
    if sign == b'=' {
        Some(Operator::IsNot)
    } else if sign == b'~' {
        Some(Operator::HasNot)
    } else {
        None
    }
}

// The place of a word.
#[tactic(auto, unfolding(crate::specs::TestText::place_or_fault))]
fn read_place(alloc: Global, word: &str) -> Result<Place, TestError>
    ensures ok { IfOk result (λ place. place_or_fault word.now ≡ Ok (place_view place)) }
    ensures fault { IfErr result (IsFaultOf (place_or_fault word.now)) }
{
    match Place::parse(alloc, word) {
        Ok(place) => Ok(place),
        Err(PlaceError::UnknownField(word)) => Err(TestError::UnknownField(word)),
        Err(PlaceError::OutOfMemory) => Err(TestError::OutOfMemory),
    }
}

// The text that is wanted, out of its quotes.
#[tactic(auto, unfolding(crate::specs::TestText::text_read))]
fn read_text(alloc: Global, text: &str) -> Result<String, TestError>
    ensures ok { IfOk result (λ wanted. text_read text.now ≡ Ok (string_bytes wanted)) }
    ensures fault { IfErr result (IsFaultOf (text_read text.now)) }
{
    let Some(wanted) = unquoted(alloc, text)? else {
        return Err(TestError::Quotes);
    };
    if wanted.is_empty() {
        return Err(TestError::EmptyText);
    }
    Ok(wanted)
}

// What a text means: that in quotes where it begins with a quote, otherwise the text itself.
#[tactic(auto, unfolding(crate::specs::TestText::unquoted))]
fn unquoted(alloc: Global, text: &str) -> Result<Option<String>, OutOfMemory>
    ensures { IfOk result (λ meant. option_map string_bytes meant ≡ unquoted text.now) }
{
    match text.strip_prefix('"') {
        Some(rest) => quoted(alloc, rest),
        None => Ok(Some(String::from_str(alloc, text)?)),
    }
}

// What characters mean to the closing quote, which is the last of them.
fn quoted(alloc: Global, text: &str) -> Result<Option<String>, OutOfMemory>
    ensures { IfOk result (λ meant. option_map string_bytes meant
        ≡ option_map encode_utf8_all (quoted false (chars text.now))) }
{
    let mut meant = String::new(alloc);
    let mut escaped = false;
    let mut rest = text;
    'characters: while let Some((c, tail)) = split_char(rest) {
        rest = tail;
        if escaped {
            if c != '"' && c != '\\' {
                return Ok(None);
            }
            meant.push(c)?;
            escaped = false;
            continue;
        }
        if c == '"' {
            return Ok(closed(meant, tail));
        }
        if c == '\\' {
            escaped = true;
            continue;
        }
        meant.push(c)?;
    }
    Ok(None)
}

// The text, where nothing follows its closing quote.
fn closed(meant: String, tail: &str) -> Option<String>
    ensures { option_map string_bytes result ≡ option_map
        (λ t. string_bytes meant ++ encode_utf8_all t) (at_end (chars tail.now)) }
{
    match split_char(tail) {
        None => Some(meant),
        Some(_) => None,
    }
}

// What is wanted by an operator.
fn read_wanted(
    alloc: Global,
    operator: Operator,
    part: &Part,
    text: &str,
) -> Result<Wanted, TestError>
    ensures ok { IfOk result (λ wanted.
        wanted_read operator (part_view part.now) text.now ≡ Ok (wanted_view wanted)) }
    ensures fault { IfErr result
        (IsFaultOf (wanted_read operator (part_view part.now) text.now)) }
{
    match operator {
        Operator::Is | Operator::IsNot => Ok(value_or_text(alloc, part, text)?),
        Operator::Has | Operator::HasNot => Ok(wanted_text(alloc, part, text)?),
        Operator::Below | Operator::AtMost | Operator::Above | Operator::AtLeast => {
            wanted_in_order(alloc, part, text)
        }
    }
}

// The text as a value of the part's kind, or as a text where it is none.
fn value_or_text(alloc: Global, part: &Part, text: &str) -> Result<Wanted, OutOfMemory>
    ensures { IfOk result (λ wanted. wanted_view wanted
        ≡ unwrap_or (typed_wanted (part_kind (part_view part.now)) text.now)
        (wanted_text (part_view part.now) text.now)) }
{
    match typed_wanted(kind_of(part), text) {
        Some(wanted) => Ok(wanted),
        None => wanted_text(alloc, part, text),
    }
}

// The text, as values of the part are compared with it.
fn wanted_text(alloc: Global, part: &Part, text: &str) -> Result<Wanted, OutOfMemory>
    ensures { IfOk result (λ wanted.
        wanted_view wanted ≡ wanted_text (part_view part.now) text.now) }
{
    Ok(Wanted::Text(case_aside(alloc, part, text)?))
}

// The text as a value of the part's kind, or why it is none.
fn wanted_in_order(alloc: Global, part: &Part, text: &str) -> Result<Wanted, TestError>
    ensures ok { IfOk result (λ wanted.
        wanted_in_order (part_view part.now) text.now ≡ Ok (wanted_view wanted)) }
    ensures fault { IfErr result (IsFaultOf (wanted_in_order (part_view part.now) text.now)) }
{
    let kind = kind_of(part);
    match typed_wanted(kind, text) {
        Some(wanted) => Ok(wanted),
        None => Err(order_fault(alloc, kind, part, text)?),
    }
}

// Why a text is no value of the kind.
fn order_fault(alloc: Global, kind: Kind, part: &Part, text: &str) -> Result<TestError, OutOfMemory>
    ensures { IfOk result (λ e. fault_of e
        ≡ Some (order_fault kind (part_view part.now) text.now)) }
{
    Ok(match kind {
        Kind::Text => TestError::NoOrder(String::from_str(alloc, part.name())?),
        Kind::Date => TestError::NotADate(String::from_str(alloc, text)?),
        Kind::Number => TestError::NotANumber(String::from_str(alloc, text)?),
        Kind::Duration => TestError::NotADuration(String::from_str(alloc, text)?),
    })
}

// The text as a value of the kind, if it is one that has an order.
fn typed_wanted(kind: Kind, text: &str) -> Option<Wanted>
    ensures { option_map wanted_view result ≡ typed_wanted kind text.now }
{
    match kind {
        Kind::Text => None,
        Kind::Date => wanted_date(text),
        Kind::Number => wanted_number(text),
        Kind::Duration => wanted_duration(text),
    }
}

#[tactic(auto, unfolding(crate::specs::TestText::wanted_date))]
fn wanted_date(text: &str) -> Option<Wanted>
    ensures { option_map wanted_view result ≡ wanted_date text.now }
{
    match text.parse::<Date>() {
        Ok(date) => Some(Wanted::Date(date)),
        Err(_) => None,
    }
}

#[tactic(auto, unfolding(crate::specs::TestText::wanted_number))]
fn wanted_number(text: &str) -> Option<Wanted>
    ensures { option_map wanted_view result ≡ wanted_number text.now }
{
    let number = whole_number(text)?;
    Some(Wanted::Number(number))
}

// The number of digits, perhaps behind a sign, where 64 bits hold it.
fn whole_number(text: &str) -> Option<i64>
    ensures { result ≡ whole_read text.now }
{
    text.parse::<i64>().ok()
}

#[tactic(auto, unfolding(crate::specs::TestText::wanted_duration))]
fn wanted_duration(text: &str) -> Option<Wanted>
    ensures { option_map wanted_view result ≡ wanted_duration text.now }
{
    match text.parse::<Duration>() {
        Ok(duration) => Some(Wanted::Duration(duration)),
        Err(_) => None,
    }
}
