//! Tests of the values at a place.
ghost use Rattle.std.specs.Prelude.{◌≡◌, IfErr, IfOk, Ok, map};
ghost use Rattle.std.specs.List.{list_any};
ghost use Rattle.haya_questions.specs.Test.{has_wanted, holds, is_as, is_opposite, is_text_of};
ghost use Rattle.haya_questions.specs.Test.{is_wanted, test_view, wanted_view};
ghost use Rattle.haya_questions.specs.TestText.{IsFaultOf, operator_text, test_read};
ghost use Rattle.haya_questions.specs.Value.{value_view};

use crate::at_place::values_at;
use crate::case_aside::{compared, family_name, folded, has_part};
use crate::error::TestError;
use crate::orders::value_against;
use crate::place::Place;
use crate::test_text::read_test;
use crate::value::Value;
use haya_text::OutOfMemory;
use haya_time::{Date, Duration};
use hayagriva::Hit;
use std::alloc::Global;
use std::cmp::Ordering;

/// What a test asks of values.
#[derive(Clone, Copy, Debug, PartialEq, Eq)]
pub enum Operator {
    /// `=`: some value is the text.
    Is,
    /// `!=`: no value is the text.
    IsNot,
    /// `~`: some value has the text in it.
    Has,
    /// `!~`: no value has the text in it.
    HasNot,
    /// `<`: some value is before.
    Below,
    /// `<=`: some value is before, or equal.
    AtMost,
    /// `>`: some value is after.
    Above,
    /// `>=`: some value is after, or equal.
    AtLeast,
}

impl Operator {
    /// The operator as it is written.
    pub fn as_str(self) -> &'static str
        ensures { result.now ≡ operator_text self }
    {
        match self {
            Operator::Is => "=",
            Operator::IsNot => "!=",
            Operator::Has => "~",
            Operator::HasNot => "!~",
            Operator::Below => "<",
            Operator::AtMost => "<=",
            Operator::Above => ">",
            Operator::AtLeast => ">=",
        }
    }

    // Whether it is the opposite of another operator.
    fn is_opposite(self) -> bool
        ensures { result ≡ is_opposite self }
    {
        match self {
            Operator::IsNot | Operator::HasNot => true,
            _ => false,
        }
    }
}

/// What a test wants.
#[derive(Debug, Drop, PartialEq, Eq)]
pub enum Wanted {
    /// A text, as the values of the place are compared with it: in default case fold, or as it is
    /// for a key.
    Text(String),
    /// A date, of which the parts that are told are wanted.
    Date(Date),
    /// A number.
    Number(i64),
    /// A duration.
    Duration(Duration),
}

/// A test of the values at a place: a place, an operator, and what is wanted.
#[derive(Debug, Drop, PartialEq, Eq)]
pub struct Test {
    /// The place.
    pub place: Place,
    /// What is asked of its values.
    pub operator: Operator,
    /// What they are compared with.
    pub wanted: Wanted,
}

impl Test {
    /// The test of a text such as `p.title ~ nature`: a place, an operator and a text, with white
    /// space around them. The text may be in quotes, with `\"` and `\\` for a quote and a
    /// backslash.
    ///
    /// The errors are looked for in this order. `NoOperator`: no operator is there. `UnknownField`:
    /// nothing has the name of the place. `Quotes`: the text begins with a quote, and is none in
    /// quotes. `EmptyText`: there is no text. For an order, `NoOrder`: the place has none; and
    /// `NotADate`, `NotANumber`, `NotADuration`: the text is no value of its kind. The other error
    /// is out of memory.
    pub fn parse(alloc: Global, text: &str) -> Result<Test, TestError>
        ensures ok { IfOk result (λ test. test_read text.now ≡ Ok (test_view test)) }
        ensures fault { IfErr result (IsFaultOf (test_read text.now)) }
    {
        read_test(alloc, text)
    }

    /// Whether the test holds of a hit.
    ///
    /// | Operator | Holds where |
    /// |---|---|
    /// | `=` | some value is the text, or some person has it as the family name |
    /// | `~` | some value has the text in it |
    /// | `!=`, `!~` | `=`, `~` doesn't hold |
    /// | `<`, `<=`, `>`, `>=` | some value is before, or after, what the text says |
    ///
    /// Texts are compared in default case fold, keys as they are. Dates, numbers, pages and
    /// durations are compared by value where the text is such a value: dates by the parts that the
    /// text has, numbers and pages by the first number, ranges of time by their start.
    #[tactic(auto, unfolding(crate::specs::Test::holds))]
    pub fn holds(&self, alloc: Global, hit: &Hit) -> Result<bool, OutOfMemory>
        ensures { IfOk result (λ answer. answer ≡ holds (test_view self.now) hit.now) }
    {
        let values = values_at(alloc, hit, &self.place)?;
        let some = self.is_some_as(alloc, values.as_slice())?;
        Ok(if self.operator.is_opposite() {
            !some
        } else {
            some
        })
    }

    // Whether some value is as the operator asks, or as its opposite does.
    fn is_some_as(&self, alloc: Global, values: &[Value]) -> Result<bool, OutOfMemory>
        ensures { IfOk result (λ answer. answer
            ≡ list_any (is_as self.now.operator (wanted_view self.now.wanted))
            (map value_view values.now)) }
    {
        'values: for value in values {
            if self.is_as(alloc, *value)? {
                return Ok(true);
            }
        }
        Ok(false)
    }

    // Whether a value is as the operator asks, or as its opposite does.
    fn is_as(&self, alloc: Global, value: Value) -> Result<bool, OutOfMemory>
        ensures { IfOk result (λ answer. answer
            ≡ is_as self.now.operator (wanted_view self.now.wanted) (value_view value.entry)) }
    {
        match self.operator {
            Operator::Is | Operator::IsNot => is_wanted(alloc, &self.wanted, value),
            Operator::Has | Operator::HasNot => has_wanted(alloc, &self.wanted, value),
            Operator::Below => Ok(value_against(value, &self.wanted).is_some_and(Ordering::is_lt)),
            Operator::AtMost => Ok(value_against(value, &self.wanted).is_some_and(Ordering::is_le)),
            Operator::Above => Ok(value_against(value, &self.wanted).is_some_and(Ordering::is_gt)),
            Operator::AtLeast => {
                Ok(value_against(value, &self.wanted).is_some_and(Ordering::is_ge))
            }
        }
    }
}

// Whether the value is what is wanted.
#[tactic(auto, unfolding(crate::specs::Test::is_wanted))]
fn is_wanted(alloc: Global, wanted: &Wanted, value: Value) -> Result<bool, OutOfMemory>
    ensures { IfOk result (λ answer. answer
        ≡ is_wanted (wanted_view wanted.now) (value_view value.entry)) }
{
    match wanted {
        Wanted::Text(text) => is_text_of(alloc, text.as_str(), value),
        Wanted::Date(_) | Wanted::Number(_) | Wanted::Duration(_) => {
            Ok(value_against(value, wanted) == Some(Ordering::Equal))
        }
    }
}

// Whether the text is that of the value, or the family name of the person.
fn is_text_of(alloc: Global, text: &str, value: Value) -> Result<bool, OutOfMemory>
    ensures { IfOk result (λ answer. answer ≡ is_text_of text.now (value_view value.entry)) }
{
    if compared(alloc, value)?.as_str() == text {
        return Ok(true);
    }
    match family_name(value) {
        Some(name) => Ok(folded(alloc, name)?.as_str() == text),
        None => Ok(false),
    }
}

// Whether the value has the text that is wanted in it.
#[tactic(auto, unfolding(crate::specs::Test::has_wanted))]
fn has_wanted(alloc: Global, wanted: &Wanted, value: Value) -> Result<bool, OutOfMemory>
    ensures { IfOk result (λ answer. answer
        ≡ has_wanted (wanted_view wanted.now) (value_view value.entry)) }
{
    match wanted {
        Wanted::Text(text) => Ok(has_part(text.as_str(), compared(alloc, value)?.as_str())),
        Wanted::Date(_) | Wanted::Number(_) | Wanted::Duration(_) => Ok(false),
    }
}
