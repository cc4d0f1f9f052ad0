//! The values of an entry.

use haya_numbers::{Numeric, PageRanges};
use haya_people::{Person, PersonRole};
use haya_text::FormatString;
use haya_time::{Date, Duration, DurationRange};
use haya_values::{MaybeTyped, QualifiedUrl};

/// A value of an entry, borrowed from it.
#[derive(Clone, Copy)]
pub(crate) enum Value<'e> {
    /// The key.
    Key(&'e str),
    /// A text as it stands.
    Plain(&'e str),
    /// A text with its markup.
    Text(&'e FormatString),
    /// A text in the place of a number, pages or a time.
    Untyped(&'e str),
    /// A person, whose role the place tells.
    Person(&'e Person),
    /// A person in a role.
    InRole(&'e PersonRole, &'e Person),
    /// A date.
    Date(&'e Date),
    /// A number, or a set of them.
    Number(&'e Numeric),
    /// Pages.
    Pages(&'e PageRanges),
    /// A length of time.
    Duration(&'e Duration),
    /// A stretch of time.
    Range(&'e DurationRange),
}

/// What a field holds, as a value of its entry.
pub(crate) trait ToValue {
    ghost use Rattle.std.specs.Prelude.{◌≡◌};
    ghost use Rattle.haya_questions.specs.Value.{ValueView, value_view};

    // What it is to its readers.
    ghost View: { Type 0 };

    ghost view: { Self → View };

    // The value that it is.
    ghost value: { View → ValueView };

    /// The value that it is.
    fn to_value(&self) -> Value<'_>
        ensures { value_view result ≡ value (view self.now) };
}

impl ToValue for FormatString {
    ghost use Rattle.haya_text.specs.Texts.{TextView, text_view};
    ghost use Rattle.haya_questions.specs.Fields.{text_value};

    ghost View = { TextView };

    ghost view = { text_view };

    ghost value = { text_value };

    fn to_value(&self) -> Value<'_> {
        Value::Text(self)
    }
}

impl ToValue for QualifiedUrl {
    ghost use Rattle.haya_values.specs.Url.{UrlView, url_view};
    ghost use Rattle.haya_questions.specs.Fields.{url_value};

    ghost View = { UrlView };

    ghost view = { url_view };

    ghost value = { url_value };

    fn to_value(&self) -> Value<'_> {
        Value::Plain(self.value.as_str())
    }
}

impl ToValue for Person {
    ghost use Rattle.haya_people.specs.Person.{PersonView, person_view};
    ghost use Rattle.haya_questions.specs.Value.{PersonValue};

    ghost View = { PersonView };

    ghost view = { person_view };

    ghost value = { PersonValue };

    fn to_value(&self) -> Value<'_> {
        Value::Person(self)
    }
}

impl ToValue for Date {
    ghost use Rattle.haya_time.specs.declared.date.Date as date;
    ghost use Rattle.haya_questions.specs.Value.{DateValue};

    ghost View = { date.Date };

    ghost view = { λ d. d };

    ghost value = { DateValue };

    fn to_value(&self) -> Value<'_> {
        Value::Date(self)
    }
}

impl ToValue for Numeric {
    ghost use Rattle.haya_numbers.specs.Numeric.{NumericView, numeric_view};
    ghost use Rattle.haya_questions.specs.Value.{NumberValue};

    ghost View = { NumericView };

    ghost view = { numeric_view };

    ghost value = { NumberValue };

    fn to_value(&self) -> Value<'_> {
        Value::Number(self)
    }
}

impl ToValue for PageRanges {
    ghost use Rattle.std.specs.Prelude.{List};
    ghost use Rattle.haya_numbers.specs.Pages.{PartView, parts};
    ghost use Rattle.haya_questions.specs.Value.{PagesValue};

    ghost View = { List PartView };

    ghost view = { parts };

    ghost value = { PagesValue };

    fn to_value(&self) -> Value<'_> {
        Value::Pages(self)
    }
}

impl ToValue for Duration {
    ghost use Rattle.haya_time.specs.declared.duration.Duration as duration;
    ghost use Rattle.haya_questions.specs.Value.{DurationValue};

    ghost View = { duration.Duration };

    ghost view = { λ d. d };

    ghost value = { DurationValue };

    fn to_value(&self) -> Value<'_> {
        Value::Duration(self)
    }
}

impl ToValue for DurationRange {
    ghost use Rattle.haya_time.specs.declared.duration.range.DurationRange as range;
    ghost use Rattle.haya_questions.specs.Value.{RangeValue};

    ghost View = { range.DurationRange };

    ghost view = { λ r. r };

    ghost value = { RangeValue };

    fn to_value(&self) -> Value<'_> {
        Value::Range(self)
    }
}

impl<T: ToValue> ToValue for MaybeTyped<T> {
    ghost use Rattle.haya_values.specs.MaybeTyped.{TypedOrText, maybe_typed_view};
    ghost use Rattle.haya_questions.specs.Fields.{typed_value};

    ghost View = { TypedOrText T.View };

    ghost view = { maybe_typed_view T.view };

    ghost value = { typed_value T.value };

    /// The value, or the text that is kept in its place.
    fn to_value(&self) -> Value<'_> {
        match self {
            MaybeTyped::Typed(value) => value.to_value(),
            MaybeTyped::String(text) => Value::Untyped(text.as_str()),
        }
    }
}
