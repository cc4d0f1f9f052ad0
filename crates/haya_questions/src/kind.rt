//! How the values of a part are compared.
ghost use Rattle.std.specs.Prelude.{◌≡◌};
ghost use Rattle.haya_questions.specs.Place.{FieldPart, part_view};
ghost use Rattle.haya_questions.specs.TestText.{part_kind};

use crate::place::Part;
use haya_entry::FieldName;

/// How the values of a part are compared.
#[derive(Clone, Copy)]
pub(crate) enum Kind {
    /// As texts, which have no order.
    Text,
    /// As dates.
    Date,
    /// By their first number or page.
    Number,
    /// As durations, and ranges by their start.
    Duration,
}

/// How the values of the part are compared.
pub(crate) fn kind_of(part: &Part) -> Kind
    ensures { result ≡ part_kind (part_view part.now) }
{
    match part {
        Part::Field(field) => kind_of_field(*field),
        Part::Key | Part::Type | Part::Role(_) => Kind::Text,
    }
}

// The same of a field.
fn kind_of_field(field: FieldName) -> Kind
    ensures { result ≡ part_kind (FieldPart field) }
{
    match field {
        FieldName::Date => Kind::Date,
        FieldName::Issue
        | FieldName::Chapter
        | FieldName::Volume
        | FieldName::Edition
        | FieldName::VolumeTotal
        | FieldName::PageTotal
        | FieldName::PageRange => Kind::Number,
        FieldName::TimeRange | FieldName::Runtime => Kind::Duration,
        _ => Kind::Text,
    }
}
