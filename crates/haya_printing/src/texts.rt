//! The texts of values.
ghost use Rattle.std.specs.Prelude.{◌≡◌, ◌∷◌, ◌++◌, map, option_map, OnOk};
ghost use Rattle.haya_lines.specs.Signs.{colon};
ghost use Rattle.haya_people.specs.Person.{person_view};
ghost use Rattle.haya_people.specs.Roles.{role_name, role_view, roles_view};
ghost use Rattle.haya_printing.specs.Printed.{affiliated_item, also_roles, role_items, roles_items};
ghost use Rattle.haya_printing.specs.Pushed.{Pushes};

use crate::items::{ToItem, push_name};
use haya_numbers::{Numeric, PageRanges};
use haya_people::{Person, PersonRole, PersonsWithRoles};
use haya_text::{FormatString, OutOfMemory};
use haya_time::{Date, Duration, DurationRange};
use haya_values::{MaybeTyped, QualifiedUrl};
use std::alloc::Global;

impl ToItem for FormatString {
    ghost use Rattle.haya_text.specs.Texts.{TextView, text_view};
    ghost use Rattle.haya_printing.specs.Printed.{long_text};

    ghost View = { TextView };

    ghost view = { text_view };

    ghost text = { long_text };

    /// The long form.
    fn push_text(&self, alloc: Global, line: &mut String) -> Result<(), OutOfMemory> {
        let text = self.value.to_serialized(alloc)?;
        line.push_str(text.as_str())?;
        Ok(())
    }
}

impl ToItem for Person {
    ghost use Rattle.haya_people.specs.Person.{PersonView, person_view};
    ghost use Rattle.haya_people.specs.PersonText.{person_text};

    ghost View = { PersonView };

    ghost view = { person_view };

    ghost text = { person_text };

    /// The family name, the suffix, the given name.
    fn push_text(&self, alloc: Global, line: &mut String) -> Result<(), OutOfMemory> {
        let text = self.to_serialized(alloc)?;
        line.push_str(text.as_str())?;
        Ok(())
    }
}

/// An item of each person in each role, where there are any.
pub(crate) fn also_roles(
    alloc: Global,
    line: &mut String,
    affiliated: Option<&[PersonsWithRoles]>,
) -> Result<(), OutOfMemory>
    ensures { OnOk result (Pushes line.old line.new
        (also_roles (option_map (λ v. map roles_view v.now) affiliated.entry))) }
{
    match affiliated {
        Some(affiliated) => push_roles(alloc, line, affiliated),
        None => Ok(()),
    }
}

// An item of each person in each role.
fn push_roles(
    alloc: Global,
    line: &mut String,
    affiliated: &[PersonsWithRoles],
) -> Result<(), OutOfMemory>
    ensures { OnOk result (Pushes line.old line.new
        (roles_items (map roles_view affiliated.now))) }
{
    'affiliated: for persons in affiliated {
        push_in_role(alloc, line, &persons.role, persons.names.as_slice())?;
    }
    Ok(())
}

// An item of each person in the role.
fn push_in_role(
    alloc: Global,
    line: &mut String,
    role: &PersonRole,
    persons: &[Person],
) -> Result<(), OutOfMemory>
    ensures { OnOk result (Pushes line.old line.new
        (role_items (role_view role.now) (map person_view persons.now))) }
{
    'persons: for person in persons {
        push_affiliated(alloc, line, role, person)?;
    }
    Ok(())
}

// An item of a person in the role.
#[tactic(auto, unfolding(crate::specs::Printed::affiliated_item))]
fn push_affiliated(
    alloc: Global,
    line: &mut String,
    role: &PersonRole,
    person: &Person,
) -> Result<(), OutOfMemory>
    ensures { OnOk result (Pushes line.old line.new
        (affiliated_item (role_view role.now) (person_view person.now))) }
{
    push_name(line, "affiliated")?;
    push_role(line, role)?;
    person.push_text(alloc, line)
}

// A role and a colon.
fn push_role(line: &mut String, role: &PersonRole) -> Result<(), OutOfMemory>
    ensures { OnOk result (Pushes line.old line.new
        (λ rest. role_name (role_view role.now) ++ (colon ∷ rest))) }
{
    line.push_str(role.name())?;
    line.push(':')?;
    Ok(())
}

impl ToItem for Date {
    ghost use Rattle.haya_time.specs.declared.date.Date as date;
    ghost use Rattle.haya_time.specs.DatePrinted.{date_text};

    ghost View = { date.Date };

    ghost view = { λ d. d };

    ghost text = { date_text };

    /// The print of the date.
    fn push_text(&self, _alloc: Global, line: &mut String) -> Result<(), OutOfMemory> {
        Ok(write!(line, "{self}")?)
    }
}

impl ToItem for QualifiedUrl {
    ghost use Rattle.haya_values.specs.Url.{UrlView, url_view};
    ghost use Rattle.haya_printing.specs.Printed.{url_text};

    ghost View = { UrlView };

    ghost view = { url_view };

    ghost text = { url_text };

    /// The address.
    fn push_text(&self, _alloc: Global, line: &mut String) -> Result<(), OutOfMemory> {
        Ok(line.push_str(self.value.as_str())?)
    }
}

impl ToItem for Numeric {
    ghost use Rattle.haya_numbers.specs.Numeric.{NumericView, numeric_view};
    ghost use Rattle.haya_numbers.specs.NumericRoundTrip.{round_trip_text};

    ghost View = { NumericView };

    ghost view = { numeric_view };

    ghost text = { round_trip_text };

    /// A text that reads as the number.
    fn push_text(&self, alloc: Global, line: &mut String) -> Result<(), OutOfMemory> {
        let text = self.round_trip_text(alloc)?;
        line.push_str(text.as_str())?;
        Ok(())
    }
}

impl ToItem for PageRanges {
    ghost use Rattle.std.specs.Prelude.{List};
    ghost use Rattle.haya_numbers.specs.Pages.{PartView, parts};
    ghost use Rattle.haya_numbers.specs.PagesRoundTrip.{round_trip_text};

    ghost View = { List PartView };

    ghost view = { parts };

    ghost text = { round_trip_text };

    /// A text that reads as the pages.
    fn push_text(&self, alloc: Global, line: &mut String) -> Result<(), OutOfMemory> {
        let text = self.round_trip_text(alloc)?;
        line.push_str(text.as_str())?;
        Ok(())
    }
}

impl ToItem for Duration {
    ghost use Rattle.haya_time.specs.declared.duration.Duration as duration;
    ghost use Rattle.haya_time.specs.DurationPrint.{duration_text};

    ghost View = { duration.Duration };

    ghost view = { λ d. d };

    ghost text = { duration_text };

    /// The print of the duration.
    fn push_text(&self, _alloc: Global, line: &mut String) -> Result<(), OutOfMemory> {
        Ok(write!(line, "{self}")?)
    }
}

impl ToItem for DurationRange {
    ghost use Rattle.haya_time.specs.declared.duration.range.DurationRange as range;
    ghost use Rattle.haya_time.specs.DurationPrint.{range_text};

    ghost View = { range.DurationRange };

    ghost view = { λ r. r };

    ghost text = { range_text };

    /// The print of the range.
    fn push_text(&self, _alloc: Global, line: &mut String) -> Result<(), OutOfMemory> {
        Ok(write!(line, "{self}")?)
    }
}

impl<T: ToItem> ToItem for MaybeTyped<T> {
    ghost use Rattle.haya_values.specs.MaybeTyped.{TypedOrText, maybe_typed_view};
    ghost use Rattle.haya_printing.specs.Printed.{typed_text};

    ghost View = { TypedOrText T.View };

    ghost view = { maybe_typed_view T.view };

    ghost text = { typed_text T.text };

    /// The text of the value, or the text that is kept.
    fn push_text(&self, alloc: Global, line: &mut String) -> Result<(), OutOfMemory> {
        match self {
            MaybeTyped::Typed(value) => value.push_text(alloc, line),
            MaybeTyped::String(text) => Ok(line.push_str(text.as_str())?),
        }
    }
}
