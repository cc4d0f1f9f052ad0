//! Names of persons and institutions.
ghost use Rattle.std.specs.Prelude.{◌≡◌, ◌++◌, [], false, option_map, string_bytes, unwrap_or};
ghost use Rattle.std.specs.Prelude.{IfOk, OnOk};
ghost use Rattle.json.specs.Value.{items_view, members_view, value_view};
ghost use Rattle.haya_people.specs.Person.{person_view};
ghost use Rattle.haya_json.specs.Notes.{all_behind, lost_view, losts_view};
ghost use Rattle.haya_json.specs.Refusal.{to_member};
ghost use Rattle.haya_csl.specs.NameParts.{parts_view, persons_view};
ghost use Rattle.haya_csl.specs.Names.{alone, beside, beside_text, institution, is_true};
ghost use Rattle.haya_csl.specs.Names.{lost_in, lost_part, name_by, name_said, names_said};
ghost use Rattle.haya_csl.specs.Names.{no_parts, part_beside, part_said, particles, parts_set};
ghost use Rattle.haya_csl.specs.Names.{person, person_before, person_of_parts, persons_in};
ghost use Rattle.haya_csl.specs.Names.{true_beside, truth_said, whole_name, with_lost};
ghost use Rattle.haya_csl.specs.Names.{with_named_part};
ghost use Rattle.haya_csl.specs.Names.{with_part};
ghost use Rattle.haya_csl.specs.Said.{said_view};
ghost use Rattle.haya_csl.specs.Texts.{said_as, says_some};

use crate::markup::plain_text;
use crate::said::Said;
use haya_json::reading::{add_in_item, add_in_member, text_in};
use haya_json::{Lost, Why};
use haya_people::Person;
use haya_text::OutOfMemory;
use json::Value;
use std::alloc::Global;

// The parts of a name, as far as they are read, and what is lost of them.
#[derive(Drop)]
struct NameParts {
    family: Option<String>,
    given: Option<String>,
    suffix: Option<String>,
    non_dropping: Option<String>,
    dropping: Option<String>,
    literal: Option<String>,
    comma_suffix: bool,
    lost: Vec<Lost>,
}

/// An array of names, or one alone. `of` is the name of the member that has them.
pub(crate) fn read_names(
    alloc: Global,
    of: &str,
    json: &Value<'_>,
) -> Result<Said<Vec<Person>>, OutOfMemory>
    ensures { IfOk result (λ said.
        said_view (λ v. persons_view v.items) said ≡ names_said of.now (value_view json.now)) }
{
    match json {
        Value::Array(items) => read_each(alloc, of, items),
        Value::Object(_) | Value::String(_) => listed(alloc, read_name(alloc, of, json)?),
        _ => Said::unread(alloc, Why::NotList, json),
    }
}

// A person who is said, as a list.
fn listed(alloc: Global, said: Said<Person>) -> Result<Said<Vec<Person>>, OutOfMemory>
    ensures { IfOk result (λ list.
        said_view (λ v. persons_view v.items) list ≡ alone (said_view person_view said)) }
{
    let Said { value, lost } = said;
    let value = match value {
        Some(person) => Some(vec![in alloc; person]?),
        None => None,
    };
    Ok(Said { value, lost })
}

// Each item as a name, in order.
fn read_each(
    alloc: Global,
    of: &str,
    items: &Vec<Value<'_>>,
) -> Result<Said<Vec<Person>>, OutOfMemory>
    ensures value { IfOk result (λ said. option_map (λ v. persons_view v.items) said.value
        ≡ (says_some (persons_in of.now (items_view items.now.items))).value) }
    ensures lost { IfOk result (λ said. losts_view said.lost.items
        ≡ lost_in of.now 0 (items_view items.now.items)) }
{
    let mut persons = Vec::with_capacity(alloc, items.len())?;
    let mut lost = Vec::new(alloc);
    'names: for place in 0..items.len() {
        let said = read_name(alloc, of, &items[place])?;
        add_person(&mut persons, said.value)?;
        add_in_item(alloc, &mut lost, said.lost, place)?;
    }
    Ok(Said {
        value: some_persons(persons),
        lost,
    })
}

// These persons, but where there are none.
fn some_persons(persons: Vec<Person>) -> Option<Vec<Person>>
    ensures { option_map (λ v. persons_view v.items) result
        ≡ (says_some (persons_view persons.items)).value }
{
    if persons.is_empty() {
        None
    } else {
        Some(persons)
    }
}

// Puts a person, if one is said, behind others.
fn add_person(persons: &mut Vec<Person>, person: Option<Person>) -> Result<(), OutOfMemory>
    ensures { OnOk result (persons_view persons.new.items
        ≡ persons_view persons.old.items ++ person_before (option_map person_view person) []) }
{
    if let Some(person) = person {
        persons.push(person)?;
    }
    Ok(())
}

// The person or the institution of an object or a text, if there is one.
fn read_name(alloc: Global, of: &str, json: &Value<'_>) -> Result<Said<Person>, OutOfMemory>
    ensures { IfOk result (λ said.
        said_view person_view said ≡ name_said of.now (value_view json.now)) }
{
    match json {
        Value::Object(members) => {
            let parts = read_parts(alloc, of, members)?;
            person_of_parts(alloc, of, parts, json)
        }
        Value::String(_) => Ok(whole(read_part(alloc, json)?)),
        Value::Null => Ok(Said::none(alloc)),
        _ => Said::unread(alloc, Why::NotObject, json),
    }
}

// A whole name that is said.
fn whole(said: Said<String>) -> Said<Person>
    ensures { said_view person_view result ≡ said_as whole_name (said_view string_bytes said) }
{
    let Said { value, lost } = said;
    Said {
        value: value.map(whole_name),
        lost,
    }
}

// The parts of a name.
fn read_parts(
    alloc: Global,
    of: &str,
    members: &Vec<(&str, Value<'_>)>,
) -> Result<NameParts, OutOfMemory>
    ensures { IfOk result (λ parts.
        parts_set of.now (members_view members.now.items) no_parts ≡ parts_view parts) }
{
    let mut parts = NameParts {
        family: None,
        given: None,
        suffix: None,
        non_dropping: None,
        dropping: None,
        literal: None,
        comma_suffix: false,
        lost: Vec::new(alloc),
    };
    'parts: for member in members {
        parts.set(alloc, of, member.0, &member.1)?;
    }
    Ok(parts)
}

impl NameParts {
    // Sets the part of this name, but where it is null.
    fn set(
        &mut self,
        alloc: Global,
        of: &str,
        name: &str,
        json: &Value<'_>,
    ) -> Result<(), OutOfMemory>
        ensures { OnOk result (parts_view self.new
            ≡ with_part of.now name.now (value_view json.now) (parts_view self.old)) }
    {
        if json.is_null() {
            return Ok(());
        }
        self.set_named(alloc, of, name, json)
    }

    // Sets the part of this name. Another name is lost.
    fn set_named(
        &mut self,
        alloc: Global,
        of: &str,
        name: &str,
        json: &Value<'_>,
    ) -> Result<(), OutOfMemory>
        ensures { OnOk result (parts_view self.new
            ≡ with_named_part of.now name.now (value_view json.now) (parts_view self.old)) }
    {
        match name {
            "family" => self.family = self.part(alloc, name, json)?,
            "given" => self.given = self.part(alloc, name, json)?,
            "suffix" => self.suffix = self.part(alloc, name, json)?,
            "non-dropping-particle" => self.non_dropping = self.part(alloc, name, json)?,
            "dropping-particle" => self.dropping = self.part(alloc, name, json)?,
            "literal" => self.literal = self.part(alloc, name, json)?,
            "comma-suffix" => self.comma_suffix = self.truth(alloc, name, json)?,
            _ => self.lose_part(alloc, of, name)?,
        }
        Ok(())
    }

    // The text of the part of this name. What is lost of it is kept.
    fn part(
        &mut self,
        alloc: Global,
        name: &str,
        json: &Value<'_>,
    ) -> Result<Option<String>, OutOfMemory>
        ensures value { IfOk result (λ part.
            option_map string_bytes part ≡ (part_said (value_view json.now)).value) }
        ensures lost { OnOk result (parts_view self.new ≡ with_lost
            (all_behind (to_member name.now) (part_said (value_view json.now)).lost)
            (parts_view self.old)) }
    {
        let Said { value, lost } = read_part(alloc, json)?;
        add_in_member(alloc, &mut self.lost, lost, name)?;
        Ok(value)
    }

    // Whether the part of this name is true. What is lost of it is kept.
    fn truth(&mut self, alloc: Global, name: &str, json: &Value<'_>) -> Result<bool, OutOfMemory>
        ensures value { IfOk result (λ b.
            b ≡ unwrap_or (truth_said (value_view json.now)).value false) }
        ensures lost { OnOk result (parts_view self.new ≡ with_lost
            (all_behind (to_member name.now) (truth_said (value_view json.now)).lost)
            (parts_view self.old)) }
    {
        let Said { value, lost } = read_truth(alloc, json)?;
        add_in_member(alloc, &mut self.lost, lost, name)?;
        Ok(value.unwrap_or(false))
    }

    // Loses a member that is no part of a name.
    fn lose_part(&mut self, alloc: Global, of: &str, name: &str) -> Result<(), OutOfMemory>
        ensures { OnOk result (parts_view self.new
            ≡ with_lost (lost_part of.now name.now) (parts_view self.old)) }
    {
        let mut text = String::from_str(alloc, of)?;
        text.push_str(", member ")?;
        text.push_str(name)?;
        let lost = Lost::named(alloc, text.as_str())?;
        self.lost.push(lost.in_member(alloc, name)?)?;
        Ok(())
    }
}

// The text of a part, without CSL's markup.
fn read_part(alloc: Global, json: &Value<'_>) -> Result<Said<String>, OutOfMemory>
    ensures { IfOk result (λ said. said_view string_bytes said ≡ part_said (value_view json.now)) }
{
    match text_in(json) {
        None => Said::unread(alloc, Why::NotText, json),
        Some("") => Ok(Said::none(alloc)),
        Some(text) => Ok(some_text(alloc, plain_text(alloc, text)?)),
    }
}

// This text, but where it is empty.
fn some_text(alloc: Global, text: String) -> Said<String>
    ensures { said_view string_bytes result ≡ says_some (string_bytes text) }
{
    if text.is_empty() {
        Said::none(alloc)
    } else {
        Said::of(alloc, text)
    }
}

// True or false, or a number or a text in its place.
fn read_truth(alloc: Global, json: &Value<'_>) -> Result<Said<bool>, OutOfMemory>
    ensures { IfOk result (λ said. said_view (λ b. b) said ≡ truth_said (value_view json.now)) }
{
    if let Value::Bool(truth) = json {
        return Ok(Said::of(alloc, *truth));
    }
    match text_in(json) {
        None => Said::unread(alloc, Why::NotTruth, json),
        Some(text) => Ok(Said::of(alloc, is_true(text))),
    }
}

// Whether a text in the place of true or false says true.
fn is_true(text: &str) -> bool
    ensures { result ≡ is_true text.now }
{
    match text {
        "" | "0" | "false" => false,
        _ => true,
    }
}

// The person of these parts, or the institution, if there is one.
fn person_of_parts(
    alloc: Global,
    of: &str,
    parts: NameParts,
    json: &Value<'_>,
) -> Result<Said<Person>, OutOfMemory>
    ensures { IfOk result (λ said.
        said_view person_view said ≡ person_of_parts of.now (parts_view parts)) }
{
    if parts.literal.is_some() {
        return institution(alloc, of, parts);
    }
    person(alloc, parts, json)
}

// The institution of the whole name. Other parts are lost.
fn institution(alloc: Global, of: &str, parts: NameParts) -> Result<Said<Person>, OutOfMemory>
    ensures { IfOk result (λ said.
        said_view person_view said ≡ institution of.now (parts_view parts)) }
{
    let NameParts {
        family,
        given,
        suffix,
        non_dropping,
        dropping,
        literal,
        comma_suffix,
        mut lost,
    } = parts;
    lose_beside(alloc, &mut lost, of, "family", family)?;
    lose_beside(alloc, &mut lost, of, "given", given)?;
    lose_beside(alloc, &mut lost, of, "suffix", suffix)?;
    lose_beside(alloc, &mut lost, of, "non-dropping-particle", non_dropping)?;
    lose_beside(alloc, &mut lost, of, "dropping-particle", dropping)?;
    lose_true(alloc, &mut lost, of, "comma-suffix", comma_suffix)?;
    Ok(Said {
        value: literal.map(whole_name),
        lost,
    })
}

// Loses a part beside a whole name, if it is there.
fn lose_beside(
    alloc: Global,
    lost: &mut Vec<Lost>,
    of: &str,
    name: &str,
    part: Option<String>,
) -> Result<(), OutOfMemory>
    ensures { OnOk result (losts_view lost.new.items
        ≡ losts_view lost.old.items ++ beside of.now name.now (option_map string_bytes part)) }
{
    match part {
        Some(part) => {
            drop(part);
            lost.push(part_beside(alloc, of, name)?)?;
            Ok(())
        }
        None => Ok(()),
    }
}

// Loses a part beside a whole name, if it is true.
fn lose_true(
    alloc: Global,
    lost: &mut Vec<Lost>,
    of: &str,
    name: &str,
    is_true: bool,
) -> Result<(), OutOfMemory>
    ensures { OnOk result (losts_view lost.new.items
        ≡ losts_view lost.old.items ++ true_beside of.now name.now is_true) }
{
    if is_true {
        lost.push(part_beside(alloc, of, name)?)?;
    }
    Ok(())
}

// What is lost where a part is beside a whole name.
fn part_beside(alloc: Global, of: &str, name: &str) -> Result<Lost, OutOfMemory>
    ensures { IfOk result (λ lost. lost_view lost ≡ part_beside of.now name.now) }
{
    let text = beside_text(alloc, of, name)?;
    let lost = Lost::named(alloc, text.as_str())?;
    lost.in_member(alloc, name)
}

// The name under which it is counted.
fn beside_text(alloc: Global, of: &str, name: &str) -> Result<String, OutOfMemory>
    ensures { IfOk result (λ text. string_bytes text ≡ beside_text of.now name.now) }
{
    let mut text = String::from_str(alloc, of)?;
    text.push_str(", ")?;
    text.push_str(name)?;
    text.push_str(" beside literal")?;
    Ok(text)
}

// The whole name of an institution.
fn whole_name(name: String) -> Person
    ensures { person_view result ≡ whole_name (string_bytes name) }
{
    Person {
        name,
        given_name: None,
        prefix: None,
        suffix: None,
        comma_suffix: false,
        alias: None,
    }
}

// The person of these parts, if they have a name.
fn person(alloc: Global, parts: NameParts, json: &Value<'_>) -> Result<Said<Person>, OutOfMemory>
    ensures { IfOk result (λ said. said_view person_view said ≡ person (parts_view parts)) }
{
    let NameParts {
        family,
        given,
        suffix,
        non_dropping,
        dropping,
        literal: _,
        comma_suffix,
        mut lost,
    } = parts;
    let prefix = join_particles(dropping, non_dropping)?;
    let Some((name, given_name)) = name_by(family, given) else {
        if suffix.is_some() || prefix.is_some() || comma_suffix {
            lost.push(Lost::unread(alloc, Why::Missing, json)?)?;
        }
        return Ok(Said { value: None, lost });
    };
    let value = Some(Person {
        name,
        given_name,
        prefix,
        suffix,
        comma_suffix,
        alias: None,
    });
    Ok(Said { value, lost })
}

// The family name and the given one, which is the name itself where it is alone.
fn name_by(family: Option<String>, given: Option<String>) -> Option<(String, Option<String>)>
    ensures { option_map (λ p. (string_bytes p.0, option_map string_bytes p.1)) result
        ≡ name_by (option_map string_bytes family) (option_map string_bytes given) }
{
    match (family, given) {
        (Some(family), given) => Some((family, given)),
        (None, Some(given)) => Some((given, None)),
        (None, None) => None,
    }
}

// Both particles, joined by a blank.
fn join_particles(
    dropping: Option<String>,
    non_dropping: Option<String>,
) -> Result<Option<String>, OutOfMemory>
    ensures { IfOk result (λ joined. option_map string_bytes joined
        ≡ particles (option_map string_bytes dropping) (option_map string_bytes non_dropping)) }
{
    match (dropping, non_dropping) {
        (Some(mut joined), Some(last)) => {
            joined.push_str(" ")?;
            joined.push_str(last.as_str())?;
            Ok(Some(joined))
        }
        (Some(dropping), None) => Ok(Some(dropping)),
        (None, last) => Ok(last),
    }
}
