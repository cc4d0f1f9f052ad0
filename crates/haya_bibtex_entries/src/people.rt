//! The table of persons.
ghost use Rattle.std.specs.Prelude.{◌≡◌, ◌++◌, codes, IfOk, OnOk, Some, map, option_map};
ghost use Rattle.std.specs.Prelude.{string_bytes};
ghost use Rattle.std.specs.Map.{lookup};
ghost use Rattle.std.specs.Str.{bytes_eq};
ghost use Rattle.haya_people.specs.Person.{person_view};
ghost use Rattle.haya_people.specs.Roles.{role_view, roles_view};
ghost use Rattle.haya_bibtex_fields.specs.FieldTexts.{unless_empty};
ghost use Rattle.haya_bibtex_inherited.specs.Views.{fields_view};
ghost use Rattle.haya_bibtex_entries.specs.Drafts.{so_far, with_any_row, with_row, with_rows};
ghost use Rattle.haya_bibtex_entries.specs.People.{affiliated_row, all_affiliated, all_editors};
ghost use Rattle.haya_bibtex_entries.specs.People.{authors_row, editors_row, host_authors_row};
ghost use Rattle.haya_bibtex_entries.specs.People.{later_roles, passed_in_names, people_rows};
ghost use Rattle.haya_bibtex_entries.specs.People.{persons_in, role_in, role_named};
ghost use Rattle.haya_bibtex_entries.specs.People.{typed_editors, with_affiliated, with_editors};
ghost use Rattle.haya_bibtex_entries.specs.People.{with_others, with_role, with_typed};
ghost use Rattle.haya_bibtex_entries.specs.People.{with_writers};
ghost use Rattle.haya_bibtex_entries.specs.PeopleViews.{affiliated_view, editors_view};
ghost use Rattle.haya_bibtex_entries.specs.Values.{affiliated_value, authors_value};
ghost use Rattle.haya_bibtex_entries.specs.Values.{editors_value, value_view};

use crate::draft::{Draft, Level};
use crate::kinds::{Host, Kind};
use crate::rows::{commands, push_names};
use crate::texts::{Fields, text_of};
use crate::values::Value;
use haya_bibtex_names::{Persons, read_persons};
use haya_people::{Person, PersonRole, PersonsWithRoles};
use haya_text::OutOfMemory;
use std::alloc::Global;

// Puts the words that name no part of a name, each with its sign `=`, behind names.
fn push_odd(
    alloc: Global,
    passed_over: &mut Vec<String>,
    odd_words: &[String],
) -> Result<(), OutOfMemory>
    ensures { OnOk result (map string_bytes passed_over.new.items
        ≡ map string_bytes passed_over.old.items
        ++ map (λ w. w ++ codes "=") (map string_bytes odd_words.now)) }
{
    'words: for word in odd_words {
        let mut name = String::from_str(alloc, word.as_str())?;
        name.push_str("=")?;
        passed_over.push(name)?;
    }
    Ok(())
}

// Persons, and what is passed over.
#[derive(Drop)]
pub(crate) struct Editors {
    pub(crate) persons: Vec<Person>,
    pub(crate) passed_over: Vec<String>,
}

// The persons of a list of names, and what is passed over in it.
fn read_names(alloc: Global, text: &str) -> Result<Editors, OutOfMemory>
    ensures persons { IfOk result (λ e. map person_view e.persons.items ≡ persons_in text.now) }
    ensures passed_over { IfOk result (λ e. map string_bytes e.passed_over.items
        ≡ passed_in_names text.now) }
{
    let Persons {
        persons,
        odd_words,
        unknown,
    } = read_persons(alloc, text)?;
    let mut passed_over = commands(alloc, unknown)?;
    push_odd(alloc, &mut passed_over, odd_words.as_slice())?;
    Ok(Editors {
        persons,
        passed_over,
    })
}

// ---- authors

// Authors as a value, if there are any.
fn authors_value(persons: Vec<Person>) -> Option<Value>
    ensures { option_map value_view result
        ≡ option_map (λ ps. authors_value ps) (unless_empty (map person_view persons.items)) }
{
    if persons.is_empty() {
        None
    } else {
        Some(Value::Authors(persons))
    }
}

fn add_authors(
    alloc: Global,
    draft: &mut Draft,
    key: &str,
    level: Level,
    text: Option<&str>,
) -> Result<(), OutOfMemory>
    ensures { OnOk result (so_far draft.new
        ≡ with_any_row key.now (option_map (authors_row level)
        (option_map (λ t. t.now) text.entry)) (so_far draft.old)) }
{
    let Some(text) = text else {
        return Ok(());
    };
    let Editors {
        persons,
        passed_over,
    } = read_names(alloc, text)?;
    draft.add(alloc, key, level, authors_value(persons), passed_over)
}

fn add_host_authors(
    alloc: Global,
    draft: &mut Draft,
    key: &str,
    host: Option<Host>,
    fields: &Fields<'_>,
) -> Result<(), OutOfMemory>
    ensures { OnOk result (so_far draft.new
        ≡ with_any_row key.now (host_authors_row host (fields_view fields.now))
        (so_far draft.old)) }
{
    match host {
        Some(host) if host.takes.authors() => {
            let level = Level::Host(host.entry);
            add_authors(alloc, draft, key, level, text_of(fields, "bookauthor"))
        }
        _ => Ok(()),
    }
}

// ---- roles

// The role of persons in a field whose type has this text.
#[tactic(auto, unfolding(crate::specs::People::role_in))]
fn role_in(text: Option<&str>) -> Option<PersonRole>
    ensures { option_map role_view result ≡ role_in (option_map (λ t. t.now) text.entry) }
{
    match text {
        Some(text) => role_named(text.trim()),
        None => None,
    }
}

fn role_named(name: &str) -> Option<PersonRole>
    ensures { option_map role_view result ≡ role_named name.now }
{
    match name {
        "compiler" => Some(PersonRole::Compiler),
        "founder" => Some(PersonRole::Founder),
        "collaborator" => Some(PersonRole::Collaborator),
        "organizer" => Some(PersonRole::Organizer),
        "director" => Some(PersonRole::Director),
        "producer" => Some(PersonRole::Producer),
        "translator" => Some(PersonRole::Translator),
        _ => later_role(name),
    }
}

// The same of what follows.
fn later_role(name: &str) -> Option<PersonRole>
    ensures { option_map role_view result ≡ lookup (bytes_eq name.now) later_roles }
{
    match name {
        "commentator" => Some(PersonRole::Commentator),
        "annotator" => Some(PersonRole::Annotator),
        "illustrator" => Some(PersonRole::Illustrator),
        "composer" => Some(PersonRole::Composer),
        "narrator" => Some(PersonRole::Narrator),
        _ => None,
    }
}

// ---- editors

impl Editors {
    // Puts the persons of a field behind these, unless its type is a role.
    fn add(
        &mut self,
        alloc: Global,
        fields: &Fields<'_>,
        name: &str,
        kind: &str,
    ) -> Result<(), OutOfMemory>
        ensures { OnOk result (editors_view self.new
            ≡ with_editors (fields_view fields.now) name.now kind.now (editors_view self.old)) }
    {
        let Some(text) = text_of(fields, name) else {
            return Ok(());
        };
        if role_in(text_of(fields, kind)).is_some() {
            return Ok(());
        }
        let Editors {
            mut persons,
            passed_over,
        } = read_names(alloc, text)?;
        self.persons.append(&mut persons)?;
        push_names(&mut self.passed_over, passed_over)
    }
}

// All persons that are editors.
fn all_editors(alloc: Global, fields: &Fields<'_>) -> Result<Editors, OutOfMemory>
    ensures { IfOk result (λ e. editors_view e ≡ all_editors (fields_view fields.now)) }
{
    let mut editors = Editors {
        persons: Vec::new(alloc),
        passed_over: Vec::new(alloc),
    };
    editors.add(alloc, fields, "editor", "editortype")?;
    editors.add(alloc, fields, "editora", "editoratype")?;
    editors.add(alloc, fields, "editorb", "editorbtype")?;
    editors.add(alloc, fields, "editorc", "editorctype")?;
    Ok(editors)
}

// Editors as a value, if there are any.
fn editors_value(persons: Vec<Person>) -> Option<Value>
    ensures { option_map value_view result
        ≡ option_map (λ ps. editors_value ps) (unless_empty (map person_view persons.items)) }
{
    if persons.is_empty() {
        None
    } else {
        Some(Value::Editors(persons))
    }
}

fn add_editors(
    alloc: Global,
    draft: &mut Draft,
    key: &str,
    kind: Kind,
    fields: &Fields<'_>,
) -> Result<(), OutOfMemory>
    ensures { OnOk result (so_far draft.new
        ≡ with_row key.now (editors_row kind (fields_view fields.now)) (so_far draft.old)) }
{
    let Editors {
        persons,
        passed_over,
    } = all_editors(alloc, fields)?;
    let level = kind.editors_level();
    draft.add(alloc, key, level, editors_value(persons), passed_over)
}

// ---- persons of other roles

// Persons with their roles, and what is passed over.
#[derive(Drop)]
pub(crate) struct Affiliated {
    pub(crate) lists: Vec<PersonsWithRoles>,
    pub(crate) passed_over: Vec<String>,
}

impl Affiliated {
    // Puts the persons of a list of names behind these.
    fn add(&mut self, alloc: Global, role: PersonRole, text: &str) -> Result<(), OutOfMemory>
        ensures { OnOk result (affiliated_view self.new
            ≡ with_affiliated (Some (role_view role)) (Some text.now) (affiliated_view self.old)) }
    {
        let Editors {
            persons,
            passed_over,
        } = read_names(alloc, text)?;
        push_names(&mut self.passed_over, passed_over)?;
        if persons.is_empty() {
            return Ok(());
        }
        self.lists.push(PersonsWithRoles::new(persons, role))?;
        Ok(())
    }

    // The same of a field, if its type is a role.
    fn add_typed(
        &mut self,
        alloc: Global,
        fields: &Fields<'_>,
        name: &str,
        kind: &str,
    ) -> Result<(), OutOfMemory>
        ensures { OnOk result (affiliated_view self.new
            ≡ with_typed (fields_view fields.now) name.now kind.now (affiliated_view self.old)) }
    {
        let Some(text) = text_of(fields, name) else {
            return Ok(());
        };
        match role_in(text_of(fields, kind)) {
            Some(role) => self.add(alloc, role, text),
            None => Ok(()),
        }
    }

    // The same of a field whose persons have this role.
    fn add_role(
        &mut self,
        alloc: Global,
        fields: &Fields<'_>,
        name: &str,
        role: PersonRole,
    ) -> Result<(), OutOfMemory>
        ensures { OnOk result (affiliated_view self.new
            ≡ with_role (fields_view fields.now) name.now (role_view role)
            (affiliated_view self.old)) }
    {
        match text_of(fields, name) {
            Some(text) => self.add(alloc, role, text),
            None => Ok(()),
        }
    }

    fn add_writers(&mut self, alloc: Global, fields: &Fields<'_>) -> Result<(), OutOfMemory>
        ensures { OnOk result (affiliated_view self.new
            ≡ with_writers (fields_view fields.now) (affiliated_view self.old)) }
    {
        self.add_role(alloc, fields, "translator", PersonRole::Translator)?;
        self.add_role(alloc, fields, "afterword", PersonRole::Afterword)?;
        self.add_role(alloc, fields, "foreword", PersonRole::Foreword)?;
        self.add_role(alloc, fields, "introduction", PersonRole::Introduction)?;
        Ok(())
    }

    fn add_others(&mut self, alloc: Global, fields: &Fields<'_>) -> Result<(), OutOfMemory>
        ensures { OnOk result (affiliated_view self.new
            ≡ with_others (fields_view fields.now) (affiliated_view self.old)) }
    {
        self.add_role(alloc, fields, "annotator", PersonRole::Annotator)?;
        self.add_role(alloc, fields, "commentator", PersonRole::Commentator)?;
        self.add_role(alloc, fields, "holder", PersonRole::Holder)?;
        self.add_role(alloc, fields, "director", PersonRole::Director)?;
        Ok(())
    }
}

// The editors of a type that is a role.
fn typed_editors(alloc: Global, fields: &Fields<'_>) -> Result<Affiliated, OutOfMemory>
    ensures { IfOk result (λ a. affiliated_view a ≡ typed_editors (fields_view fields.now)) }
{
    let mut affiliated = Affiliated {
        lists: Vec::new(alloc),
        passed_over: Vec::new(alloc),
    };
    affiliated.add_typed(alloc, fields, "editor", "editortype")?;
    affiliated.add_typed(alloc, fields, "editora", "editoratype")?;
    affiliated.add_typed(alloc, fields, "editorb", "editorbtype")?;
    affiliated.add_typed(alloc, fields, "editorc", "editorctype")?;
    Ok(affiliated)
}

// All persons with a role.
fn all_affiliated(alloc: Global, fields: &Fields<'_>) -> Result<Affiliated, OutOfMemory>
    ensures { IfOk result (λ a. affiliated_view a ≡ all_affiliated (fields_view fields.now)) }
{
    let mut affiliated = typed_editors(alloc, fields)?;
    affiliated.add_writers(alloc, fields)?;
    affiliated.add_others(alloc, fields)?;
    Ok(affiliated)
}

// Persons with roles as a value, if there are any.
fn affiliated_value(lists: Vec<PersonsWithRoles>) -> Option<Value>
    ensures { option_map value_view result
        ≡ option_map (λ ls. affiliated_value ls) (unless_empty (map roles_view lists.items)) }
{
    if lists.is_empty() {
        None
    } else {
        Some(Value::Affiliated(lists))
    }
}

fn add_affiliated(
    alloc: Global,
    draft: &mut Draft,
    key: &str,
    fields: &Fields<'_>,
) -> Result<(), OutOfMemory>
    ensures { OnOk result (so_far draft.new
        ≡ with_row key.now (affiliated_row (fields_view fields.now)) (so_far draft.old)) }
{
    let Affiliated { lists, passed_over } = all_affiliated(alloc, fields)?;
    draft.add(alloc, key, Level::Own, affiliated_value(lists), passed_over)
}

/// Puts the persons where they go. The error: there was no memory for them.
pub(crate) fn add_people(
    alloc: Global,
    draft: &mut Draft,
    key: &str,
    kind: Kind,
    fields: &Fields<'_>,
) -> Result<(), OutOfMemory>
    ensures { OnOk result (so_far draft.new
        ≡ with_rows key.now (people_rows kind (fields_view fields.now)) (so_far draft.old)) }
{
    add_authors(alloc, draft, key, Level::Own, text_of(fields, "author"))?;
    add_host_authors(alloc, draft, key, kind.host, fields)?;
    add_editors(alloc, draft, key, kind, fields)?;
    add_affiliated(alloc, draft, key, fields)
}
