//! The persons of an entry, one by one.
ghost use Rattle.std.specs.Prelude.{◌≡◌, ◌-◌, ◌^◌, [], Option, length, map, min, option_map};
ghost use Rattle.std.specs.Prelude.{slice_get, unwrap_or};
ghost use Rattle.std.specs.List.{flat_map};
ghost use Rattle.haya_entry.specs.Tree.{view};
ghost use Rattle.haya_people.specs.Person.{person_view};
ghost use Rattle.haya_people.specs.Roles.{roles_view};
ghost use Rattle.haya_views.specs.Persons.{credit_view, credits, with_role, without_role};

use haya_entry::Entry;
use haya_people::{Person, PersonRole, PersonsWithRoles};

/// A person of a field, and what the person did, where the field tells roles.
#[derive(Clone, Copy)]
pub struct Credit<'e> {
    /// The person.
    pub person: &'e Person,
    /// The role, of `affiliated` alone.
    pub role: Option<&'e PersonRole>,
}

/// How many persons the field with a name has.
pub fn credits_len(entry: &Entry, name: &str) -> usize
    ensures { result ≡ min (length (credits (view entry.now) name.now)) (2 ^ 64 - 1) }
{
    match name {
        "author" => persons_len(entry.authors()),
        "editor" => persons_len(entry.editors()),
        "affiliated" => affiliated_len(entry.affiliated()),
        _ => 0,
    }
}

/// The person at a place of the field with a name, if there is one.
pub fn credit_at<'e>(entry: &'e Entry, name: &str, place: usize) -> Option<Credit<'e>>
    ensures { option_map credit_view result
        ≡ slice_get (credits (view entry.now) name.now) place }
{
    match name {
        "author" => person_at(entry.authors(), place),
        "editor" => person_at(entry.editors(), place),
        "affiliated" => affiliated_at(entry.affiliated(), place),
        _ => None,
    }
}

fn persons_len(persons: Option<&[Person]>) -> usize
    ensures { result ≡ min (length (map without_role
        (unwrap_or (option_map (λ ps. map person_view ps.now) persons.entry) []))) (2 ^ 64 - 1) }
{
    match persons {
        Some(persons) => persons.len(),
        None => 0,
    }
}

fn person_at(persons: Option<&[Person]>, place: usize) -> Option<Credit<'_>>
    ensures { option_map credit_view result ≡ slice_get (map without_role
        (unwrap_or (option_map (λ ps. map person_view ps.now) persons.entry) [])) place }
{
    match persons {
        Some(persons) => nth_person(persons, place),
        None => None,
    }
}

fn nth_person(persons: &[Person], place: usize) -> Option<Credit<'_>>
    ensures { option_map credit_view result
        ≡ slice_get (map without_role (map person_view persons.now)) place }
{
    match person_in(persons, place) {
        Some(person) => Some(Credit { person, role: None }),
        None => None,
    }
}

fn person_in(persons: &[Person], place: usize) -> Option<&Person>
    ensures { option_map (λ p. person_view p.now) result
        ≡ slice_get (map person_view persons.now) place }
{
    persons.get(place)
}

fn affiliated_len(lists: Option<&[PersonsWithRoles]>) -> usize
    ensures { result ≡ min (length (flat_map with_role
        (unwrap_or (option_map (λ rs. map roles_view rs.now) lists.entry) []))) (2 ^ 64 - 1) }
{
    match lists {
        Some(lists) => all_names(lists),
        None => 0,
    }
}

// How many persons lists have together.
fn all_names(lists: &[PersonsWithRoles]) -> usize
    ensures { result
        ≡ min (length (flat_map with_role (map roles_view lists.now))) (2 ^ 64 - 1) }
{
    let mut all: usize = 0;
    'lists: for list in lists {
        all = all.saturating_add(list.names.len());
    }
    all
}

fn affiliated_at(lists: Option<&[PersonsWithRoles]>, place: usize) -> Option<Credit<'_>>
    ensures { option_map credit_view result ≡ slice_get (flat_map with_role
        (unwrap_or (option_map (λ rs. map roles_view rs.now) lists.entry) [])) place }
{
    match lists {
        Some(lists) => name_at(lists, place),
        None => None,
    }
}

// The person at a place of lists, one behind the other.
fn name_at(lists: &[PersonsWithRoles], place: usize) -> Option<Credit<'_>>
    ensures { option_map credit_view result
        ≡ slice_get (flat_map with_role (map roles_view lists.now)) place }
{
    let mut left = place;
    'lists: for list in lists {
        let many = list.names.len();
        if left < many {
            return Some(Credit {
                person: &list.names[left],
                role: Some(&list.role),
            });
        }
        left -= many;
    }
    None
}
