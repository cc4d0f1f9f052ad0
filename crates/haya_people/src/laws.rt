//! Laws of the definitions. A call of one, as `equal_by_value();`, gives its statement to the
//! caller's proof.
ghost use Rattle.std.specs.Prelude.{◌≡◌, ◌↔◌, ℕ, Bool, List};
ghost use Rattle.haya_text.specs.Equality.{EqualsByValue, EqualsByView, HashesAlike};
ghost use Rattle.haya_people.specs.Initials.{Grapheme};
ghost use Rattle.haya_people.specs.Person.{person_view};
ghost use Rattle.haya_people.specs.WordCuts.{AreWords};
ghost use Rattle.haya_people.specs.Words.{Word, words};

mod orders;

use crate::{Person, PersonError, PersonRole, PersonsWithRoles};
pub use orders::{
    particles_are_longest, persons_in_order, roles_equal_by_value, roles_read_by_name,
    styles_in_order, tables_in_order,
};
use std::hash::Hash;

/// `==` of persons holds exactly where both are equal by value.
pub fn equal_by_value()
    ensures { EqualsByView ⟦<Person as PartialEq>⟧.eq person_view }
{}

/// `==` of faults holds exactly where both are the same.
pub fn faults_equal_by_value()
    ensures { EqualsByValue ⟦<PersonError as PartialEq>⟧.eq }
{}

/// Persons, roles, and persons with their role that are equal by `==` hash alike.
pub fn equal_persons_hash_alike()
    ensures person { HashesAlike ⟦<Person as PartialEq>⟧.eq ⟦<Person as Hash>⟧.hash_input }
    ensures role { HashesAlike ⟦<PersonRole as PartialEq>⟧.eq ⟦<PersonRole as Hash>⟧.hash_input }
    ensures persons { HashesAlike ⟦<PersonsWithRoles as PartialEq>⟧.eq
        ⟦<PersonsWithRoles as Hash>⟧.hash_input }
{}

/// The words of a text, and those of a given name's graphemes, are its one cut into longest words
/// and longest gaps: joined they are the text, and words and gaps take turns.
pub fn words_are_the_only_cut()
    ensures characters { (is_gap : ℕ → Bool) (text : List ℕ) (ws : List (Word ℕ)) →
        AreWords is_gap text ws ↔ (ws ≡ words is_gap text) }
    ensures graphemes { (is_gap : Grapheme → Bool) (name : List Grapheme)
        (ws : List (Word Grapheme)) → AreWords is_gap name ws ↔ (ws ≡ words is_gap name) }
{}
