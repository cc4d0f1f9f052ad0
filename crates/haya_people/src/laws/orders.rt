//! Laws of roles, tables and orders.
ghost use Rattle.std.specs.Prelude.{◌≡◌, ◌↔◌, ◌≤◌, ℕ, Bool, List, Some, None, length, true};
ghost use Rattle.std.specs.Prelude.{IsSorted};
ghost use Rattle.haya_people.specs.Particles.{name_particle, IsParticleOf};
ghost use Rattle.haya_people.specs.Tables.{is_sorted_table};
ghost use Rattle.std.specs.Cmp.{IsTotalOrder};
ghost use Rattle.haya_text.specs.Equality.{EqualsByView};
ghost use Rattle.haya_text.specs.declared.strings.format.LongShortForm.{LongShortForm};
ghost use Rattle.haya_people.specs.Orders.{csl_cmp_by, text_cmp};
ghost use Rattle.haya_people.specs.Roles.{role_named, role_read, role_view, roles_view};
ghost use Rattle.haya_people.specs.declared.person.Person as person;
ghost use Rattle.haya_people.specs.declared.role.PersonRole as role;

use crate::{Person, PersonRole, PersonsWithRoles};
use std::cmp::Ordering;

/// `==` of roles, and of persons with their role, holds exactly where both are equal by value.
pub fn roles_equal_by_value()
    ensures role { EqualsByView ⟦<PersonRole as PartialEq>⟧.eq role_view }
    ensures persons { EqualsByView ⟦<PersonsWithRoles as PartialEq>⟧.eq roles_view }
{}

/// A text is read as a role exactly where it is the role's name: so as none only where no role has
/// that name.
pub fn roles_read_by_name()
    ensures { (text : List ℕ) (r : role.PersonRole) →
        (role_read text ≡ Some r) ↔ (role_view r ≡ role_named text) }
{}

/// The order of persons is total, and ties exactly the persons that are equal.
pub fn persons_in_order()
    ensures total { IsTotalOrder ⟦<Person as Ord>⟧.cmp }
    ensures tied { (a b : person.Person) →
        (⟦<Person as Ord>⟧.cmp a b ≡ Ordering.Equal) ↔ (⟦<Person as PartialEq>⟧.eq a b ≡ true) }
{}

/// The order of a style's lists is a total preorder, for one form, flag, table and test of
/// characters: total, transitive, and what ties stands alike to all others.
pub fn styles_in_order()
    ensures { (test : ℕ → Bool) (form : LongShortForm) (demoted : Bool) (table : List (List ℕ)) →
        IsTotalOrder (csl_cmp_by test form demoted table) }
{}

/// The particle of a name is the longest of all beginnings that are one, and there is none
/// only where no beginning is.
pub fn particles_are_longest()
    ensures one { (table : List (List ℕ)) (name particle : List ℕ) →
        name_particle table name ≡ Some particle → IsParticleOf table name particle }
    ensures longest { (table : List (List ℕ)) (name particle other : List ℕ) →
        name_particle table name ≡ Some particle → IsParticleOf table name other →
        length other ≤ length particle }
    ensures none { (table : List (List ℕ)) (name other : List ℕ) →
        name_particle table name ≡ None → ¬ (IsParticleOf table name other) }
{}

/// A table is in order exactly where it is sorted by the order of bytes.
pub fn tables_in_order()
    ensures { (table : List (List ℕ)) → (is_sorted_table table ≡ true) ↔ IsSorted text_cmp table }
{}
