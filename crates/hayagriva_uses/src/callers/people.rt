//! The caller of `crates/haya_people/CALLING.md`.
ghost use Rattle.std.specs.Prelude.{◌≡◌, IfErr, IfOk, Err, Ok, false, string_bytes, true};
ghost use Rattle.haya_people.specs.Forms.{name_first};
ghost use Rattle.haya_people.specs.Person.{PersonView, is_memory};
ghost use Rattle.haya_people.specs.Reading.{person_read};

use haya_people::{Person, PersonError};
use haya_text::ReadText;
use std::alloc::Global;

/// The person of a text as a list shows it, as `van Dissmer, C. D., Jr.`.
pub fn listed(alloc: Global, text: &str) -> Result<String, PersonError>
    ensures shown { IfOk result (λ s. (p : PersonView)
        × (person_read text.now ≡ Ok p) × (string_bytes s ≡ name_first true false p)) }
    ensures fault { IfErr result (λ e. is_memory e ≡ false → person_read text.now ≡ Err e) }
{
    let person = Person::from_str(alloc, text)?;
    Ok(person.name_first(alloc, true, false)?)
}
