//! Laws of the definitions. A call of one, as `slices_are_elements();`, gives its statement to the
//! caller's proof.
ghost use Rattle.std.specs.Prelude.{◌≡◌, ℕ, List, Some};
ghost use Rattle.std.specs.List.{AllByRecursion};
ghost use Rattle.json.specs.Json.{Items, Json, Members, array, document, object};
ghost use Rattle.haya_json_elements.specs.Elements.{AreItems, AreMembers};
ghost use Rattle.haya_json_elements.specs.declared.place.Brackets.{Brackets as BracketsData};
ghost use Rattle.haya_json_elements.specs.declared.place.Brackets.TheVariants.{Curly, Square};
ghost use Rattle.haya_slices.specs.Layout.{IsElement, IsLaidOut, IsPartOf, list_text};

use haya_json_elements::laws::{documents, elements_of_documents};

/// The parts of a text that is an array are its items, in order, and those of one that is an object
/// are its members.
pub fn slices_are_elements()
    ensures items { (text : List ℕ) (parts : List (List ℕ)) (js : Items) →
        IsLaidOut Square text parts → document text ≡ Some (array js) → AreItems parts js }
    ensures members { (text : List ℕ) (parts : List (List ℕ)) (ms : Members) →
        IsLaidOut Curly text parts → document text ≡ Some (object ms) → AreMembers parts ms }
{
    elements_of_documents();
}

/// Each element of a text is a part of it, byte for byte.
pub fn slices_are_parts()
    ensures { (b : BracketsData) (text : List ℕ) (parts : List (List ℕ)) →
        IsLaidOut b text parts → AllByRecursion (λ part. IsPartOf part text) parts }
{}

/// A text that is laid out as an array and is JSON is an array, and one laid out as an object is an
/// object.
pub fn brackets_tell()
    ensures array { (text : List ℕ) (parts : List (List ℕ)) (j : Json) →
        IsLaidOut Square text parts → document text ≡ Some j → (js : Items) × (j ≡ array js) }
    ensures object { (text : List ℕ) (parts : List (List ℕ)) (j : Json) →
        IsLaidOut Curly text parts → document text ≡ Some j → (ms : Members) × (j ≡ object ms) }
{}

/// The other way: a text whose parts are items is their array, and one whose parts are members is
/// their object.
pub fn slices_make_documents()
    ensures items { (text : List ℕ) (parts : List (List ℕ)) (js : Items) →
        IsLaidOut Square text parts → AreItems parts js → document text ≡ Some (array js) }
    ensures members { (text : List ℕ) (parts : List (List ℕ)) (ms : Members) →
        IsLaidOut Curly text parts → AreMembers parts ms → document text ≡ Some (object ms) }
{
    documents();
}

/// A list that is printed of elements is laid out, and has them.
pub fn lists_are_laid_out()
    ensures { (b : BracketsData) (parts : List (List ℕ)) →
        AllByRecursion (IsElement b) parts → IsLaidOut b (list_text b parts) parts }
{}
