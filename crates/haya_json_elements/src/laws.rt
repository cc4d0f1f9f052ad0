//! Laws of the definitions. A call of one, as `documents();`, gives its statement to the caller's
//! proof.
ghost use Rattle.std.specs.Prelude.{◌≡◌, ℕ, List, Some};
ghost use Rattle.json.specs.Json.{Items, Members, array, document, object};
ghost use Rattle.haya_json_elements.specs.Elements.{AreItems, AreMembers, elements};
ghost use Rattle.haya_json_elements.specs.declared.place.Brackets.TheVariants.{Curly, Square};

/// A text of which each element in square brackets is an item is JSON, and the array of these items
/// in order; and one of which each element in curly brackets is a member is their object.
pub fn documents()
    ensures items { (text : List ℕ) (js : Items) →
        AreItems (elements Square text) js → document text ≡ Some (array js) }
    ensures members { (text : List ℕ) (ms : Members) →
        AreMembers (elements Curly text) ms → document text ≡ Some (object ms) }
{}

/// The other way, so that no array and no object is refused by its lines: the elements of a text
/// that is an array are its items in order, and those of a text that is an object are its members.
pub fn elements_of_documents()
    ensures items { (text : List ℕ) (js : Items) →
        document text ≡ Some (array js) → AreItems (elements Square text) js }
    ensures members { (text : List ℕ) (ms : Members) →
        document text ≡ Some (object ms) → AreMembers (elements Curly text) ms }
{}
