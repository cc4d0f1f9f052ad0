//! Laws of the definitions. A call of one, as `members_are_said();`, gives its statement to the
//! caller's proof.
ghost use Rattle.std.specs.Prelude.{◌≡◌, ℕ, List};
ghost use Rattle.json.specs.Json.{Json, Members, object};
ghost use Rattle.haya_json_elements.specs.Elements.{AreMembers};
ghost use Rattle.haya_yaml_slices.specs.Members.{SayEach, Says, SaysMembers, SaysParts};

use haya_slices::laws::{brackets_tell, slices_are_elements, slices_make_documents};

/// A text that says members says an object of them, if it says a value, and none but that; where
/// they are members, it does.
pub fn members_are_said()
    ensures object { (text : List ℕ) (parts : List (List ℕ)) (j : Json) → SaysMembers text parts
        → Says text j → (ms : Members) × (j ≡ object ms) × AreMembers parts ms }
    ensures said { (text : List ℕ) (parts : List (List ℕ)) (ms : Members) → SaysMembers text parts
        → AreMembers parts ms → Says text (object ms) }
{
    brackets_tell();
    slices_are_elements();
    slices_make_documents();
}

/// Where a text says what parts say, each part says the member at its place of the object that the
/// text says, alone; and the text says the object of the members that the parts say alone.
pub fn parts_are_members()
    ensures each { (text : List ℕ) (parts : List (List ℕ)) (ms : Members) →
        SaysParts text parts → Says text (object ms) → SayEach parts ms }
    ensures text { (text : List ℕ) (parts : List (List ℕ)) (ms : Members) →
        SaysParts text parts → SayEach parts ms → Says text (object ms) }
{
    slices_are_elements();
    slices_make_documents();
}
