//! Laws of what texts say.
ghost use Rattle.std.specs.Prelude.{◌≡◌, ◌≤◌, List, Some, ℕ};
ghost use Rattle.json.specs.Json.{Json, document, max_depth};
ghost use Rattle.json.specs.Print.{print};
ghost use Rattle.json.specs.Strict.{HasUniqueKeys};
ghost use Rattle.json.specs.Tree.{HasNumbers, depth, json_tokens};
ghost use Rattle.haya_yaml.specs.Says.{TextSays};

/// A text says one value. One that is JSON with no name twice says that value, and so does what is
/// printed of a value.
pub fn texts_say()
    ensures one_value { (text : List ℕ) (j k : Json) → TextSays text j → TextSays text k → j ≡ k }
    ensures json { (text : List ℕ) (j : Json) → document text ≡ Some j → HasUniqueKeys j
        → TextSays text j }
    ensures printed { (j : Json) → HasNumbers j → HasUniqueKeys j → depth j ≤ max_depth
        → TextSays (print (json_tokens j)) j }
{}
