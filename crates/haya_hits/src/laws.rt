//! Laws of the definitions. A call of one, as `escaped_lines();`, gives its statement to the
//! caller's proof.
ghost use Rattle.std.specs.Prelude.{◌≡◌, List, ℕ, Option};
ghost use Rattle.haya_hits.specs.Line.{IsLine};
ghost use Rattle.haya_hits.specs.Shown.{IsOneLine, shown_key};

/// The line of a hit whose texts are shown without the signs of a line has one line feed, its last
/// byte; and two texts that are shown alike are the same.
pub fn escaped_lines()
    ensures one_line { (key : List ℕ) (stands_for : List ℕ → Option (List ℕ)) (line : List ℕ) →
        IsLine shown_key key stands_for line → IsOneLine line }
    ensures apart { (a b : List ℕ) → shown_key a ≡ shown_key b → a ≡ b }
{}
