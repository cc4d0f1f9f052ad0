//! Laws of the definitions. A call of one, as `opposites();`, gives its statement to the caller's
//! proof.
ghost use Rattle.std.specs.Prelude.{◌≡◌, ◌↔◌, ℕ, Bool, List, not, true};
ghost use Rattle.std.specs.Cmp.{IsTotalOrder};
ghost use Rattle.std.specs.Str.Iter.{HasSubslice};
ghost use Rattle.hayagriva.specs.declared.query.Hit.{Hit};
ghost use Rattle.haya_questions.specs.CaseAside.{has_part};
ghost use Rattle.haya_questions.specs.Order.{SortKeyView, hit_order, ranks_order};
ghost use Rattle.haya_questions.specs.Orders.{WantedView};
ghost use Rattle.haya_questions.specs.Place.{PlaceView};
ghost use Rattle.haya_questions.specs.Test.{holds, test_with};
ghost use Rattle.haya_questions.specs.declared.test.Operator.TheVariants.{Is, IsNot, Has, HasNot};

/// `!=` holds exactly where `=` doesn't, and `!~` where `~` doesn't, at each place and whatever is
/// wanted.
pub fn opposites()
    ensures is { (place : PlaceView) (wanted : WantedView) (hit : Hit) →
        holds (test_with place IsNot wanted) hit ≡ not (holds (test_with place Is wanted) hit) }
    ensures has { (place : PlaceView) (wanted : WantedView) (hit : Hit) →
        holds (test_with place HasNot wanted) hit ≡ not (holds (test_with place Has wanted) hit) }
{}

/// A text has a part in it exactly where it is something before the part, the part, and something
/// behind it.
pub fn parts_of_texts()
    ensures { (part text : List ℕ) → (has_part part text ≡ true) ↔ HasSubslice text part }
{}

/// The order of hits by keys, and that of the values at a place in either direction, are total
/// preorders: of any two hits one is first or they tie, and it goes on along chains.
pub fn orders()
    ensures hits { (keys : List SortKeyView) → IsTotalOrder (hit_order keys) }
    ensures values { (is_reversed : Bool) → IsTotalOrder (ranks_order is_reversed) }
{}
