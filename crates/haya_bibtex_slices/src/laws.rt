//! Laws of the definitions. A call of one, as `items_are_parts();`, gives its statement to the
//! caller's proof.
ghost use Rattle.std.specs.Prelude.{ℕ, All, List};
ghost use Rattle.haya_bibtex_slices.specs.Items.{AreItemsOf, Item};
ghost use Rattle.haya_slices.specs.Layout.{IsPartOf};

/// Each item of a text is a part of it, byte for byte.
pub fn items_are_parts()
    ensures { (text : List ℕ) (items : List Item) → AreItemsOf text items →
        All (λ i. IsPartOf i.part text) items }
{}
