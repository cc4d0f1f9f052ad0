//! Laws of the definitions. A call of one, as `equal_by_value();`, gives its statement to the
//! caller's proof.
ghost use Rattle.std.specs.Cmp.{IsTotalOrder};
ghost use Rattle.haya_numbers.specs.Numeric.{csl_order, numeric_view};
ghost use Rattle.haya_numbers.specs.Pages.{parts};
ghost use Rattle.haya_numbers.specs.PagesOrder.{pages_order};
ghost use Rattle.haya_text.specs.Equality.{EqualsByView, HashesAlike};
ghost use Rattle.haya_values.specs.MaybeTyped.{maybe_typed_view};
ghost use Rattle.haya_values.specs.OneOrMany.{one_or_many_view};
ghost use Rattle.haya_values.specs.Order.{typed_first};
ghost use Rattle.haya_values.specs.Publisher.{publisher_view};
ghost use Rattle.haya_values.specs.Url.{url_view};

use crate::{MaybeTyped, OneOrMany, Publisher, QualifiedUrl};
use haya_numbers::{Numeric, PageRanges};
use haya_text::TryClone;
use haya_time::{Duration, DurationRange};
use std::hash::Hash;

/// `==` of values that are typed or a text, and of one or many values, holds exactly where both are
/// equal by value, at each type whose own `==` does.
pub fn equal_by_value_of_the_type<T: PartialEq + TryClone>()
    ensures typed { EqualsByView T.eq T.view
        → EqualsByView ⟦<MaybeTyped<T> as PartialEq>⟧.eq (maybe_typed_view T.view) }
    ensures many { EqualsByView T.eq T.view
        → EqualsByView ⟦<OneOrMany<T> as PartialEq>⟧.eq (one_or_many_view T.view) }
{}

/// `==` holds exactly where both are equal by value.
pub fn equal_by_value()
    ensures number { EqualsByView ⟦<MaybeTyped<Numeric> as PartialEq>⟧.eq
        (maybe_typed_view numeric_view) }
    ensures pages { EqualsByView ⟦<MaybeTyped<PageRanges> as PartialEq>⟧.eq
        (maybe_typed_view parts) }
    ensures duration { EqualsByView ⟦<MaybeTyped<Duration> as PartialEq>⟧.eq
        (maybe_typed_view (λ d. d)) }
    ensures range { EqualsByView ⟦<MaybeTyped<DurationRange> as PartialEq>⟧.eq
        (maybe_typed_view (λ r. r)) }
    ensures url { EqualsByView ⟦<QualifiedUrl as PartialEq>⟧.eq url_view }
    ensures publisher { EqualsByView ⟦<Publisher as PartialEq>⟧.eq publisher_view }
{}

/// Values that are typed or a text, and that are equal by `==`, hash alike, whatever the type.
pub fn equal_values_hash_alike_of_the_type<T: Hash>()
    ensures { HashesAlike ⟦<MaybeTyped<T> as PartialEq>⟧.eq
        ⟦<MaybeTyped<T> as Hash>⟧.hash_input }
{}

/// Addresses and publishers that are equal by `==` hash alike.
pub fn equal_values_hash_alike()
    ensures url { HashesAlike ⟦<QualifiedUrl as PartialEq>⟧.eq ⟦<QualifiedUrl as Hash>⟧.hash_input }
    ensures publisher { HashesAlike ⟦<Publisher as PartialEq>⟧.eq ⟦<Publisher as Hash>⟧.hash_input }
{}

/// `csl_cmp` of numbers and pages that may be texts is a total preorder: of any two one is first or
/// they tie, and it goes on along chains.
pub fn order()
    ensures number { IsTotalOrder (typed_first csl_order) }
    ensures pages { IsTotalOrder (typed_first pages_order) }
{
    haya_numbers::laws::order();
    haya_numbers::laws::pages::order();
}
