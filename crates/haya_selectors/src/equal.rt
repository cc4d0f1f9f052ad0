//! Equality of selectors: along the first side by a loop.
ghost use Rattle.std.specs.Prelude.{◌≡◌, ◌<◌, ◌≤◌, IfErr, IfOk, map, string_bytes};
ghost use Rattle.std.specs.Str.{bytes_eq};
ghost use denote.Param.Weighed.{most};
ghost use lib.Pointwise.{pointwise};
ghost use Rattle.haya_selectors.specs.declared.selector.Selector.{size-Selector};
ghost use Rattle.haya_selectors.specs.Equality.{selector_eq, syntaxes_eq};
ghost use Rattle.haya_selectors.specs.Syntax.{members_of};

use crate::Selector;

impl PartialEq for Selector {
    ghost use Rattle.haya_selectors.specs.Equality.{selector_eq};
    ghost use Rattle.haya_selectors.specs.EqualityLaws.{selector_laws};

    ghost eq = { selector_eq };

    ghost laws = { selector_laws };

    #[cycle(equal)]
    fn eq(&self, other: &Selector) -> bool {
        let mut left = self;
        let mut right = other;
        'down: loop {
            match next_pair(left, right) {
                Ok((first, other)) => {
                    left = first;
                    right = other;
                }
                Err(equal) => return equal,
            }
        }
    }
}

impl Eq for Selector {
    ghost use Rattle.haya_selectors.specs.EqualityLaws.{selector_equiv};

    ghost laws = { selector_equiv };
}

// The first parts, where the rest is equal, so that these two decide; otherwise whether the
// selectors are equal.
#[cycle(equal)]
fn next_pair<'a, 'b>(
    left: &'a Selector,
    right: &'b Selector,
) -> Result<(&'a Selector, &'b Selector), bool>
    ensures pair { IfOk result (λ pair.
        selector_eq left.now right.now ≡ selector_eq pair.0.now pair.1.now) }
    ensures deep { IfOk result (λ pair. size-Selector pair.0.now < size-Selector left.now) }
    ensures told { IfErr result (λ equal. equal ≡ selector_eq left.now right.now) }
{
    match (left, right) {
        (Selector::Wildcard, Selector::Wildcard) => Err(true),
        (Selector::Entry(a), Selector::Entry(b)) => Err(a == b),
        (Selector::Neg(a), Selector::Neg(b)) => Ok((a, b)),
        (Selector::Binding(n, a), Selector::Binding(m, b)) => {
            if n != m {
                return Err(false);
            }
            Ok((a, b))
        }
        (Selector::Attr(a, ns), Selector::Attr(b, ms)) => {
            if !same_names(ns, ms) {
                return Err(false);
            }
            Ok((a, b))
        }
        (Selector::Alt(a), Selector::Alt(b)) => first_pair(a, b),
        (Selector::Multi(a), Selector::Multi(b)) => first_pair(a, b),
        (Selector::Ancestrage(a, c), Selector::Ancestrage(b, d)) => {
            if !(**c).eq(d) {
                return Err(false);
            }
            Ok((a, b))
        }
        _ => Err(false),
    }
}

// The same of the members of two.
#[cycle(equal)]
fn first_pair<'a, 'b>(
    left: &'a [Selector],
    right: &'b [Selector],
) -> Result<(&'a Selector, &'b Selector), bool>
    ensures pair { IfOk result (λ pair. syntaxes_eq (members_of left.now) (members_of right.now) ≡
        selector_eq pair.0.now pair.1.now) }
    ensures deep { IfOk result (λ pair.
        size-Selector pair.0.now ≤ most size-Selector left.now) }
    ensures told { IfErr result (λ equal.
        equal ≡ syntaxes_eq (members_of left.now) (members_of right.now)) }
{
    let Some((first, above)) = left.split_first() else {
        return Err(right.is_empty());
    };
    let Some((other, below)) = right.split_first() else {
        return Err(false);
    };
    if !all_equal(above, below) {
        return Err(false);
    }
    Ok((first, other))
}

// Whether the names are equal one by one.
fn same_names(left: &[String], right: &[String]) -> bool
    ensures { result ≡
        pointwise bytes_eq (map string_bytes left.now) (map string_bytes right.now) }
{
    left == right
}

// Whether selectors are equal one by one.
#[cycle(equal)]
fn all_equal(left: &[Selector], right: &[Selector]) -> bool
    ensures { result ≡ syntaxes_eq (members_of left.now) (members_of right.now) }
{
    if left.len() != right.len() {
        return false;
    }
    'members: for i in 0..left.len() {
        if !left[i].eq(&right[i]) {
            return false;
        }
    }
    true
}
