//! The numbers of a value, in order. Contracts see the iterator as the list of what it has left.
ghost use Rattle.std.specs.Prelude.{◌≡◌, length, Some, IfSome};
ghost use Rattle.std.specs.Iterator.{YieldsFirst, UpTo, item_count};
ghost use Rattle.std.specs.Iterator.SizeHint.{IsWithinCount};
ghost use Rattle.haya_numbers.specs.Numeric.{value_view, numbers};

use crate::{NumericDelimiter, NumericValue};
use std::marker::Model;

/// The numbers of a value, in order.
#[derive(Drop)]
pub struct NumIterator<'a> {
    alone: Option<i32>,
    rest: &'a [(i32, Option<NumericDelimiter>)],
}

impl<'a> Model for NumIterator<'a> {
    ghost use Rattle.std.specs.Prelude.{◌≡◌, List, ℤ, [], ◌++◌, length};
    ghost use Rattle.std.specs.Option.{option_to_list, ForSome};
    ghost use Rattle.haya_numbers.specs.Numbers.{numbers_of};

    ghost Value = { List ℤ };

    ghost view = { λ it. option_to_list it.alone ++ numbers_of it.rest.now };

    ghost invariant = { λ it. ForSome it.alone (λ _. length it.rest.now ≡ 0) };
}

impl<'a> IntoIterator for &'a NumericValue {
    type Item = i32;

    type IntoIter = NumIterator<'a>;

    ghost into_iter_gives = { λ value it. it ≡ numbers (value_view value.now) };

    /// The numbers in order.
    fn into_iter(self) -> NumIterator<'a> {
        match self {
            NumericValue::Number(number) => NumIterator {
                alone: Some(*number),
                rest: &[],
            },
            NumericValue::Set(set) => NumIterator {
                alone: None,
                rest: set.as_slice(),
            },
        }
    }
}

impl<'a> Iterator for NumIterator<'a> {
    type Item = i32;

    ghost next_gives = { YieldsFirst (λ s. s) };

    ghost remaining = { item_count (λ s. s) };

    /// The next number, or `None` at the end and ever after.
    fn next(&mut self) -> Option<i32> {
        if let Some(number) = self.alone.take() {
            return Some(number);
        }
        let (first, rest) = self.rest.split_first()?;
        self.rest = rest;
        Some(first.0)
    }

    /// Exactly how many numbers are left.
    fn size_hint(&self) -> (usize, Option<usize>)
        ensures lower { IsWithinCount result.0 (item_count (λ s. s) self.now) }
        ensures upper { IfSome result.1 (UpTo (item_count (λ s. s) self.now)) }
        ensures exact { result ≡ (length self.now, Some (length self.now)) }
    {
        let left = self.len();
        (left, Some(left))
    }
}

impl ExactSizeIterator for NumIterator<'_> {
    /// How many numbers are left, at the end 0.
    fn len(&self) -> usize
        ensures { result ≡ length self.now }
    {
        if self.alone.is_some() {
            1
        } else {
            self.rest.len()
        }
    }
}
