//! Which numbers read back from their print.
ghost use Rattle.std.specs.Prelude.{◌≡◌};
ghost use Rattle.haya_numbers.specs.Numeric.{numeric_view};
ghost use Rattle.haya_numbers.specs.NumericBack.{is_readable, may_follow, items_read_back};
ghost use Rattle.haya_numbers.specs.NumericBack.{reads_back};

use crate::{Numeric, NumericDelimiter, NumericValue};

impl Numeric {
    /// Whether what is shown of the number reads back as the number itself: it has no affixes, its
    /// numbers are above the least `i32`, and it is one number, or a set of two or more, all but
    /// the last with a delimiter, and no negative number behind a hyphen.
    pub fn reads_back(&self) -> bool
        ensures { result ≡ reads_back (numeric_view self.now) }
    {
        if !self.will_transform() {
            return false;
        }
        match &self.value {
            NumericValue::Number(number) => is_readable(*number),
            NumericValue::Set(set) => set.len() > 1 && items_read_back(set.as_slice()),
        }
    }
}

// Whether a number can be read.
fn is_readable(n: i32) -> bool
    ensures { result ≡ is_readable n }
{
    n > i32::MIN
}

// Whether a number may stand behind that delimiter.
fn may_follow(delimiter: NumericDelimiter, n: i32) -> bool
    ensures { result ≡ may_follow delimiter n }
{
    delimiter != NumericDelimiter::Hyphen || n >= 0
}

// Whether the numbers of a set read back, from any of them on.
fn items_read_back(items: &[(i32, Option<NumericDelimiter>)]) -> bool
    ensures { result ≡ items_read_back items.now }
{
    let mut rest = items;
    'items: while let Some((first, behind)) = rest.split_first() {
        match (first.1, behind.first()) {
            (None, None) => return is_readable(first.0),
            (Some(delimiter), Some(next))
                if is_readable(first.0) && may_follow(delimiter, next.0) => {
                rest = behind;
            }
            _ => return false,
        }
    }
    false
}
