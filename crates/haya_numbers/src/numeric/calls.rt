//! Makes numbers, and tells what they hold.
ghost use Rattle.std.specs.Prelude.{◌≡◌, ◌↔◌, ◌<◌, ◌≤◌, ◌^◌, [], None, Some, length, pos};
ghost use Rattle.std.specs.Prelude.{slice_get, option_map, IfOk, IsTrue, MatchResult};
ghost use Rattle.haya_numbers.specs.Numeric.{Single, value_view, numeric_view, numbers, csl_order};
ghost use Rattle.haya_numbers.specs.Numeric.{without_affixes, range_view, is_plural, single_number};

use crate::{Numeric, NumericDelimiter, NumericValue};
use haya_text::{OutOfMemory, TryClone};
use std::alloc::Global;
use std::cmp::Ordering;
use std::num::TryFromIntError;
use std::ops::Range;

impl Numeric {
    /// The number alone.
    pub fn new(value: i32) -> Numeric
        ensures { numeric_view result ≡ without_affixes (Single value) }
    {
        Numeric {
            value: NumericValue::Number(value),
            prefix: None,
            suffix: None,
        }
    }

    /// The set of the range's start and end, with a hyphen between them.
    pub fn from_range(alloc: Global, value: Range<i32>) -> Result<Numeric, OutOfMemory>
        ensures { IfOk result (λ n. numeric_view n
            ≡ without_affixes (range_view value.start value.end)) }
    {
        let mut set = Vec::new(alloc);
        set.push((value.start, Some(NumericDelimiter::Hyphen)))?;
        set.push((value.end, None))?;
        Ok(Numeric {
            value: NumericValue::Set(set),
            prefix: None,
            suffix: None,
        })
    }

    /// Whether there is no affix, so that the value can be shown in another form.
    pub fn will_transform(&self) -> bool
        ensures { IsTrue result
            ↔ (numeric_view self.now ≡ without_affixes (value_view self.now.value)) }
    {
        self.prefix.is_none() && self.suffix.is_none()
    }

    /// The text before the value.
    pub fn prefix_str(&self) -> Option<&str>
        ensures { option_map (λ s. s.now) result ≡ (numeric_view self.now).prefix }
    {
        match &self.prefix {
            Some(prefix) => Some(prefix.as_str()),
            None => None,
        }
    }

    /// The text after the value.
    pub fn suffix_str(&self) -> Option<&str>
        ensures { option_map (λ s. s.now) result ≡ (numeric_view self.now).suffix }
    {
        match &self.suffix {
            Some(suffix) => Some(suffix.as_str()),
            None => None,
        }
    }

    /// Whether a term that stands beside the value is put in the plural: for a number that counts
    /// things, unless it is 1, and for a set that hasn't exactly one number.
    pub fn is_plural(&self, is_number_of: bool) -> bool
        ensures { result ≡ is_plural is_number_of (value_view self.now.value) }
    {
        match &self.value {
            NumericValue::Number(number) => is_number_of && *number != 1,
            NumericValue::Set(set) => set.len() != 1,
        }
    }

    /// The number, if it is one alone, without affixes.
    pub fn single_number(&self) -> Option<i32>
        ensures { result ≡ single_number (numeric_view self.now) }
    {
        match &self.value {
            NumericValue::Number(number) if self.will_transform() => Some(*number),
            _ => None,
        }
    }

    /// The number at that place, counted from 0.
    pub fn nth(&self, n: usize) -> Option<i32>
        ensures { result ≡ slice_get (numbers (value_view self.now.value)) n }
    {
        match &self.value {
            NumericValue::Number(number) if n == 0 => Some(*number),
            NumericValue::Number(_) => None,
            NumericValue::Set(set) => Some(set.get(n)?.0),
        }
    }

    /// The order of the numbers, by the first that differ; of two that begin
    /// alike the shorter is first.
    pub fn csl_cmp(&self, other: &Self) -> Ordering
        ensures { result ≡ csl_order (numeric_view self.now) (numeric_view other.now) }
    {
        self.value.into_iter().cmp(&other.value)
    }

    /// A copy, equal to this number.
    pub fn try_clone(&self, alloc: Global) -> Result<Numeric, OutOfMemory>
        ensures { IfOk result (λ copy. numeric_view copy ≡ numeric_view self.now) }
    {
        Ok(Numeric {
            value: self.value.try_clone(alloc)?,
            prefix: self.prefix.try_clone(alloc)?,
            suffix: self.suffix.try_clone(alloc)?,
        })
    }
}

impl NumericValue {
    /// How many numbers there are.
    pub fn len(&self) -> usize
        ensures { result ≡ length (numbers (value_view self.now)) }
    {
        match self {
            NumericValue::Number(_) => 1,
            NumericValue::Set(set) => set.len(),
        }
    }

    /// Whether there is no number.
    pub fn is_empty(&self) -> bool
        ensures { IsTrue result ↔ (numbers (value_view self.now) ≡ []) }
    {
        self.len() == 0
    }

    /// A copy, equal to this value.
    pub fn try_clone(&self, alloc: Global) -> Result<NumericValue, OutOfMemory>
        ensures { IfOk result (λ copy. value_view copy ≡ value_view self.now) }
    {
        match self {
            NumericValue::Number(number) => Ok(NumericValue::Number(*number)),
            NumericValue::Set(set) => Ok(NumericValue::Set(set.as_slice().to_vec(alloc)?)),
        }
    }
}

impl TryClone for Numeric {
    ghost use Rattle.haya_numbers.specs.Numeric.{NumericView};

    ghost View = { NumericView };

    ghost view = { numeric_view };

    fn try_clone(&self, alloc: Global) -> Result<Numeric, OutOfMemory> {
        self.try_clone(alloc)
    }
}

impl TryClone for NumericValue {
    ghost use Rattle.haya_numbers.specs.Numeric.{ValueView};

    ghost View = { ValueView };

    ghost view = { value_view };

    fn try_clone(&self, alloc: Global) -> Result<NumericValue, OutOfMemory> {
        self.try_clone(alloc)
    }
}

impl From<i32> for Numeric {
    ghost from_gives = { λ n v. numeric_view v ≡ without_affixes (Single n) };

    fn from(value: i32) -> Numeric {
        Numeric::new(value)
    }
}

impl TryFrom<u32> for Numeric {
    type Error = TryFromIntError;

    ghost try_from_gives = { λ n r. MatchResult r
        (λ v. (n < 2 ^ 31) × (numeric_view v ≡ without_affixes (Single (pos n))))
        (λ _. 2 ^ 31 ≤ n) };

    /// The number alone, unless it is greater than the greatest `i32`.
    fn try_from(value: u32) -> Result<Numeric, TryFromIntError> {
        Ok(Numeric::new(i32::try_from(value)?))
    }
}
