//! The caller of `crates/haya_values/CALLING.md`.
ghost use Rattle.std.specs.Prelude.{◌≡◌, IfOk};
ghost use Rattle.haya_numbers.specs.Numeric.{csl_order};
ghost use Rattle.haya_values.specs.Order.{typed_first};
ghost use Rattle.hayagriva_uses.specs.Volume.{volume};

use haya_numbers::Numeric;
use haya_text::{OutOfMemory, ReadText};
use haya_values::MaybeTyped;
use std::alloc::Global;
use std::cmp::Ordering;

/// The order of two volumes by their texts: numbers before what is no number.
pub fn cmp_volumes(alloc: Global, a: &str, b: &str) -> Result<Ordering, OutOfMemory>
    ensures { IfOk result (λ order. order ≡ typed_first csl_order (volume a.now) (volume b.now)) }
{
    let first = MaybeTyped::<Numeric>::from_str(alloc, a)?;
    let second = MaybeTyped::<Numeric>::from_str(alloc, b)?;
    Ok(first.csl_cmp(&second))
}
