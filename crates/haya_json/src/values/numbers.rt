//! Whole numbers, numbers and pages.
ghost use Rattle.std.specs.Prelude.{◌≡◌, IfOk, IfErr, Ok};
ghost use Rattle.json.specs.Value.{value_view};
ghost use Rattle.haya_json.specs.Refusal.{IsFaultOf};
ghost use Rattle.haya_json.specs.Values.{typed_by};
ghost use Rattle.haya_json.specs.Whole.{byte_of, whole_read};
ghost use Rattle.haya_values.specs.MaybeTyped.{maybe_typed_view};

use crate::fault::{ValueError, Why};
use crate::from_json::{FromJson, read_by, read_text};
use haya_numbers::{Numeric, PageRanges};
use haya_text::ReadText;
use haya_values::MaybeTyped;
use json::Value;
use std::alloc::Global;

/// The number of digits, perhaps behind a sign, where 32 bits hold it.
pub fn whole_read(text: &str) -> Option<i32>
    ensures { result ≡ whole_read text.now }
{
    text.parse::<i32>().ok()
}

impl FromJson for i32 {
    ghost use Rattle.std.specs.Prelude.{ℤ};
    ghost use Rattle.haya_json.specs.Parts.{whole_of};

    ghost View = { ℤ };

    ghost view = { λ n. n };

    ghost reads = { whole_of };

    /// A number without a fraction or an exponent.
    fn from_json(alloc: Global, json: &Value<'_>) -> Result<i32, ValueError> {
        let Some(text) = json.as_number() else {
            return Err(ValueError::refused(alloc, Why::NotWhole));
        };
        match whole_read(text) {
            Some(number) => Ok(number),
            None => Err(ValueError::refused(alloc, Why::NotWhole)),
        }
    }
}

impl FromJson for u8 {
    ghost use Rattle.std.specs.Prelude.{ℕ};
    ghost use Rattle.haya_json.specs.Values.{byte_in};

    ghost View = { ℕ };

    ghost view = { λ n. n };

    ghost reads = { byte_in };

    /// The number of a month or a day, from 0 on.
    fn from_json(alloc: Global, json: &Value<'_>) -> Result<u8, ValueError> {
        let number = i32::from_json(alloc, json)?;
        match byte_of(number) {
            Some(number) => Ok(number),
            None => Err(ValueError::refused(alloc, Why::NotWhole)),
        }
    }
}

// The number where 8 bits hold it without a sign.
fn byte_of(number: i32) -> Option<u8>
    ensures { result ≡ byte_of number }
{
    u8::try_from(number).ok()
}

impl FromJson for Numeric {
    ghost use Rattle.haya_numbers.specs.Numeric.{NumericView, numeric_view};
    ghost use Rattle.haya_json.specs.Values.{number_of};

    ghost View = { NumericView };

    ghost view = { numeric_view };

    ghost reads = { number_of };

    /// A whole number, or the text of a number.
    #[tactic(auto, unfolding(crate::specs::Values::number_of))]
    fn from_json(alloc: Global, json: &Value<'_>) -> Result<Numeric, ValueError> {
        match json {
            Value::Number(_) => Ok(Numeric::new(i32::from_json(alloc, json)?)),
            _ => read_by(alloc, json, Why::NotNumber),
        }
    }
}

/// What a reader of texts reads, or the text itself.
pub fn read_typed<T: ReadText>(alloc: Global, json: &Value<'_>) -> Result<MaybeTyped<T>, ValueError>
    ensures ok { IfOk result (λ v.
        typed_by T.reads (value_view json.now) ≡ Ok (maybe_typed_view T.value v)) }
    ensures fault { IfErr result (IsFaultOf (typed_by T.reads (value_view json.now))) }
{
    let text = read_text(alloc, json)?;
    Ok(MaybeTyped::from_str(alloc, text)?)
}

impl FromJson for MaybeTyped<Numeric> {
    ghost use Rattle.haya_numbers.specs.Numeric.{NumericView, numeric_view};
    ghost use Rattle.haya_values.specs.MaybeTyped.{TypedOrText, maybe_typed_view};
    ghost use Rattle.haya_json.specs.Values.{number_or_text_of};

    ghost View = { TypedOrText NumericView };

    ghost view = { maybe_typed_view numeric_view };

    ghost reads = { number_or_text_of };

    /// A whole number, the text of a number, or any other text.
    #[tactic(auto, unfolding(crate::specs::Values::number_or_text_of))]
    fn from_json(alloc: Global, json: &Value<'_>) -> Result<MaybeTyped<Numeric>, ValueError> {
        match json {
            Value::Number(_) => {
                let number = i32::from_json(alloc, json)?;
                Ok(MaybeTyped::Typed(Numeric::new(number)))
            }
            _ => read_typed(alloc, json),
        }
    }
}

impl FromJson for MaybeTyped<PageRanges> {
    ghost use Rattle.std.specs.Prelude.{List};
    ghost use Rattle.haya_numbers.specs.Pages.{PartView, parts};
    ghost use Rattle.haya_values.specs.MaybeTyped.{TypedOrText, maybe_typed_view};
    ghost use Rattle.haya_json.specs.Values.{pages_or_text_of};

    ghost View = { TypedOrText (List PartView) };

    ghost view = { maybe_typed_view parts };

    ghost reads = { pages_or_text_of };

    /// The number of one page, the text of pages, or any other text.
    #[tactic(auto, unfolding(crate::specs::Values::pages_or_text_of))]
    fn from_json(alloc: Global, json: &Value<'_>) -> Result<MaybeTyped<PageRanges>, ValueError> {
        match json {
            Value::Number(_) => {
                let number = i32::from_json(alloc, json)?;
                match PageRanges::from_i32(alloc, number) {
                    Ok(pages) => Ok(MaybeTyped::Typed(pages)),
                    Err(_) => Err(ValueError::OutOfMemory),
                }
            }
            _ => read_typed(alloc, json),
        }
    }
}
