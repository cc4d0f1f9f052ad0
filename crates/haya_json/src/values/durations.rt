//! Durations and ranges of them.
ghost use Rattle.std.specs.Prelude.{◌≡◌, IfOk, IfErr, Ok};
ghost use Rattle.json.specs.Value.{value_view};
ghost use Rattle.haya_json.specs.Refusal.{IsFaultOf};
ghost use Rattle.haya_json.specs.Values.{range_in};

use super::numbers::read_typed;
use crate::fault::{ValueError, Why};
use crate::from_json::{FromJson, needed, read_by};
use haya_time::{Duration, DurationRange};
use haya_values::MaybeTyped;
use json::Value;
use std::alloc::Global;

impl FromJson for Duration {
    ghost use Rattle.haya_time.specs.declared.duration.Duration as duration;
    ghost use Rattle.haya_json.specs.Values.{duration_of};

    ghost View = { duration.Duration };

    ghost view = { λ d. d };

    ghost reads = { duration_of };

    #[tactic(auto, unfolding(crate::specs::Values::duration_of))]
    fn from_json(alloc: Global, json: &Value<'_>) -> Result<Duration, ValueError> {
        read_by(alloc, json, Why::NotDuration)
    }
}

impl FromJson for MaybeTyped<Duration> {
    ghost use Rattle.haya_time.specs.declared.duration.Duration as duration;
    ghost use Rattle.haya_values.specs.MaybeTyped.{TypedOrText, maybe_typed_view};
    ghost use Rattle.haya_json.specs.Values.{duration_or_text_of};

    ghost View = { TypedOrText duration.Duration };

    ghost view = { maybe_typed_view (λ d. d) };

    ghost reads = { duration_or_text_of };

    /// The text of a duration, or any other text.
    #[tactic(auto, unfolding(crate::specs::Values::duration_or_text_of))]
    fn from_json(alloc: Global, json: &Value<'_>) -> Result<MaybeTyped<Duration>, ValueError> {
        read_typed(alloc, json)
    }
}

impl FromJson for MaybeTyped<DurationRange> {
    ghost use Rattle.haya_time.specs.declared.duration.range.DurationRange as range;
    ghost use Rattle.haya_values.specs.MaybeTyped.{TypedOrText, maybe_typed_view};
    ghost use Rattle.haya_json.specs.Values.{range_or_text_of};

    ghost View = { TypedOrText range.DurationRange };

    ghost view = { maybe_typed_view (λ r. r) };

    ghost reads = { range_or_text_of };

    /// The text of a range, any other text, or an object of a `start` and an `end`.
    #[tactic(auto, unfolding(crate::specs::Values::range_or_text_of))]
    fn from_json(alloc: Global, json: &Value<'_>) -> Result<MaybeTyped<DurationRange>, ValueError> {
        match json {
            Value::Object(_) => Ok(MaybeTyped::Typed(read_ends(alloc, json)?)),
            _ => read_typed(alloc, json),
        }
    }
}

// The range of an object.
fn read_ends(alloc: Global, json: &Value<'_>) -> Result<DurationRange, ValueError>
    ensures ok { IfOk result (λ range. range_in (value_view json.now) ≡ Ok range) }
    ensures fault { IfErr result (IsFaultOf (range_in (value_view json.now))) }
{
    let start = needed::<Duration>(alloc, json, "start")?;
    let end = needed::<Duration>(alloc, json, "end")?;
    Ok(DurationRange { start, end })
}
