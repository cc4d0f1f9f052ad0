//! Dates.
ghost use Rattle.std.specs.Prelude.{◌≡◌, option_and_then, IfOk, IfErr, Ok};
ghost use Rattle.json.specs.Value.{value_view};
ghost use Rattle.haya_json.specs.Refusal.{IsFaultOf};
ghost use Rattle.haya_json.specs.Values.{date_in};
ghost use Rattle.haya_json.specs.Whole.{season_of};

use crate::fault::{ValueError, Why};
use crate::from_json::{FromJson, flag, needed, optional, read_text};
use haya_time::{Date, Season};
use json::Value;
use std::alloc::Global;

impl FromJson for Date {
    ghost use Rattle.haya_time.specs.declared.date.Date as date;
    ghost use Rattle.haya_json.specs.Values.{date_of};

    ghost View = { date.Date };

    ghost view = { λ d. d };

    ghost reads = { date_of };

    /// A text, the number of a year, or an object of the parts of a date.
    #[tactic(auto, unfolding(crate::specs::Values::date_of))]
    fn from_json(alloc: Global, json: &Value<'_>) -> Result<Date, ValueError> {
        match json {
            Value::Object(_) => read_parts(alloc, json),
            Value::Number(_) => Ok(Date::from_year(i32::from_json(alloc, json)?)),
            _ => {
                let text = read_text(alloc, json)?;
                match text.parse::<Date>() {
                    Ok(date) => Ok(date),
                    Err(_) => Err(ValueError::refused(alloc, Why::NotDate)),
                }
            }
        }
    }
}

// The date of an object.
fn read_parts(alloc: Global, json: &Value<'_>) -> Result<Date, ValueError>
    ensures ok { IfOk result (λ date. date_in (value_view json.now) ≡ Ok date) }
    ensures fault { IfErr result (IsFaultOf (date_in (value_view json.now))) }
{
    let year = needed::<i32>(alloc, json, "year")?;
    let month = optional::<u8>(alloc, json, "month")?;
    let day = optional::<u8>(alloc, json, "day")?;
    let approximate = flag(alloc, json, "approximate")?;
    let number = optional::<i32>(alloc, json, "season")?;
    let season = season_among(number);
    Ok(Date {
        year,
        month,
        day,
        approximate,
        season,
    })
}

// The season with this number, where there is one.
fn season_among(number: Option<i32>) -> Option<Season>
    ensures { result ≡ option_and_then season_of number }
{
    match number? {
        1 => Some(Season::Spring),
        2 => Some(Season::Summer),
        3 => Some(Season::Autumn),
        4 => Some(Season::Winter),
        _ => None,
    }
}
