//! Publishers and addresses.
ghost use Rattle.std.specs.Prelude.{◌≡◌, IfOk, IfErr, Ok};
ghost use Rattle.json.specs.Value.{value_view};
ghost use Rattle.haya_json.specs.Refusal.{IsFaultOf};
ghost use Rattle.haya_json.specs.Values.{publisher_in, url_in};
ghost use Rattle.haya_values.specs.Publisher.{publisher_view};
ghost use Rattle.haya_values.specs.Url.{url_view};

use crate::fault::{ValueError, Why};
use crate::from_json::{FromJson, needed, optional, read_by};
use haya_text::FormatString;
use haya_time::Date;
use haya_values::{Publisher, QualifiedUrl};
use json::Value;
use std::alloc::Global;

impl FromJson for Publisher {
    ghost use Rattle.haya_values.specs.Publisher.{PublisherView, publisher_view};
    ghost use Rattle.haya_json.specs.Values.{publisher_of};

    ghost View = { PublisherView };

    ghost view = { publisher_view };

    ghost reads = { publisher_of };

    /// The publisher's name, or an object of a `name` and a `location`.
    #[tactic(auto, unfolding(crate::specs::Values::publisher_of))]
    fn from_json(alloc: Global, json: &Value<'_>) -> Result<Publisher, ValueError> {
        match json {
            Value::Object(_) => read_publisher(alloc, json),
            _ => read_by(alloc, json, Why::NotChunks),
        }
    }
}

// The publisher of an object.
fn read_publisher(alloc: Global, json: &Value<'_>) -> Result<Publisher, ValueError>
    ensures ok { IfOk result (λ p. publisher_in (value_view json.now) ≡ Ok (publisher_view p)) }
    ensures fault { IfErr result (IsFaultOf (publisher_in (value_view json.now))) }
{
    let name = optional::<FormatString>(alloc, json, "name")?;
    let location = optional::<FormatString>(alloc, json, "location")?;
    Ok(Publisher::new(name, location))
}

impl FromJson for QualifiedUrl {
    ghost use Rattle.haya_values.specs.Url.{UrlView, url_view};
    ghost use Rattle.haya_json.specs.Values.{url_of};

    ghost View = { UrlView };

    ghost view = { url_view };

    ghost reads = { url_of };

    /// The address, or an object of a `value` and the `date` of a visit.
    #[tactic(auto, unfolding(crate::specs::Values::url_of))]
    fn from_json(alloc: Global, json: &Value<'_>) -> Result<QualifiedUrl, ValueError> {
        match json {
            Value::Object(_) => read_url(alloc, json),
            _ => {
                let address = String::from_json(alloc, json)?;
                Ok(QualifiedUrl::new(address, None))
            }
        }
    }
}

// The address of an object.
fn read_url(alloc: Global, json: &Value<'_>) -> Result<QualifiedUrl, ValueError>
    ensures ok { IfOk result (λ url. url_in (value_view json.now) ≡ Ok (url_view url)) }
    ensures fault { IfErr result (IsFaultOf (url_in (value_view json.now))) }
{
    let address = needed::<String>(alloc, json, "value")?;
    let date = optional::<Date>(alloc, json, "date")?;
    Ok(QualifiedUrl::new(address, date))
}
