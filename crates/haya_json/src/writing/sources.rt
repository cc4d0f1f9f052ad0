//! Publishers, addresses and serial numbers.
ghost use Rattle.std.specs.Prelude.{◌≡◌, option_map, OnOk};
ghost use Rattle.haya_entry.specs.SerialNumber.{serial_view};
ghost use Rattle.haya_text.specs.Chunks.{chunks};
ghost use Rattle.haya_values.specs.Publisher.{publisher_view};
ghost use Rattle.haya_json.specs.Printed.{name_alone, publisher_parts, url_parts};
ghost use Rattle.haya_json.specs.Writing.{KeepsBefore, WritesValue};

use crate::members::{ToJson, also, write_member, write_text};
use haya_entry::SerialNumber;
use haya_text::{ChunkedString, OutOfMemory};
use haya_time::Date;
use haya_values::{Publisher, QualifiedUrl};
use json::Writer;
use std::alloc::Global;

impl ToJson for Publisher {
    ghost use Rattle.haya_values.specs.Publisher.{PublisherView, publisher_view};
    ghost use Rattle.haya_json.specs.Printed.{publisher_json};

    ghost View = { PublisherView };

    ghost view = { publisher_view };

    ghost json = { publisher_json };

    /// The text of the name where there is no place and no short form, otherwise an object.
    #[tactic(auto, unfolding(crate::specs::Printed::publisher_json))]
    fn write_json(&self, alloc: Global, out: &mut Writer) -> Result<(), OutOfMemory> {
        match name_alone(self) {
            Some(name) => {
                let text = name.to_serialized(alloc)?;
                Ok(out.string(text.as_str())?)
            }
            None => write_publisher(alloc, out, self),
        }
    }
}

// The name where there is no place and no short form.
fn name_alone(publisher: &Publisher) -> Option<&ChunkedString>
    ensures { option_map (λ c. chunks c.now) result
        ≡ name_alone (publisher_view publisher.now) }
{
    if publisher.location().is_some() {
        return None;
    }
    let name = publisher.name()?;
    if name.short.is_some() {
        return None;
    }
    Some(&name.value)
}

// A publisher as an object.
fn write_publisher(
    alloc: Global,
    out: &mut Writer,
    publisher: &Publisher,
) -> Result<(), OutOfMemory>
    ensures value { OnOk result (WritesValue out.old out.new
        (publisher_parts (publisher_view publisher.now))) }
    ensures before { OnOk result (KeepsBefore out.old out.new) }
{
    out.begin_object()?;
    also(alloc, out, "name", publisher.name())?;
    also(alloc, out, "location", publisher.location())?;
    out.end_object()?;
    Ok(())
}

impl ToJson for QualifiedUrl {
    ghost use Rattle.haya_values.specs.Url.{UrlView, url_view};
    ghost use Rattle.haya_json.specs.Printed.{url_json};

    ghost View = { UrlView };

    ghost view = { url_view };

    ghost json = { url_json };

    /// The address alone, or with the date of a visit.
    #[tactic(auto, unfolding(crate::specs::Printed::url_json))]
    fn write_json(&self, alloc: Global, out: &mut Writer) -> Result<(), OutOfMemory> {
        match &self.visit_date {
            None => Ok(out.string(self.value.as_str())?),
            Some(date) => write_visit(alloc, out, self.value.as_str(), date),
        }
    }
}

// An address with the date of a visit.
fn write_visit(
    alloc: Global,
    out: &mut Writer,
    address: &str,
    date: &Date,
) -> Result<(), OutOfMemory>
    ensures value { OnOk result (WritesValue out.old out.new (url_parts address.now date.now)) }
    ensures before { OnOk result (KeepsBefore out.old out.new) }
{
    out.begin_object()?;
    write_text(out, "value", address)?;
    write_member(alloc, out, "date", date)?;
    out.end_object()?;
    Ok(())
}

impl ToJson for SerialNumber {
    ghost use Rattle.haya_entry.specs.SerialNumber.{Serials, serial_view};
    ghost use Rattle.haya_json.specs.Printed.{serial_json};

    ghost View = { Serials };

    ghost view = { serial_view };

    ghost json = { serial_json };

    /// An object of the numbers under their keys.
    #[tactic(auto, unfolding(crate::specs::Printed::serial_json))]
    fn write_json(&self, _alloc: Global, out: &mut Writer) -> Result<(), OutOfMemory> {
        out.begin_object()?;
        if let Some(number) = self.only() {
            write_text(out, number.0.as_str(), number.1.as_str())?;
        }
        'numbers: for (key, number) in self.several().iter() {
            write_text(out, key.as_str(), number.as_str())?;
        }
        out.end_object()?;
        Ok(())
    }
}
