//! Texts with marks, and with a short form.
ghost use Rattle.std.specs.Prelude.{◌≡◌, codes, OnOk};
ghost use Rattle.json.specs.Json.{member, no_members, object, string};
ghost use Rattle.haya_json.specs.Writing.{KeepsBefore, WritesValue};

use crate::members::{ToJson, write_text};
use haya_text::{FormatString, OutOfMemory};
use json::Writer;
use std::alloc::Global;

impl ToJson for FormatString {
    ghost use Rattle.haya_text.specs.Texts.{TextView, text_view};
    ghost use Rattle.haya_json.specs.Printed.{format_json};

    ghost View = { TextView };

    ghost view = { text_view };

    ghost json = { format_json };

    /// A text alone, or with its short form in an object.
    #[tactic(auto, unfolding(crate::specs::Printed::format_json))]
    fn write_json(&self, alloc: Global, out: &mut Writer) -> Result<(), OutOfMemory> {
        let value = self.value.to_serialized(alloc)?;
        match &self.short {
            None => Ok(out.string(value.as_str())?),
            Some(short) => {
                let short = short.to_serialized(alloc)?;
                write_forms(out, value.as_str(), short.as_str())
            }
        }
    }
}

// An object of a text and its short form.
fn write_forms(out: &mut Writer, value: &str, short: &str) -> Result<(), OutOfMemory>
    ensures value { OnOk result (WritesValue out.old out.new (object (member (codes "value")
        (string value.now) (member (codes "short") (string short.now) no_members)))) }
    ensures before { OnOk result (KeepsBefore out.old out.new) }
{
    out.begin_object()?;
    write_text(out, "value", value)?;
    write_text(out, "short", short)?;
    out.end_object()?;
    Ok(())
}
