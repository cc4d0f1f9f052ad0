//! Serial numbers.
ghost use Rattle.std.specs.BTreeMap.{insert_entry};
ghost use Rattle.std.specs.Cmp.Lexicographic.{slice_cmp};
ghost use Rattle.std.specs.Ordering.{nat_cmp};
ghost use Rattle.std.specs.Prelude.{◌≡◌, string_bytes, IfErr, OnOk, Ok};
ghost use Rattle.json.specs.Value.{members_view, value_view};
ghost use Rattle.haya_entry.specs.SerialNumber.{serial_view};
ghost use Rattle.haya_json.specs.Refusal.{IsFaultOf};
ghost use Rattle.haya_json.specs.Values.{serials_and, serials_with};

use crate::fault::ValueError;
use crate::from_json::FromJson;
use haya_entry::SerialNumber;
use haya_text::OutOfMemory;
use json::Value;
use std::alloc::Global;

impl FromJson for SerialNumber {
    ghost use Rattle.haya_entry.specs.SerialNumber.{Serials, serial_view};
    ghost use Rattle.haya_json.specs.Values.{serials_of};

    ghost View = { Serials };

    ghost view = { serial_view };

    ghost reads = { serials_of };

    /// An object of numbers under their keys, or one number, under the key `serial`.
    #[tactic(auto, unfolding(crate::specs::Values::serials_of))]
    fn from_json(alloc: Global, json: &Value<'_>) -> Result<SerialNumber, ValueError> {
        let mut serials = SerialNumber::new(alloc);
        match json {
            Value::Object(members) => read_members(alloc, &mut serials, members)?,
            _ => {
                let number = String::from_json(alloc, json)?;
                keep(alloc, &mut serials, "serial", number)?;
            }
        }
        Ok(serials)
    }
}

// Each number under its name, beside those that are there.
fn read_members(
    alloc: Global,
    serials: &mut SerialNumber,
    members: &Vec<(&str, Value<'_>)>,
) -> Result<(), ValueError>
    ensures ok { OnOk result
        (serials_with (serial_view serials.old) (members_view members.now.items)
        ≡ Ok (serial_view serials.new)) }
    ensures fault { IfErr result (IsFaultOf
        (serials_with (serial_view serials.old) (members_view members.now.items))) }
{
    'numbers: for member in members {
        match read_member(alloc, serials, member.0, &member.1) {
            Ok(()) => {}
            Err(fault) => return Err(fault.in_member(alloc, member.0)),
        }
    }
    Ok(())
}

// One number under its name, but where it is null.
fn read_member(
    alloc: Global,
    serials: &mut SerialNumber,
    name: &str,
    json: &Value<'_>,
) -> Result<(), ValueError>
    ensures ok { OnOk result (serials_and (serial_view serials.old) name.now (value_view json.now)
        ≡ Ok (serial_view serials.new)) }
    ensures fault { IfErr result (IsFaultOf
        (serials_and (serial_view serials.old) name.now (value_view json.now))) }
{
    if json.is_null() {
        return Ok(());
    }
    let number = String::from_json(alloc, json)?;
    keep(alloc, serials, name, number)?;
    Ok(())
}

// Keeps a number under a name, in the place of the one that was there.
fn keep(
    alloc: Global,
    serials: &mut SerialNumber,
    name: &str,
    number: String,
) -> Result<(), OutOfMemory>
    ensures { OnOk result (serial_view serials.new ≡ insert_entry (slice_cmp nat_cmp)
        (serial_view serials.old) name.now (string_bytes number)) }
{
    let name = String::from_str(alloc, name)?;
    serials.insert(name, number)
}
