//! The value of a plain scalar.
ghost use Rattle.std.specs.Prelude.{◌≡◌, ◌≢◌, OnOk, Err};
ghost use Rattle.haya_yaml_text.specs.Numbers.{begins_number};
ghost use Rattle.haya_yaml_text.specs.Resolved.{is_false, is_null, is_number, is_true, resolve};
ghost use Rattle.haya_yaml_text.specs.Writing.{KeepsBefore, WritesValue};

use json::Writer;
use std::alloc::AllocError;

fn is_null(text: &str) -> bool
    ensures { result ≡ is_null text.now }
{
    text == "~" || text == "null" || text == "Null" || text == "NULL"
}

fn is_true(text: &str) -> bool
    ensures { result ≡ is_true text.now }
{
    text == "true" || text == "True" || text == "TRUE"
}

fn is_false(text: &str) -> bool
    ensures { result ≡ is_false text.now }
{
    text == "false" || text == "False" || text == "FALSE"
}

// Whether a number may begin here.
fn begins_number(bytes: &[u8]) -> bool
    ensures { result ≡ begins_number bytes.now }
{
    match bytes {
        [] => false,
        [byte, ..] => *byte == b'-' || (b'0' <= *byte && *byte <= b'9'),
    }
}

fn is_number(text: &str) -> bool
    ensures { result ≡ is_number text.now }
{
    if !begins_number(text.as_bytes()) {
        return false;
    }
    json::is_number(text)
}

/// Writes the value of a plain scalar: null, a boolean, a number, or its text. The error: there was
/// no memory for it.
#[tactic(auto, unfolding(crate::specs::Resolved::resolve))]
pub fn write_resolved(out: &mut Writer, text: &str) -> Result<(), AllocError>
    ensures ok { OnOk result (WritesValue out.old out.new (resolve text.now)) }
    ensures before { OnOk result (KeepsBefore out.old out.new) }
{
    if is_null(text) {
        out.null()?;
    } else if is_true(text) {
        out.boolean(true)?;
    } else if is_false(text) {
        out.boolean(false)?;
    } else if is_number(text) {
        out.number(text)?;
    } else {
        out.string(text)?;
    }
    Ok(())
}
