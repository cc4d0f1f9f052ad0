//! Entries, printed.
ghost use Rattle.std.specs.Prelude.{◌≡◌, ◌++◌, IfOk, OnOk, map, string_bytes};
ghost use Rattle.haya_line_slices.specs.Printed.{end_for, entries_text};

use std::alloc::{AllocError, Global};

/// Entries as a text in lines, each as it is. A line feed is put behind one that has none at its
/// end, as the last of a text may.
pub fn entries_text(alloc: Global, parts: &[&str]) -> Result<String, AllocError>
    ensures { IfOk result (λ text.
        string_bytes text ≡ entries_text (map (λ s. s.now) parts.now)) }
{
    let mut text = String::new(alloc);
    'parts: for part in parts {
        push_entry(&mut text, part)?;
    }
    Ok(text)
}

/// Puts an entry behind a text, as it is. A line feed is put behind one that has none at its end.
pub fn push_entry(text: &mut String, part: &str) -> Result<(), AllocError>
    ensures { OnOk result
        (string_bytes text.new ≡ string_bytes text.old ++ (part.now ++ end_for part.now)) }
{
    text.push_str(part)?;
    text.push_str(end_for(part.as_bytes()))
}

// What ends an entry's last line.
fn end_for(part: &[u8]) -> &'static str
    ensures { result.now ≡ end_for part.now }
{
    if part.ends_with(b"\n") {
        ""
    } else if part.ends_with(b"\r") {
        "\r\n"
    } else {
        "\n"
    }
}
