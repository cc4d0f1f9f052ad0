//! Texts as a line shows them.
ghost use Rattle.std.specs.Prelude.{◌≡◌, ◌++◌, OnOk, string_bytes};
ghost use Rattle.std.specs.Char.{encode_utf8};
ghost use Rattle.haya_hits.specs.Shown.{shown_as, shown_key};

use haya_text::OutOfMemory;

/// How a line shows a text.
#[derive(Clone, Copy)]
pub(crate) enum Show {
    /// As it is.
    Raw,
    /// With a backslash and `t`, `n`, `r` or a backslash in the place of a tab, a line feed, a
    /// carriage return or a backslash.
    Escaped,
}

/// Puts a text behind another as it is shown.
pub(crate) fn push_text(line: &mut String, text: &str, show: Show) -> Result<(), OutOfMemory>
    ensures { OnOk result
        (string_bytes line.new ≡ string_bytes line.old ++ shown_as show text.now) }
{
    match show {
        Show::Raw => {
            line.push_str(text)?;
            Ok(())
        }
        Show::Escaped => push_escaped(line, text),
    }
}

fn push_escaped(line: &mut String, text: &str) -> Result<(), OutOfMemory>
    ensures { OnOk result (string_bytes line.new ≡ string_bytes line.old ++ shown_key text.now) }
{
    'characters: for c in text.chars() {
        push_escaped_char(line, c)?;
    }
    Ok(())
}

fn push_escaped_char(line: &mut String, c: char) -> Result<(), OutOfMemory>
    ensures { OnOk result
        (string_bytes line.new ≡ string_bytes line.old ++ shown_key (encode_utf8 c)) }
{
    match c {
        '\t' => line.push_str("\\t")?,
        '\n' => line.push_str("\\n")?,
        '\r' => line.push_str("\\r")?,
        '\\' => line.push_str("\\\\")?,
        _ => line.push(c)?,
    }
    Ok(())
}
