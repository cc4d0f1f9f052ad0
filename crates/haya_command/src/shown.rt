//! What comes from an input, as messages show it.
use haya_text::OutOfMemory;
use std::alloc::Global;

/// A text in one line: its control characters as JSON writes them, as `\n` or `\u001b`. So nothing of
/// an input looks like a message of its own, or moves a terminal's cursor.
pub(crate) fn shown(alloc: Global, text: &str) -> Result<String, OutOfMemory> {
    let mut line = String::new(alloc);
    'characters: for c in text.chars() {
        push_shown(alloc, &mut line, c)?;
    }
    Ok(line)
}

/// A key in one line, as keys are printed: the same, and each backslash twice.
pub(crate) fn shown_key(alloc: Global, key: &str) -> Result<String, OutOfMemory> {
    let mut line = String::new(alloc);
    'characters: for c in key.chars() {
        match c {
            '\\' => line.push_str("\\\\")?,
            _ => push_shown(alloc, &mut line, c)?,
        }
    }
    Ok(line)
}

// Puts a character behind a line.
fn push_shown(alloc: Global, line: &mut String, c: char) -> Result<(), OutOfMemory> {
    match c {
        '\t' => line.push_str("\\t")?,
        '\n' => line.push_str("\\n")?,
        '\r' => line.push_str("\\r")?,
        _ if c.is_control() => {
            let code = u32::from(c);
            let escape = format!(in alloc; "\\u{code:04x}")?;
            line.push_str(escape.as_str())?;
        }
        _ => line.push(c)?,
    }
    Ok(())
}
