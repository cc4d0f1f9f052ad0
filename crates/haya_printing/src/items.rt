//! Items of a line: the trait of values that an item shows, and the items that all types share.
ghost use Rattle.std.specs.Prelude.{◌∷◌, ◌++◌, map, option_map, OnOk};
ghost use Rattle.haya_lines.specs.Signs.{equals_sign, tab};
ghost use Rattle.haya_printing.specs.Printed.{also, also_each, each, item};
ghost use Rattle.haya_printing.specs.Pushed.{Pushes};

use haya_text::OutOfMemory;
use std::alloc::Global;

/// A value that an item of a line shows.
pub(crate) trait ToItem {
    ghost use Rattle.std.specs.Prelude.{◌++◌, ℕ, List, OnOk};
    ghost use Rattle.haya_printing.specs.Pushed.{Pushes};

    // What a value is to its readers.
    ghost View: { Type 0 };

    ghost view: { Self → View };

    // The text that is shown.
    ghost text: { View → List ℕ };

    /// Pushes the text of the value.
    fn push_text(&self, alloc: Global, line: &mut String) -> Result<(), OutOfMemory>
        ensures { OnOk result (Pushes line.old line.new (λ rest. text (view self.now) ++ rest)) };
}

/// An item of this name and text.
pub(crate) fn push_item(line: &mut String, name: &str, text: &str) -> Result<(), OutOfMemory>
    ensures { OnOk result (Pushes line.old line.new (item name.now text.now)) }
{
    push_name(line, name)?;
    line.push_str(text)?;
    Ok(())
}

/// A tab, a name and `=`.
pub(crate) fn push_name(line: &mut String, name: &str) -> Result<(), OutOfMemory>
    ensures { OnOk result (Pushes line.old line.new
        (λ rest. tab ∷ name.now ++ equals_sign ∷ rest)) }
{
    line.push('\t')?;
    line.push_str(name)?;
    line.push('=')?;
    Ok(())
}

/// The same where there is a text.
pub(crate) fn also_text(
    line: &mut String,
    name: &str,
    text: Option<&str>,
) -> Result<(), OutOfMemory>
    ensures { OnOk result (Pushes line.old line.new
        (also name.now (λ text. text) (option_map (λ t. t.now) text.entry))) }
{
    match text {
        Some(text) => push_item(line, name, text),
        None => Ok(()),
    }
}

/// An item of a value.
pub(crate) fn push_value<T: ToItem>(
    alloc: Global,
    line: &mut String,
    name: &str,
    value: &T,
) -> Result<(), OutOfMemory>
    ensures { OnOk result (Pushes line.old line.new
        (item name.now (T.text (T.view value.now)))) }
{
    push_name(line, name)?;
    value.push_text(alloc, line)
}

/// The same where there is a value.
pub(crate) fn also<T: ToItem>(
    alloc: Global,
    line: &mut String,
    name: &str,
    value: Option<&T>,
) -> Result<(), OutOfMemory>
    ensures { OnOk result (Pushes line.old line.new
        (also name.now T.text (option_map (λ v. T.view v.now) value.entry))) }
{
    match value {
        Some(value) => push_value(alloc, line, name, value),
        None => Ok(()),
    }
}

// An item of each value.
fn push_each<T: ToItem>(
    alloc: Global,
    line: &mut String,
    name: &str,
    values: &[T],
) -> Result<(), OutOfMemory>
    ensures { OnOk result (Pushes line.old line.new
        (each name.now T.text (map T.view values.now))) }
{
    'values: for value in values {
        push_value(alloc, line, name, value)?;
    }
    Ok(())
}

/// The same where there is a list.
pub(crate) fn also_each<T: ToItem>(
    alloc: Global,
    line: &mut String,
    name: &str,
    values: Option<&[T]>,
) -> Result<(), OutOfMemory>
    ensures { OnOk result (Pushes line.old line.new
        (also_each name.now T.text (option_map (λ v. map T.view v.now) values.entry))) }
{
    match values {
        Some(values) => push_each(alloc, line, name, values),
        None => Ok(()),
    }
}
