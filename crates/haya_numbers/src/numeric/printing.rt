//! Prints numbers.
ghost use Rattle.std.specs.Prelude.{◌≡◌, Some, OnOk};
ghost use Rattle.std.specs.Fmt.{WritesText, signed_decimal};
ghost use Rattle.haya_numbers.specs.Numeric.{value_view, numeric_view};
ghost use Rattle.haya_numbers.specs.NumericPrinted.{delimiter_text, item_text, formatted_value};
ghost use Rattle.haya_numbers.specs.NumericPrinted.{shown_numeric};

use crate::{Numeric, NumericDelimiter, NumericValue};
use std::fmt;
use std::fmt::Write;

impl fmt::Display for Numeric {
    ghost output = { λ n. Some (shown_numeric (numeric_view n)) };

    /// The prefix, the numbers with their delimiters, and the suffix.
    fn fmt<W: fmt::Write>(&self, f: &mut fmt::Formatter<W>) -> fmt::Result {
        let prefix = self.prefix_str().unwrap_or("");
        let suffix = self.suffix_str().unwrap_or("");
        let value = Formatted {
            value: &self.value,
            machine_readable: false,
        };
        write!(f, "{prefix}{value}{suffix}")
    }
}

impl Numeric {
    /// Writes the numbers without affixes, with delimiters as they are shown, or in ASCII alone for
    /// a machine. The writer's fault ends the call.
    pub fn fmt_value<W: fmt::Write>(&self, buf: &mut W, machine_readable: bool) -> fmt::Result
        ensures { let text = formatted_value machine_readable (value_view self.now.value) in
            OnOk result (WritesText W.write_str_gives buf.old (Some text) buf.new) }
    {
        buf.write(Formatted {
            value: &self.value,
            machine_readable,
        })
    }
}

// The numbers of a value, as they are shown or for a machine.
#[derive(Drop)]
struct Formatted<'a> {
    value: &'a NumericValue,
    machine_readable: bool,
}

impl fmt::Display for Formatted<'_> {
    ghost output = { λ s. Some (formatted_value s.machine_readable (value_view s.value.now)) };

    fn fmt<W: fmt::Write>(&self, f: &mut fmt::Formatter<W>) -> fmt::Result {
        let set = match self.value {
            NumericValue::Number(number) => return write!(f, "{number}"),
            NumericValue::Set(set) => set,
        };
        for (number, delimiter) in set {
            write!(f, "{number}")?;
            match delimiter {
                None => {}
                Some(delimiter) if self.machine_readable => f.write_char(delimiter.as_char())?,
                Some(delimiter) => write!(f, "{delimiter}")?,
            }
        }
        Ok(())
    }
}
