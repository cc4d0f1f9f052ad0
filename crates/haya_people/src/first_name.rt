//! The given name with a delimiter behind each letter that stands alone.
ghost use Rattle.std.specs.Prelude.{◌≡◌, [], Some, OnOk, option_map, string_bytes, unwrap_or};
ghost use Rattle.std.specs.Fmt.{WritesText};
ghost use Rattle.haya_people.specs.FirstName.{delimiter_behind, first_name_with_delimiter};

use crate::Person;
use std::fmt;
use std::fmt::Write;
use unicode_segmentation::UnicodeSegmentation;

impl Person {
    /// Writes the given name with the delimiter behind each item that is one extended grapheme, as
    /// `James T.`. The items are what stands between blanks. Without a given name nothing is
    /// written. The writer's fault ends the call.
    pub fn first_name_with_delimiter<W: fmt::Write>(
        &self,
        buf: &mut W,
        delimiter: Option<&str>,
    ) -> fmt::Result
        ensures { OnOk result (WritesText W.write_str_gives buf.old (Some (first_name_with_delimiter
            (unwrap_or (option_map (λ d. d.now) delimiter.entry) [])
            (option_map string_bytes self.now.given_name))) buf.new) }
    {
        match &self.given_name {
            Some(given_name) => buf.write(Delimited {
                given_name: given_name.as_str(),
                delimiter: delimiter.unwrap_or(""),
            }),
            None => Ok(()),
        }
    }
}

// A given name that is written with delimiters.
#[derive(Clone, Copy)]
struct Delimited<'a> {
    given_name: &'a str,
    delimiter: &'a str,
}

impl fmt::Display for Delimited<'_> {
    ghost use Rattle.std.specs.Prelude.{Some};
    ghost use Rattle.haya_people.specs.FirstName.{delimited};

    ghost output = { λ s. Some (delimited s.delimiter.now s.given_name.now) };

    fn fmt<W: fmt::Write>(&self, f: &mut fmt::Formatter<W>) -> fmt::Result {
        let mut separator = "";
        for item in self.given_name.split(' ') {
            write!(f, "{separator}{item}{}", self.delimiter_behind(item))?;
            separator = " ";
        }
        Ok(())
    }
}

impl<'a> Delimited<'a> {
    // The delimiter, if the item is one grapheme.
    fn delimiter_behind(&self, item: &str) -> &'a str
        ensures { result.now ≡ delimiter_behind self.now.delimiter.now item.now }
    {
        if item.graphemes(true).count() == 1 {
            self.delimiter
        } else {
            ""
        }
    }
}
