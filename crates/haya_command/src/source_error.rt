//! Why the entries of a text aren't printed as it has them.
use haya_formats::Format;
use std::fmt;

/// Why the entries of a text aren't printed as it has them.
#[derive(Clone, Copy, Debug, Drop, PartialEq, Eq)]
pub enum SourceError {
    /// The entries of texts in this format aren't printed as they come, since a later one may say more
    /// of them.
    NoSource(Format),
    /// The text is in this format, and items of CSL-JSON are asked for.
    NoItems(Format),
    /// The text is in the first of these formats, and the first text in the second.
    OtherFormat(Format, Format),
    /// The text's elements aren't those that its entries were read from.
    NoElements,
}

impl fmt::Display for SourceError {
    /// What is wrong, and the forms that are there.
    fn fmt<W: fmt::Write>(&self, f: &mut fmt::Formatter<W>) -> fmt::Result {
        match self {
            SourceError::NoSource(format) => {
                let name = format.name();
                write!(f, "--stream prints no {name} as it is: leave it out")
            }
            SourceError::NoItems(format) => {
                let name = format.name();
                write!(
                    f,
                    "this is {name}, and --to csl-json prints items of CSL-JSON as they are: \
                    --to source, or {}",
                    MADE
                )
            }
            SourceError::OtherFormat(format, first) => {
                let (name, first) = (format.name(), first.name());
                write!(
                    f,
                    "this is {name}, and the first input {first}: \
                    --to source prints inputs of one format"
                )
            }
            SourceError::NoElements => write!(f, "its entries cannot be told apart: {}", MADE),
        }
    }
}

// The forms that are made of any input.
const MADE: &str = "keys, lines, hayagriva, yaml or json-lines";
