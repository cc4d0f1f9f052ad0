//! Why a run of the command ends with status 2.
ghost use Rattle.std.specs.Prelude.{◌≡◌, ◌≢◌, ◌⊎◌};
ghost use Rattle.std.specs.IoError.{error_kind};
ghost use Rattle.std.specs.declared.io.ErrorKind.TheVariants as kind;

use crate::source_error::SourceError;
use haya_bibtex::BibtexReadError;
use haya_entry_stream::EntryError;
use haya_formats::ForeignInput;
use haya_json::{ElementError, JsonLineError, Note, ReadError};
use haya_line_library::InputError;
use haya_line_stream::WriteError;
use haya_printing::LinesError;
use haya_questions::{PlaceError, TestError};
use haya_text::OutOfMemory;
use haya_yaml_library::YamlReadError;
use hayagriva::SelectorError;
use std::alloc::{AllocError, AllocFailed};
use std::io;
use thiserror::Error;

/// Why a text is no library in its format.
#[derive(Debug, Drop, Error)]
pub enum LibraryError {
    /// Of a text in one of the formats that are JSON.
    #[error("{0}")]
    Json(ReadError),
    /// Of a text in YAML.
    #[error("{0}")]
    Yaml(YamlReadError),
    /// Of a text in BibTeX.
    #[error("{0}")]
    Bibtex(BibtexReadError),
    /// Of a text in lines of JSON.
    #[error("{0}")]
    JsonLines(JsonLineError),
    /// Of an item or a member of a text in JSON, which are asked one after another.
    #[error("{0}")]
    Element(ElementError),
    /// Of a text in lines.
    #[error("{0}")]
    Lines(InputError),
}

impl From<InputError> for LibraryError {
    ghost use Rattle.haya_command.specs.declared.error.LibraryError.TheVariants.{Lines};

    ghost from_gives = { λ fault e. e ≡ Lines fault };

    fn from(fault: InputError) -> LibraryError {
        LibraryError::Lines(fault)
    }
}

// More lines than can be counted are told as out of memory.
impl From<EntryError<ReadError>> for LibraryError {
    ghost use Rattle.haya_command.specs.AskedLines.{IsJsonLineErrorFor};

    ghost from_gives = { IsJsonLineErrorFor };

    fn from(fault: EntryError<ReadError>) -> LibraryError {
        LibraryError::JsonLines(match fault {
            EntryError::Line(line, error) => JsonLineError { line, error },
            EntryError::TooMany => JsonLineError {
                line: usize::MAX,
                error: ReadError::OutOfMemory,
            },
        })
    }
}

// The same of an element, which has a number of its own.
impl From<EntryError<ElementError>> for LibraryError {
    ghost use Rattle.haya_command.specs.AskedLines.{IsElementErrorFor};

    ghost from_gives = { IsElementErrorFor };

    fn from(fault: EntryError<ElementError>) -> LibraryError {
        LibraryError::Element(match fault {
            EntryError::Line(_, error) => error,
            EntryError::TooMany => ElementError {
                number: usize::MAX,
                error: ReadError::OutOfMemory,
            },
        })
    }
}

/// Why a run answers nothing, or not all of it.
#[derive(Debug, Drop, Error)]
pub enum CommandError {
    /// The text that is called so is no library.
    #[error("{0}: {1}")]
    Input(String, LibraryError),
    /// Of the text that is called so this is told, the first of all.
    #[error("{0}: {1}")]
    PassedOver(String, Note),
    /// A key of the text that is called so comes again, which an earlier text has.
    #[error("{0}: `{1}` comes again")]
    Again(String, String),
    /// The input that is called so can't be read to its end.
    #[error("{0}: {1}")]
    CannotRead(String, io::Error),
    /// The input is no text in UTF-8, or looks like a text in none of the formats.
    #[error("{0}")]
    Foreign(ForeignInput),
    /// A line of the input that is called so isn't UTF-8.
    #[error("{0}: a line is not UTF-8 (Latin-1? convert it: iconv -f LATIN1 -t UTF-8)")]
    NotText(String),
    /// The input that is called so isn't UTF-8: the first byte that isn't has this number, from 1
    /// on.
    #[error("{0}: byte {1} is not UTF-8 (Latin-1? convert it: iconv -f LATIN1 -t UTF-8)")]
    NotUtf8(String, usize),
    /// The text that is called so is in this format, which isn't asked entry by entry.
    #[error("{0}: --stream reads no {1}: leave it out")]
    NotStreamed(String, &'static str),
    /// Hits are to be printed as a library, of which nothing can be said before the last is there.
    #[error("--stream prints no library: --to keys, lines or json-lines")]
    CannotStream,
    /// Entries are to be printed as their input has them, of which nothing is kept in a stream.
    #[error("--stream prints no entry as the input has it: --to keys, lines or json-lines")]
    StreamsNoSource,
    /// The entries of the text that is called so aren't printed as it has them.
    #[error("{0}: {1}")]
    Source(String, SourceError),
    /// There is no element for an entry: no input is refused so.
    #[error("an entry has no element")]
    NoPart,
    /// The elements of the hits, one behind the other, say something else than each alone.
    #[error("these entries aren't indented alike: --to keys, lines, hayagriva, yaml or json-lines")]
    NotTogether,
    /// The entries of the hits, put together, say something else than in their `.bib` texts.
    #[error("these entries say something else together, as their strings or parents differ: \
        --to keys, lines, hayagriva, yaml or json-lines")]
    OtherTogether,
    /// Hits are to be sorted, or told from others that share their values, which can't be said of one
    /// before the last is there.
    #[error("--stream takes no --sort, --unique or --duplicates, which wait for the last entry")]
    StreamAsks,
    /// The text of a test is none.
    #[error("{1}")]
    Test(String, TestError),
    /// A text isn't a list of places, or of keys of a sort.
    #[error("{1}")]
    Places(String, PlaceError),
    /// The selector binds nothing to the name of a place of this text.
    #[error("the selector binds no `{1}`")]
    Unbound(String, String),
    /// Columns are asked for, and a form that is no table.
    #[error("--columns is of csv and tsv: leave --to out, or give one of these")]
    NoTable,
    /// A text is no number.
    #[error("`{0}` is no number")]
    NotANumber(String),
    /// The selector's text is none.
    #[error("{0}")]
    Selector(SelectorError),
    /// Behind the selector, at this byte, is something that isn't white space.
    #[error("expected the end, \"|\", \"&\", \">\" or \"[\"")]
    SelectorEnd(usize),
    /// An entry can't be printed in lines.
    #[error("{0}")]
    NotPrintable(LinesError),
    /// Nobody reads what is printed.
    #[error("nobody reads what is printed")]
    Closed,
    /// The answer can't be printed.
    #[error("cannot write")]
    CannotWrite,
    /// An allocation failed that isn't told by an error above.
    #[error("out of memory")]
    OutOfMemory,
}

impl CommandError {
    /// Why an input that is called so can't be read to its end: a read failed with this error. Memory
    /// that is out is nothing of the input.
    pub fn of_read(name: String, error: io::Error) -> CommandError
        ensures { ((error_kind error ≡ kind.OutOfMemory) × (result ≡ CommandError.OutOfMemory))
            ⊎ ((error_kind error ≢ kind.OutOfMemory)
            × (result ≡ CommandError.CannotRead name error)) }
    {
        match error.kind() {
            io::ErrorKind::OutOfMemory => CommandError::OutOfMemory,
            _ => CommandError::CannotRead(name, error),
        }
    }
}

impl From<WriteError> for CommandError {
    ghost use Rattle.haya_line_stream.specs.declared.error.WriteError.TheVariants as write;
    ghost use Rattle.haya_command.specs.declared.error.CommandError.TheVariants.{CannotWrite, Closed};

    ghost from_gives = { λ s e. (s ≡ write.Closed → e ≡ Closed)
        × (s ≡ write.CannotWrite → e ≡ CannotWrite) };

    fn from(fault: WriteError) -> CommandError {
        match fault {
            WriteError::Closed => CommandError::Closed,
            WriteError::CannotWrite => CommandError::CannotWrite,
        }
    }
}

impl From<OutOfMemory> for CommandError {
    ghost use Rattle.haya_command.specs.declared.error.CommandError.TheVariants.{OutOfMemory};

    ghost from_gives = { λ _ e. e ≡ OutOfMemory };

    fn from(_error: OutOfMemory) -> CommandError {
        CommandError::OutOfMemory
    }
}

impl From<AllocError> for CommandError {
    ghost use Rattle.haya_command.specs.declared.error.CommandError.TheVariants.{OutOfMemory};

    ghost from_gives = { λ _ e. e ≡ OutOfMemory };

    fn from(_error: AllocError) -> CommandError {
        CommandError::OutOfMemory
    }
}

impl<T: Drop> From<AllocFailed<T>> for CommandError {
    ghost use Rattle.haya_command.specs.declared.error.CommandError.TheVariants.{OutOfMemory};

    ghost from_gives = { λ _ e. e ≡ OutOfMemory };

    fn from(_error: AllocFailed<T>) -> CommandError {
        CommandError::OutOfMemory
    }
}
