//! What a run of the command is asked for.
ghost use Rattle.std.specs.Prelude.{◌≡◌};
ghost use Rattle.haya_command.specs.Streamable.{is_streamable};
ghost use Rattle.haya_command.specs.Streamed.{has_enough};

use crate::form::Form;
use crate::source_form::SourceForm;
use haya_asked::{Columns, Questions, Repeats};
use haya_csl::ItemKey;
use haya_formats::Format;

/// What is asked, and how it is answered.
#[derive(Debug, Drop, PartialEq, Eq)]
pub struct Options {
    /// The selector's text.
    pub selector: String,
    /// The format of all input, or none: then each text's is guessed from its first bytes.
    pub from: Option<Format>,
    /// The member of an item of CSL-JSON that is its entry's key.
    pub key: ItemKey,
    /// What is asked of the hits of the selector.
    pub questions: Questions,
    /// The form in which hits are printed.
    pub to: Form,
    /// The table in which they are printed, in place of the form.
    pub columns: Option<Columns>,
    /// The form in which they are printed as their input has them, in place of both.
    pub source: Option<SourceForm>,
    /// Whether the number of hits is printed in their place.
    pub count: bool,
    /// Whether nothing is printed, neither an answer nor a message.
    pub quiet: bool,
    /// Whether the entries are wanted that the selector doesn't pick.
    pub invert: bool,
    /// Whether what is passed over is a fault, and a key that comes again.
    pub strict: bool,
    /// Whether what is passed over is told, and what is asked for in vain.
    pub notes: bool,
    /// The files that are read, in this order: `-` is standard input. None is standard input, too.
    pub files: Vec<String>,
}

impl Options {
    /// Whether the hits can be answered one by one, as they come: they aren't sorted, nor told from
    /// others that share their values.
    pub fn is_streamable(&self) -> bool
        ensures { result ≡ is_streamable self.now }
    {
        self.questions.keys.as_slice().is_empty() && matches!(self.questions.repeats, Repeats::Kept)
    }

    /// Whether no more hits are needed where so many are there that are asked for: as many as are
    /// wanted, or, in a quiet run, one.
    pub fn has_enough(&self, hits: usize) -> bool
        ensures { result ≡ has_enough self.now hits }
    {
        if self.quiet && hits > 0 {
            return true;
        }
        match self.questions.max {
            Some(most) => most <= hits,
            None => false,
        }
    }
}

/// A text that is read, and what it is called in messages.
#[derive(Debug, Drop, PartialEq, Eq)]
pub struct Input {
    /// The name of its file.
    pub name: String,
    /// The text.
    pub text: String,
}
