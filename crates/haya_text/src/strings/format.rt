//! Texts with a long form and perhaps a short one.
ghost use Rattle.std.specs.Prelude.{◌≡◌, [], ◌∷◌, None, Some, string_bytes, IfOk};
ghost use Rattle.std.specs.Fmt.{DisplaysOnOk};
ghost use Rattle.haya_text.specs.Chunks.{chunk_view, chunks};
ghost use Rattle.haya_text.specs.Printing.{text_display};
ghost use Rattle.haya_text.specs.Texts.{TextView, text_view, plain_view, select, short_display};
ghost use Rattle.haya_text.specs.Texts.{with_short, without_short};

use crate::{ChunkedReadError, ChunkedString, OutOfMemory, ReadText, StringChunk, TryClone};
use std::alloc::Global;
use std::fmt;

/// Which form of a text is wanted.
#[derive(Clone, Copy, Debug, PartialEq, Eq, Hash)]
pub enum LongShortForm {
    /// The form without cuts.
    Long,
    /// The short form, or the long one where there is none.
    Short,
}

/// A text in its long form, and perhaps a short one.
#[derive(Debug, Drop, PartialEq, Eq, Hash)]
pub struct FormatString {
    /// The long form.
    pub value: ChunkedString,
    /// The short form, if there is one.
    pub short: Option<Box<ChunkedString>>,
}

impl FormatString {
    /// The text without chunks and without a short form.
    pub fn new(alloc: Global) -> FormatString
        ensures { text_view result ≡ without_short [] }
    {
        FormatString {
            value: ChunkedString::new(alloc),
            short: None,
        }
    }

    /// One chunk of plain text, without a short form. Nothing in it is read as a sign.
    pub fn with_value(alloc: Global, value: String) -> Result<FormatString, OutOfMemory>
        ensures { IfOk result (λ text. text_view text ≡ plain_view (string_bytes value)) }
    {
        Ok(FormatString {
            value: ChunkedString::from_string(alloc, value)?,
            short: None,
        })
    }

    /// One chunk of plain text in either form. Nothing in them is read as a sign.
    pub fn with_short(
        alloc: Global,
        value: String,
        short: String,
    ) -> Result<FormatString, OutOfMemory>
        ensures { IfOk result
            (λ text. text_view text ≡ with_short (string_bytes value) (string_bytes short)) }
    {
        let value = ChunkedString::from_string(alloc, value)?;
        let short = ChunkedString::from_string(alloc, short)?;
        Ok(FormatString {
            value,
            short: Some(Box::new(alloc, short)?),
        })
    }

    /// The same as `with_value`.
    pub fn from_string(alloc: Global, value: String) -> Result<FormatString, OutOfMemory>
        ensures { IfOk result (λ text. text_view text ≡ plain_view (string_bytes value)) }
    {
        FormatString::with_value(alloc, value)
    }

    /// This one chunk, without a short form.
    pub fn from_chunk(alloc: Global, chunk: StringChunk) -> Result<FormatString, OutOfMemory>
        ensures { IfOk result (λ text. text_view text ≡ without_short (chunk_view chunk ∷ [])) }
    {
        Ok(FormatString {
            value: ChunkedString::from_chunk(alloc, chunk)?,
            short: None,
        })
    }

    /// The form that is wanted. The long one takes the place of a missing short one.
    pub fn select(&self, form: LongShortForm) -> &ChunkedString
        ensures { chunks result.now ≡ select form (text_view self.now) }
    {
        match (form, &self.short) {
            (LongShortForm::Short, Some(short)) => short,
            _ => &self.value,
        }
    }

    /// Writes the short form as Display writes the long one. The long one takes the place of a
    /// missing short one, and the writer's fault ends the call.
    pub fn fmt_short<W: fmt::Write>(&self, f: &mut fmt::Formatter<W>) -> fmt::Result
        ensures { DisplaysOnOk W.write_str_gives
            f.old result (Some (short_display (text_view self.now))) f.new }
    {
        write!(f, "{}", self.select(LongShortForm::Short))
    }

    /// A copy, equal to this text.
    pub fn try_clone(&self, alloc: Global) -> Result<FormatString, OutOfMemory>
        ensures { IfOk result (λ copy. text_view copy ≡ text_view self.now) }
    {
        Ok(FormatString {
            value: self.value.try_clone(alloc)?,
            short: self.short.try_clone(alloc)?,
        })
    }
}

impl fmt::Display for FormatString {
    ghost output = { λ text. Some (text_display (chunks text.value)) };

    /// The long form.
    fn fmt<W: fmt::Write>(&self, f: &mut fmt::Formatter<W>) -> fmt::Result {
        write!(f, "{}", self.value)
    }
}

impl ReadText for FormatString {
    type Fault = ChunkedReadError;

    ghost use Rattle.std.specs.Prelude.{◌≡◌, false, Some, None, IfOk, IfErr};
    ghost use Rattle.haya_text.specs.Grammar.{ReadsAs};
    ghost use Rattle.haya_text.specs.Reading.{is_out_of_memory, IsRefusal};
    ghost use Rattle.haya_text.specs.Texts.{TextView, text_read, text_view};

    ghost Value = { TextView };

    ghost value = { text_view };

    ghost reads = { text_read };

    /// The long form, read as `ChunkedString` reads it, without a short one.
    fn from_str(alloc: Global, text: &str) -> Result<FormatString, ChunkedReadError>
        ensures ok { IfOk result (λ v. text_read text.now ≡ Some (text_view v)) }
        ensures fault { IfErr result (λ e. is_out_of_memory e ≡ false → text_read text.now ≡ None) }
        ensures grammar { IfOk result (λ v. ReadsAs text.now (chunks v.value)) }
        ensures refused { IfErr result (IsRefusal text.now) }
    {
        Ok(FormatString {
            value: ChunkedString::from_str(alloc, text)?,
            short: None,
        })
    }
}

impl TryClone for FormatString {
    ghost View = { TextView };

    ghost view = { text_view };

    fn try_clone(&self, alloc: Global) -> Result<FormatString, OutOfMemory> {
        self.try_clone(alloc)
    }
}
