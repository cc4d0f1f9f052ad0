//! What is asked of each entry.
ghost use Rattle.std.specs.Prelude.{◌≡◌, ◌<◌, ◌+◌, ◌↔◌, ◌∷◌, ◌++◌, [], ℕ, List, IfErr, IfOk};
ghost use Rattle.std.specs.Prelude.{IsFalse, IsTrue, None, OnErr, OnOk, Some, length, map};
ghost use Rattle.std.specs.Prelude.{string_bytes};
ghost use Rattle.std.specs.Str.{chars};
ghost use Rattle.std.specs.Io.KnownBytes.{Appends};
ghost use Rattle.hayagriva.specs.Query.{hit_entry};
ghost use Rattle.hayagriva.specs.Reading.{TextReads};
ghost use Rattle.hayagriva.specs.Syntax.{Syntax};
ghost use Rattle.haya_command.specs.Form.{is_library};
ghost use Rattle.haya_command.specs.Picks.{wanted};
ghost use Rattle.haya_command.specs.Printed.{IsLinesFault};
ghost use Rattle.haya_command.specs.Streamable.{is_streamable};
ghost use Rattle.haya_command.specs.Streamed.{IsAskerFault, IsTold, end_text, header_text};
ghost use Rattle.haya_command.specs.Streamed.{passing, start_text};
ghost use Rattle.haya_questions.specs.Columns.{hit_row};
ghost use Rattle.haya_questions.specs.Place.{place_view};

use crate::error::CommandError;
use crate::left::LeftNotes;
use crate::options::Options;
use crate::picking::negated;
use crate::printing::hits_text;
use haya_asked::{Columns, passes};
use haya_entry_stream::EntryAnswerer;
use haya_line_stream::write_text;
use haya_printing::LinesError;
use haya_questions::{push_columns, push_header};
use haya_text::OutOfMemory;
use hayagriva::{CompiledSelector, Entry, HashKeys, Hit, Selector, Steps};
use std::alloc::Global;
use std::io::Write;

/// What is asked of each entry: a selector, and how its hits are printed.
#[derive(Drop)]
pub struct Asker<'o> {
    pub(crate) alloc: Global,
    pub(crate) keys: HashKeys,
    /// What is asked for.
    pub options: &'o Options,
    /// The selector that picks an entry, or, inverted, its opposite.
    pub selector: CompiledSelector,
    /// How many hits there were that are asked for.
    pub hits: usize,
    /// What lines leave out of the hits that are printed.
    pub left: LeftNotes,
    ghost streams: { IsFalse (is_library options.now.to) },
}

impl<'o> Asker<'o> {
    /// What is asked under these options. A map of what is passed over hashes with the keys.
    /// `Selector`: the selector's text is none. `StreamsNoSource`: hits are to be printed as their
    /// input has them. `CannotStream`: they are to be printed in a form that is none of each alone.
    /// `StreamAsks`: they are to be sorted, or told from others that share their values.
    pub fn new(
        alloc: Global,
        keys: HashKeys,
        options: &'o Options,
    ) -> Result<Asker<'o>, CommandError>
        ensures selector { IfOk result (λ asker. (s : Syntax)
            × TextReads (chars (string_bytes options.now.selector)) s
            × (asker.selector ≡ wanted options.now.invert s)) }
        ensures options { IfOk result (λ asker. asker.options.now ≡ options.now) }
        ensures streamable { OnOk result (IsTrue (is_streamable options.now)) }
        ensures form { OnOk result (options.now.source ≡ None) }
        ensures none { IfOk result (λ asker. asker.hits ≡ 0) }
        ensures error { IfErr result (IsAskerFault options.now) }
    {
        if options.source.is_some() {
            return Err(CommandError::StreamsNoSource);
        }
        if options.to.is_library() {
            return Err(CommandError::CannotStream);
        }
        if !options.is_streamable() {
            return Err(CommandError::StreamAsks);
        }
        let read = match Selector::parse(alloc, options.selector.as_str()) {
            Ok(read) => read,
            Err(error) => return Err(CommandError::Selector(error)),
        };
        let selector = if options.invert {
            negated(alloc, read)?
        } else {
            read
        };
        Ok(Asker {
            alloc,
            keys,
            options,
            selector: CompiledSelector::new(alloc, &selector)?,
            hits: 0,
            left: LeftNotes::new(alloc),
        })
    }
}

impl<'o> EntryAnswerer for Asker<'o> {
    ghost use Rattle.std.specs.Prelude.{◌≡◌, ◌∷◌, []};
    ghost use Rattle.haya_command.specs.Printed.{IsLinesFault};
    ghost use Rattle.haya_command.specs.Streamed.{AsksEntry, has_enough};

    type Refusal = LinesError;

    ghost answers = { λ s entry printed t.
        AsksEntry s.options.now s.selector s.hits entry printed t.options.now t.selector t.hits };

    ghost refuses = { λ s entry e.
        IsLinesFault s.options.now.strict s.options.now.to (entry ∷ []) e };

    ghost is_done = { λ s. has_enough s.options.now s.hits };

    fn answer(&mut self, entry: &Entry, printed: &mut String) -> Result<(), LinesError> {
        match self.selector.apply(entry, &mut Steps::new()) {
            Ok(Some(bindings)) => self.take(Hit { entry, bindings }, printed),
            Ok(None) => Ok(()),
            Err(error) => Err(LinesError::from(error)),
        }
    }

    fn is_done(&self) -> bool {
        self.options.has_enough(self.hits)
    }
}

impl<'o> Asker<'o> {
    // Counts and tells a hit that passes all tests.
    fn take(&mut self, hit: Hit, printed: &mut String) -> Result<(), LinesError>
        ensures count { OnOk result (self.new.hits
            ≡ self.old.hits + length (passing self.old.options.now (hit.entry ∷ []))) }
        ensures told { OnOk result ((more : List ℕ)
            × IsTold self.old.options.now (passing self.old.options.now (hit.entry ∷ [])) more
            × (string_bytes printed.new ≡ string_bytes printed.old ++ more)) }
        ensures options { self.new.options ≡ self.old.options }
        ensures selector { self.new.selector ≡ self.old.selector }
        ensures fault { IfErr result (IsLinesFault self.old.options.now.strict
            self.old.options.now.to (hit_entry hit.entry ∷ [])) }
    {
        if passes(self.alloc, &hit, self.options.questions.tests.as_slice())? {
            self.tell(hit, printed)
        } else {
            drop(hit);
            Ok(())
        }
    }

    // Counts a hit, and puts what is printed of it behind `printed`.
    fn tell(&mut self, hit: Hit, printed: &mut String) -> Result<(), LinesError>
        ensures hit { OnOk result (self.new.hits ≡ self.old.hits + 1) }
        ensures told { OnOk result ((more : List ℕ)
            × IsTold self.old.options.now (hit.entry ∷ []) more
            × (string_bytes printed.new ≡ string_bytes printed.old ++ more)) }
        ensures options { self.new.options ≡ self.old.options }
        ensures selector { self.new.selector ≡ self.old.selector }
        ensures fault { IfErr result (IsLinesFault self.old.options.now.strict
            self.old.options.now.to (hit_entry hit.entry ∷ [])) }
    {
        let Some(hits) = self.hits.checked_add(1) else {
            return Err(LinesError::OutOfMemory);
        };
        let text = told(self.alloc, self.options, hit, &mut self.left)?;
        printed.push_str(text.as_str())?;
        self.hits = hits;
        Ok(())
    }
}

// What is printed of a hit as it comes.
fn told(
    alloc: Global,
    options: &Options,
    hit: Hit,
    left: &mut LeftNotes,
) -> Result<String, LinesError>
    ensures told { IfOk result (λ text. IsTold options.now (hit.entry ∷ []) (string_bytes text)) }
    ensures fault { IfErr result
        (IsLinesFault options.now.strict options.now.to (hit_entry hit.entry ∷ [])) }
{
    if options.quiet {
        drop(hit);
        return Ok(String::new(alloc));
    }
    if options.count {
        drop(hit);
        return Ok(String::new(alloc));
    }
    if let Some(columns) = &options.columns {
        return Ok(row(alloc, columns, &hit)?);
    }
    hits_text(alloc, &[hit], options.to, options.strict, left)
}

// The row of a hit.
fn row(alloc: Global, columns: &Columns, hit: &Hit) -> Result<String, OutOfMemory>
    ensures { IfOk result (λ text. string_bytes text
        ≡ hit_row columns.now.table (map place_view columns.now.places.items) hit.now) }
{
    let mut text = String::new(alloc);
    push_columns(
        alloc,
        &mut text,
        hit,
        columns.places.as_slice(),
        columns.table,
    )?;
    Ok(text)
}

/// Prints the row of names of a table, where it is asked for. Where a write fails, a first part is
/// printed.
pub fn begin_asking<W: Write>(asker: &Asker<'_>, out: &mut W) -> Result<(), CommandError>
    ensures printed { OnOk result (Appends (W.contents out.old) (W.contents out.new)
        (start_text asker.now.options.now)) }
    ensures begun { OnErr result ((first : List ℕ) × (rest : List ℕ)
        × (start_text asker.now.options.now ≡ first ++ rest)
        × Appends (W.contents out.old) (W.contents out.new) first) }
{
    let text = start(asker.alloc, asker.options)?;
    write_text(out, text.as_str())?;
    Ok(())
}

/// What is printed before any hit has come.
pub(crate) fn start(alloc: Global, options: &Options) -> Result<String, OutOfMemory>
    ensures { IfOk result (λ text. string_bytes text ≡ start_text options.now) }
{
    if options.quiet {
        return Ok(String::new(alloc));
    }
    if options.count {
        return Ok(String::new(alloc));
    }
    match &options.columns {
        Some(columns) => names(alloc, columns),
        None => Ok(String::new(alloc)),
    }
}

// The row of names of a table, where it is wanted.
fn names(alloc: Global, columns: &Columns) -> Result<String, OutOfMemory>
    ensures { IfOk result (λ text. string_bytes text ≡ header_text (Some columns.now)) }
{
    let mut text = String::new(alloc);
    if columns.has_header {
        push_header(alloc, &mut text, columns.places.as_slice(), columns.table)?;
    }
    Ok(text)
}

/// Prints the number of hits, where it is asked for. The answer is whether there is one. Where a
/// write fails, a first part is printed.
pub fn end_asking<W: Write>(asker: Asker<'_>, out: &mut W) -> Result<bool, CommandError>
    ensures found { IfOk result (λ found. IsTrue found ↔ (0 < asker.entry.hits)) }
    ensures printed { OnOk result (Appends (W.contents out.old) (W.contents out.new)
        (end_text asker.entry.options.now asker.entry.hits)) }
    ensures begun { OnErr result ((first : List ℕ) × (rest : List ℕ)
        × (end_text asker.entry.options.now asker.entry.hits ≡ first ++ rest)
        × Appends (W.contents out.old) (W.contents out.new) first) }
{
    if asker.options.count && !asker.options.quiet {
        let hits = asker.hits;
        let line = format!(in asker.alloc; "{hits}\n")?;
        write_text(out, line.as_str())?;
    }
    Ok(asker.hits > 0)
}
