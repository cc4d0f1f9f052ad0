//! What is asked of each element.
ghost use Rattle.std.specs.Prelude.{◌≡◌, ◌⊎◌, ◌+◌, ◌++◌, ◌∷◌, [], ℕ, List, IfErr, OnOk};
ghost use Rattle.std.specs.Prelude.{string_bytes};
ghost use Rattle.hayagriva.specs.Tree.{view};
ghost use Rattle.haya_json.specs.Notes.{none_kept, notes_view};
ghost use Rattle.haya_source_stream.specs.Asked.{TellsElements, TellsHit};
ghost use Rattle.haya_source_stream.specs.Printed.{told_text};

use crate::asking::{Asking, Shown};
use crate::error::PartError;
use crate::printing::push_part;
use crate::reading::{count_of, read_part};
use haya_asked::passes;
use haya_json::Notes;
use haya_line_stream::Answerer;
use hayagriva::{Entry, HashKeys, Hit, Steps};
use json::Scratch;
use std::alloc::Global;
use std::mem;

/// What is asked of each element; the elements of its hits are printed as they are.
#[derive(Drop)]
pub struct SourceAsker<'q> {
    pub(crate) alloc: Global,
    keys: HashKeys,
    /// What is asked.
    pub asking: Asking<'q>,
    /// How many hits there were that are asked for.
    pub hits: usize,
    /// How many parts of the input were taken, elements and lines that are empty; of entries in
    /// lines how many lines.
    pub number: usize,
    // What an element is read in.
    scratch: Scratch,
    /// What is told of the elements of the input.
    pub notes: Notes,
}

impl<'q> SourceAsker<'q> {
    /// In front of all inputs. A map of what is told hashes with the keys.
    pub fn new(alloc: Global, keys: HashKeys, asking: Asking<'q>) -> SourceAsker<'q>
        ensures asking { result.asking ≡ asking.entry }
        ensures none { result.hits ≡ 0 }
        ensures notes { notes_view result.notes ≡ none_kept }
    {
        SourceAsker {
            alloc,
            keys,
            asking,
            hits: 0,
            number: 0,
            scratch: Scratch::new(alloc),
            notes: Notes::with_hash_keys(alloc, keys),
        }
    }

    /// What is told of the elements of the input; of them nothing is told any more.
    pub fn take_notes(&mut self) -> Notes
        ensures notes { notes_view result ≡ notes_view self.old.notes }
        ensures none { notes_view self.new.notes ≡ none_kept }
        ensures hits { self.new.hits ≡ self.old.hits }
        ensures asking { self.new.asking ≡ self.old.asking }
    {
        mem::replace(
            &mut self.notes,
            Notes::with_hash_keys(self.alloc, self.keys),
        )
    }

    // In front of the elements of an input.
    pub(crate) fn begin(&mut self)
        ensures number { self.new.number ≡ 0 }
        ensures notes { notes_view self.new.notes ≡ none_kept }
        ensures hits { self.new.hits ≡ self.old.hits }
        ensures asking { self.new.asking ≡ self.old.asking }
    {
        drop(self.take_notes());
        self.number = 0;
    }

    // Asks the entry that an element says.
    fn ask(&mut self, entry: &Entry, part: &str, printed: &mut String) -> Result<(), PartError>
        ensures tells { OnOk result ((more : List ℕ)
            × TellsElements self.old.asking self.old.hits self.new.hits
            ((part.now, view entry.now) ∷ []) more
            × (string_bytes printed.new ≡ string_bytes printed.old ++ more)) }
        ensures error { IfErr result (λ e. e ≡ PartError.OutOfMemory) }
        ensures asking { self.new.asking ≡ self.old.asking }
        ensures number { self.new.number ≡ self.old.number }
        ensures notes { self.new.notes ≡ self.old.notes }
    {
        match self.asking.selector.apply(entry, &mut Steps::new()) {
            Ok(Some(bindings)) => self.take(Hit { entry, bindings }, part, printed),
            Ok(None) => Ok(()),
            Err(error) => Err(PartError::from(error)),
        }
    }

    // Counts a hit that passes all tests, and prints its element.
    fn take(&mut self, hit: Hit, part: &str, printed: &mut String) -> Result<(), PartError>
        ensures tells { OnOk result (TellsHit self.old.asking self.old.hits self.new.hits part.now
            hit.entry (string_bytes printed.old) (string_bytes printed.new)) }
        ensures error { IfErr result (λ e. e ≡ PartError.OutOfMemory) }
        ensures asking { self.new.asking ≡ self.old.asking }
        ensures number { self.new.number ≡ self.old.number }
        ensures notes { self.new.notes ≡ self.old.notes }
    {
        let is_asked = passes(self.alloc, &hit, self.asking.questions.tests.as_slice())?;
        drop(hit);
        if is_asked {
            self.tell(part, printed)
        } else {
            Ok(())
        }
    }

    // Counts a hit, and prints its element.
    fn tell(&mut self, part: &str, printed: &mut String) -> Result<(), PartError>
        ensures hits { OnOk result (self.new.hits ≡ self.old.hits + 1) }
        ensures printed { OnOk result (string_bytes printed.new ≡ string_bytes printed.old
            ++ told_text self.old.asking.shown self.old.asking.kind self.old.hits (part.now ∷ [])) }
        ensures error { IfErr result (λ e. e ≡ PartError.OutOfMemory) }
        ensures asking { self.new.asking ≡ self.old.asking }
        ensures number { self.new.number ≡ self.old.number }
        ensures notes { self.new.notes ≡ self.old.notes }
    {
        let Some(hits) = self.hits.checked_add(1) else {
            return Err(PartError::OutOfMemory);
        };
        if matches!(self.asking.shown, Shown::Elements) {
            push_part(printed, self.asking.kind, self.hits == 0, part)?;
        }
        self.hits = hits;
        Ok(())
    }
}

impl<'q> Answerer for SourceAsker<'q> {
    ghost use Rattle.haya_source_stream.specs.Asked.{AnswersTurn, RefusesTurn};
    ghost use Rattle.haya_source_stream.specs.Enough.{has_enough};

    type Refusal = PartError;

    ghost answers = { AnswersTurn };

    ghost refuses = { RefusesTurn };

    ghost is_done = { λ s. has_enough s.asking s.hits };

    fn answer(&mut self, part: &str, printed: &mut String) -> Result<(), PartError> {
        let place = self.number;
        let Some(number) = place.checked_add(count_of(self.asking.kind, part)) else {
            return Err(PartError::OutOfMemory);
        };
        self.number = number;
        if part.is_empty() {
            return Ok(());
        }
        let (scratch, notes) = (&mut self.scratch, &mut self.notes);
        let entry = read_part(self.alloc, self.asking.kind, place, part, scratch, notes)?;
        self.ask(&entry, part, printed)
    }

    fn end(&mut self, _printed: &mut String) -> Result<(), PartError> {
        Ok(())
    }

    fn is_done(&self) -> bool {
        self.asking.has_enough(self.hits)
    }
}
