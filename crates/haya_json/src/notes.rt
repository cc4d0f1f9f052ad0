//! What is told of an input: what is lost of its entries, and keys that come again.
ghost use Rattle.std.specs.Prelude.{◌≡◌, ◌↔◌, [], None, Some, map, option_map, IfErr, IfOk};
ghost use Rattle.std.specs.Prelude.{IsTrue, OnOk, string_bytes};
ghost use Rattle.haya_json.specs.Ignored.{counts_of};
ghost use Rattle.haya_json.specs.Notes.{IsNone, all_kept, again, first_note, kept_after, line_kept};
ghost use Rattle.haya_json.specs.Notes.{lost_behind, lost_here, lost_of, lost_view, losts_view};
ghost use Rattle.haya_json.specs.Notes.{named, none_kept, note_of, note_view, notes_under};
ghost use Rattle.haya_json.specs.Notes.{notes_view, unread};
ghost use Rattle.haya_json.specs.Refusal.{refusal_at, step_view, to_item, to_member};

use crate::fault::{Step, Why};
use crate::ignored::Ignored;
use crate::shown::{shown, shown_at};
use haya_text::OutOfMemory;
use hayagriva::HashKeys;
use json::Value;
use std::alloc::Global;
use std::fmt;

/// How many notes are kept that are told one by one. The others are counted.
pub const LINES: usize = 10;

/// What is lost of a value.
#[derive(Debug, Drop)]
pub enum Loss {
    /// It has no place in an entry, or it loses a part. It is counted under this name.
    Named(String),
    /// It isn't read, for this reason. The text shows it as it is written, or how it begins.
    Unread(Why, String),
    /// The key of an entry comes again: the later entry takes the place of the earlier.
    Again,
}

/// What is lost at the end of these steps.
#[derive(Debug, Drop)]
pub struct Lost {
    /// The steps into the entry, or into a value of it.
    pub path: Vec<Step>,
    /// What is lost there.
    pub loss: Loss,
}

/// What is lost of the entry with this key.
#[derive(Debug, Drop)]
pub struct Note {
    /// The key.
    pub key: String,
    /// Where in the entry, and what.
    pub lost: Lost,
}

impl fmt::Display for Note {
    /// The entry's key, and what is lost of it, behind its place in the entry: `` `key` comes again ``,
    /// or `` `key`: number-of-pages: no number: "399, [1]" ``. What is lost of no entry has no key, and
    /// what is lost of the whole no place.
    fn fmt<W: fmt::Write>(&self, f: &mut fmt::Formatter<W>) -> fmt::Result {
        if matches!(&self.lost.loss, Loss::Again) {
            return write!(f, "`{}` comes again", self.key);
        }
        if !self.key.is_empty() {
            write!(f, "`{}`: ", self.key)?;
        }
        if !self.lost.path.is_empty() {
            write!(f, "{}: ", Place(&self.lost.path))?;
        }
        match &self.lost.loss {
            Loss::Named(name) => write!(f, "passed over: {name}"),
            Loss::Unread(why, value) if value.is_empty() => write!(f, "{why}"),
            Loss::Unread(why, value) => write!(f, "{why}: {value}"),
            Loss::Again => Ok(()),
        }
    }
}

// The steps into an entry, separated by slashes.
#[derive(Drop)]
struct Place<'a>(&'a Vec<Step>);

impl fmt::Display for Place<'_> {
    fn fmt<W: fmt::Write>(&self, f: &mut fmt::Formatter<W>) -> fmt::Result {
        for (at, step) in self.0.iter().enumerate() {
            if at > 0 {
                f.write_str("/")?;
            }
            match step {
                Step::Name(name) => f.write_str(name.as_str())?,
                Step::Place(place) => write!(f, "{place}")?,
            }
        }
        Ok(())
    }
}

impl Lost {
    /// A value that is counted under this name.
    pub fn named(alloc: Global, name: &str) -> Result<Lost, OutOfMemory>
        ensures { IfOk result (λ lost. lost_view lost ≡ lost_here (named name.now)) }
    {
        let name = String::from_str(alloc, name)?;
        Ok(Lost {
            path: Vec::new(alloc),
            loss: Loss::Named(name),
        })
    }

    /// A value that isn't read for this reason.
    pub fn unread(alloc: Global, why: Why, json: &Value<'_>) -> Result<Lost, OutOfMemory>
        ensures { IfOk result (λ lost. lost_view lost ≡ lost_here (unread why)) }
    {
        let text = shown(alloc, json)?;
        Ok(Lost {
            path: Vec::new(alloc),
            loss: Loss::Unread(why, text),
        })
    }

    /// A value in this one, at the end of these steps, that isn't read for this reason.
    pub fn refused(
        alloc: Global,
        path: Vec<Step>,
        why: Why,
        json: &Value<'_>,
    ) -> Result<Lost, OutOfMemory>
        ensures { IfOk result (λ lost. lost_view lost ≡ lost_of (refusal_at path.items why)) }
    {
        let text = shown_at(alloc, &path, json)?;
        Ok(Lost {
            path,
            loss: Loss::Unread(why, text),
        })
    }

    /// A value that has to be there, and isn't.
    pub fn missing(alloc: Global) -> Lost
        ensures { lost_view result ≡ lost_here (unread Why.Missing) }
    {
        Lost {
            path: Vec::new(alloc),
            loss: Loss::Unread(Why::Missing, String::new(alloc)),
        }
    }

    /// An entry whose key comes again.
    pub fn again(alloc: Global) -> Lost
        ensures { lost_view result ≡ lost_here again }
    {
        Lost {
            path: Vec::new(alloc),
            loss: Loss::Again,
        }
    }

    /// The same, seen from the object that has the value under this name.
    pub fn in_member(self, alloc: Global, name: &str) -> Result<Lost, OutOfMemory>
        ensures { IfOk result (λ lost.
            lost_view lost ≡ lost_behind (to_member name.now) (lost_view self)) }
    {
        let name = match String::from_str(alloc, name) {
            Ok(name) => name,
            Err(_) => return Err(OutOfMemory),
        };
        self.behind(Step::Name(name))
    }

    /// The same, seen from the array that has the value at this place.
    pub fn in_item(self, place: usize) -> Result<Lost, OutOfMemory>
        ensures { IfOk result (λ lost.
            lost_view lost ≡ lost_behind (to_item place) (lost_view self)) }
    {
        self.behind(Step::Place(place))
    }

    // The same, seen from one step further out.
    fn behind(self, step: Step) -> Result<Lost, OutOfMemory>
        ensures { IfOk result (λ lost.
            lost_view lost ≡ lost_behind (step_view step) (lost_view self)) }
    {
        let Lost { mut path, loss } = self;
        match path.insert(0, step) {
            Ok(()) => Ok(Lost { path, loss }),
            Err(_) => Err(OutOfMemory),
        }
    }
}

/// What is told of an input, in the order of its text: names that are counted, and the first
/// `LINES` of the other notes.
#[derive(Debug, Drop)]
pub struct Notes {
    ignored: Ignored,
    first_named: Option<Note>,
    lines: Vec<Note>,
    more: u64,
}

impl Notes {
    /// No notes, in a map that hashes with these keys.
    pub fn with_hash_keys(alloc: Global, keys: HashKeys) -> Notes
        ensures { notes_view result ≡ none_kept }
    {
        Notes {
            ignored: Ignored::with_hash_keys(alloc, keys),
            first_named: None,
            lines: Vec::new(alloc),
            more: 0,
        }
    }

    /// One more note: what is lost of the entry with this key.
    pub fn add(&mut self, alloc: Global, key: &str, lost: Lost) -> Result<(), OutOfMemory>
        ensures { OnOk result (notes_view self.new
            ≡ kept_after (note_of key.now (lost_view lost)) (notes_view self.old)) }
    {
        let key = String::from_str(alloc, key)?;
        let is_first = self.is_empty();
        match &lost.loss {
            Loss::Named(name) => {
                self.ignored.add(name.as_str())?;
                if is_first {
                    self.first_named = Some(Note { key, lost });
                }
                Ok(())
            }
            _ => self.add_line(Note { key, lost }),
        }
    }

    // One more note that isn't counted under a name.
    fn add_line(&mut self, note: Note) -> Result<(), OutOfMemory>
        ensures { OnOk result (notes_view self.new
            ≡ line_kept (note_view note) (notes_view self.old)) }
    {
        if self.lines.len() < LINES {
            self.lines.push(note)?;
        } else {
            self.more = self.more.saturating_add(1);
        }
        Ok(())
    }

    /// One more note for each: what is lost of the entry with this key.
    pub fn add_all(&mut self, alloc: Global, key: &str, losts: Vec<Lost>) -> Result<(), OutOfMemory>
        ensures { OnOk result (notes_view self.new
            ≡ all_kept (notes_under key.now (losts_view losts.items)) (notes_view self.old)) }
    {
        'losts: for lost in losts {
            self.add(alloc, key, lost)?;
        }
        Ok(())
    }

    /// Whether nothing is told.
    pub fn is_empty(&self) -> bool
        ensures { IsTrue result ↔ IsNone (notes_view self.now) }
    {
        self.ignored.is_empty() && self.lines.is_empty()
    }

    /// The names that are counted, each with how often it came.
    pub fn ignored(&self) -> &Ignored
        ensures { counts_of result.now ≡ (notes_view self.now).counts }
    {
        &self.ignored
    }

    /// The first of the notes that are told one by one.
    pub fn lines(&self) -> &[Note]
        ensures { map note_view result.now ≡ (notes_view self.now).lines }
    {
        self.lines.as_slice()
    }

    /// How many more there are than `lines` has.
    pub fn more(&self) -> u64
        ensures { result ≡ (notes_view self.now).more }
    {
        self.more
    }

    /// The first note of all.
    pub fn first(&self) -> Option<&Note>
        ensures { option_map (λ n. note_view n.now) result ≡ first_note (notes_view self.now) }
    {
        match &self.first_named {
            Some(note) => Some(note),
            None => self.lines.first(),
        }
    }

    /// The first note of all; the notes themselves where there is none.
    pub fn into_first(self) -> Result<Note, Notes>
        ensures first { IfOk result (λ n. first_note (notes_view self) ≡ Some (note_view n)) }
        ensures none { IfErr result (λ notes. (notes_view notes ≡ notes_view self)
            × (first_note (notes_view self) ≡ None)) }
    {
        let Notes {
            ignored,
            first_named,
            mut lines,
            more,
        } = self;
        if let Some(note) = first_named {
            return Ok(note);
        }
        if lines.is_empty() {
            return Err(Notes {
                ignored,
                first_named: None,
                lines,
                more,
            });
        }
        Ok(lines.remove(0))
    }
}
