//! The items of a list, read one after another, and the library that is made of them.
ghost use Rattle.std.specs.Prelude.{◌≡◌, ◌↔◌, ℕ, List, Err, None, Ok, Some, option_map, IfErr};
ghost use Rattle.std.specs.Prelude.{IfOk, IfSome, IsTrue, MatchBool, OnOk, true};
ghost use Rattle.json.specs.Json.{no_items};
ghost use Rattle.json.specs.Strict.{HasUniqueKeys};
ghost use Rattle.json.specs.Value.{value_view};
ghost use Rattle.haya_json.specs.Notes.{notes_view};
ghost use Rattle.haya_csl.specs.Libraries.{DescribesAsCsl, IsCslErrorOf};
ghost use Rattle.haya_csl.specs.Made.{IsErrorWith, IsMadeOf, IsMadeOfNone, IsMadeOfText};
ghost use Rattle.haya_csl.specs.Made.{MakesEntry, TakesItem};
ghost use Rattle.haya_csl.specs.Told.{TellsAsCsl};
ghost use Rattle.haya_csl.specs.Turns.{first_and_left, items_left};

use crate::item_key::ItemKey;
use crate::items::push_item;
use haya_json::reading::{ELEMENT_DEPTH, ValueError, has_unique_names, name_twice, not_json};
use haya_json::{Notes, ReadError};
use haya_text::OutOfMemory;
use hayagriva::{HashKeys, Library};
use json::{Error, Reader, Scratch, Token, Value};
use std::alloc::Global;

// What is made of items that are read one after another, of which none is kept.
#[derive(Drop)]
struct Made {
    // The entries of the items before the first that is refused.
    library: Library,
    // What is told of these items.
    notes: Notes,
    // Why the first that is refused is refused.
    fault: Option<ValueError>,
    // Whether no object in any item has a member twice.
    are_unique: bool,
}

/// The library of a text that begins as a list, and what is told of it. `None` where it
/// begins as anything else.
pub(crate) fn read_list_text(
    alloc: Global,
    keys: HashKeys,
    by: ItemKey,
    text: &str,
    scratch: &mut Scratch,
) -> Result<Option<(Library, Notes)>, ReadError>
    ensures library { IfOk result (λ r. IfSome r (λ read. DescribesAsCsl by text.now read.0)) }
    ensures notes { IfOk result (λ r. IfSome r (λ read.
        TellsAsCsl by text.now (notes_view read.1))) }
    ensures error { IfErr result (IsCslErrorOf by text.now) }
{
    let mut made = Made::new(alloc, keys);
    // By calls: at an exit, the drop of a library is proved field by field.
    match made.take_text(alloc, by, text, scratch) {
        Ok(true) => match made.into_read(alloc, by, text) {
            Ok(read) => Ok(Some(read)),
            Err(error) => Err(error),
        },
        Ok(false) => {
            drop(made);
            Ok(None)
        }
        Err(error) => {
            drop(made);
            Err(error)
        }
    }
}

/// The next item of a list, or none at its end.
pub(crate) fn next_item<'a>(
    alloc: Global,
    reader: &mut Reader<'a>,
) -> Result<Option<Value<'a>>, Error>
    ensures item { IfOk result (λ next. items_left reader.old
        ≡ first_and_left (option_map value_view next) reader.new) }
    ensures invalid { result ≡ Err Error.Invalid → items_left reader.old ≡ None }
{
    if reader.take_end_array() {
        return Ok(None);
    }
    match Value::read(alloc, reader, ELEMENT_DEPTH) {
        Ok(item) => Ok(Some(item)),
        Err(error) => Err(error),
    }
}

impl Made {
    // Of no items.
    #[tactic(auto, using(haya_json::proofs::NotesKept::kept_from_none))]
    fn new(alloc: Global, keys: HashKeys) -> Made
        ensures { IsMadeOfNone result }
    {
        Made {
            library: Library::with_hash_keys(alloc, keys),
            notes: Notes::with_hash_keys(alloc, keys),
            fault: None,
            are_unique: true,
        }
    }

    // Takes the items of a text that begins as a list, and answers whether it does.
    fn take_text(
        &mut self,
        alloc: Global,
        by: ItemKey,
        text: &str,
        scratch: &mut Scratch,
    ) -> Result<bool, ReadError>
        requires { IsMadeOfNone self.old }
        ensures made { result ≡ Ok true → IsMadeOfText by text.now self.new }
        ensures error { IfErr result (IsCslErrorOf by text.now) }
    {
        let Ok(mut reader) = Reader::new(text, scratch) else {
            return Err(ReadError::OutOfMemory);
        };
        let Some(Token::BeginArray) = reader.next() else {
            return Ok(false);
        };
        match self.take_items(alloc, by, &mut reader) {
            Ok(true) => {}
            Ok(false) => return Err(not_json(alloc, text)),
            Err(OutOfMemory) => return Err(ReadError::OutOfMemory),
        }
        match reader.next() {
            None => Ok(true),
            Some(_) => Err(not_json(alloc, text)),
        }
    }

    // Takes all items of a list, and answers whether it is one, of JSON values.
    fn take_items(
        &mut self,
        alloc: Global,
        by: ItemKey,
        reader: &mut Reader<'_>,
    ) -> Result<bool, OutOfMemory>
        requires { IsMadeOfNone self.old }
        ensures { IfOk result (λ is_list. MatchBool is_list ((place : ℕ) ×
            IsMadeOf by (Some (no_items, reader.new)) (items_left reader.old) place self.new)
            (items_left reader.old ≡ None)) }
    {
        let mut names = Vec::new(alloc);
        'items: for place in 0..usize::MAX {
            let item = match next_item(alloc, reader) {
                Ok(Some(item)) => item,
                Ok(None) => return Ok(true),
                Err(Error::Invalid) => return Ok(false),
                Err(_) => return Err(OutOfMemory),
            };
            let taken = self.take(alloc, by, &item, place, &mut names);
            drop(item);
            taken?;
        }
        // No text has as many items.
        Err(OutOfMemory)
    }

    // Takes one more item, at this place of the list.
    fn take<'a>(
        &mut self,
        alloc: Global,
        by: ItemKey,
        item: &Value<'a>,
        place: usize,
        names: &mut Vec<&'a str>,
    ) -> Result<(), OutOfMemory>
        ensures { OnOk result (TakesItem by (value_view item.now) place self.old self.new) }
    {
        self.check_names(item, names)?;
        self.add_entry(alloc, by, item, place)
    }

    // Sees whether the item has a member twice.
    fn check_names<'a>(
        &mut self,
        item: &Value<'a>,
        names: &mut Vec<&'a str>,
    ) -> Result<(), OutOfMemory>
        ensures unique { OnOk result (IsTrue self.new.are_unique
            ↔ (IsTrue self.old.are_unique × HasUniqueKeys (value_view item.now))) }
        ensures same { OnOk result
            (self.new ≡ record self.old { are_unique = self.new.are_unique }) }
    {
        if self.are_unique {
            self.are_unique = has_unique_names(item, names)?;
        }
        Ok(())
    }

    // Makes the item's entry, where none is refused so far.
    fn add_entry(
        &mut self,
        alloc: Global,
        by: ItemKey,
        item: &Value<'_>,
        place: usize,
    ) -> Result<(), OutOfMemory>
        ensures entry { OnOk result (MakesEntry by (value_view item.now) place self.old self.new) }
        ensures same { OnOk result (self.new.are_unique ≡ self.old.are_unique) }
    {
        if self.fault.is_some() {
            return Ok(());
        }
        match push_item(alloc, by, item, &mut self.library, &mut self.notes) {
            Ok(()) => Ok(()),
            Err(fault) => self.refuse(fault.in_item(place)),
        }
    }

    // Keeps why an item is refused.
    fn refuse(&mut self, fault: ValueError) -> Result<(), OutOfMemory>
        ensures { OnOk result (self.new ≡ record self.old { fault = Some fault }) }
    {
        match fault {
            ValueError::OutOfMemory => Err(OutOfMemory),
            ValueError::Refused(path, why) => {
                self.fault = Some(ValueError::Refused(path, why));
                Ok(())
            }
        }
    }

    // What is read of the text in the end, where these were all its items.
    #[tactic(auto, using(haya_json::proofs::ParseErrors::parse_errors))]
    fn into_read(
        self,
        alloc: Global,
        by: ItemKey,
        text: &str,
    ) -> Result<(Library, Notes), ReadError>
        ensures library { IfOk result (λ read.
            IsMadeOfText by text.now self → DescribesAsCsl by text.now read.0) }
        ensures notes { IfOk result (λ read.
            IsMadeOfText by text.now self → TellsAsCsl by text.now (notes_view read.1)) }
        ensures error { IfErr result (λ e.
            IsMadeOfText by text.now self → IsCslErrorOf by text.now e) }
    {
        let Made {
            library,
            notes,
            fault,
            are_unique,
        } = self;
        if !are_unique {
            // By a call: at an exit, the drop of a library is proved field by field.
            drop(library);
            drop(notes);
            return Err(name_twice(alloc, text));
        }
        match fault {
            None => Ok((library, notes)),
            Some(fault) => {
                drop(library);
                drop(notes);
                Err(error_of(fault))
            }
        }
    }
}

// The error of a text with this fault.
fn error_of(fault: ValueError) -> ReadError
    ensures { IsErrorWith fault result }
{
    match fault {
        ValueError::Refused(path, why) => ReadError::Refused(path, why),
        ValueError::OutOfMemory => ReadError::OutOfMemory,
    }
}
