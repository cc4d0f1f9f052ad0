//! The entries of a list of items, taken one after another as they are read.
ghost use Rattle.std.specs.Prelude.{◌≡◌, Some, IfSome, IsTrue};
ghost use Rattle.json.specs.Json.{Items};
ghost use Rattle.json.specs.Value.{value_view};
ghost use Rattle.haya_entry.specs.Tree.{Tree, view};
ghost use Rattle.haya_json.specs.Notes.{notes_view};
ghost use Rattle.haya_csl.specs.Taken.{TakesItems, TakesList, TakesOne};
ghost use Rattle.haya_csl.specs.Turns.{items_left};

use crate::item_key::ItemKey;
use crate::item_lines::read_at;
use crate::turns::next_item;
use haya_entry::Entry;
use haya_json::Notes;
use haya_json::reading::has_unique_names;
use hayagriva::HashKeys;
use json::{Reader, Scratch, Token, Value};
use std::alloc::Global;

/// One who takes the entries of a list, each as it is read. A state goes from entry to entry.
pub trait EntryTaker {
    // The state that an entry which is taken leaves.
    ghost takes: { Self → Tree → Self → Type 0 };

    /// Takes an entry, which is let go then. The answer is whether it is taken: otherwise none is
    /// wanted behind it.
    fn take(&mut self, entry: &Entry) -> bool
        ensures { IsTrue result → takes self.old (view entry.now) self.new };
}

/// Gives the taker each entry that a list of items in CSL-JSON says, in order, and lets it go before
/// the next item is read. The answer is what is told of the items. A key that comes again isn't
/// looked for. The map of the notes hashes with the keys.
///
/// `None`: the text is no such list, an object in it has a member twice, an item is refused, an entry
/// isn't taken, or memory is out. What was taken by then stays taken.
pub fn take_csl_entries<T: EntryTaker>(
    alloc: Global,
    keys: HashKeys,
    by: ItemKey,
    text: &str,
    taker: &mut T,
) -> Option<Notes>
    ensures { IfSome result (λ notes.
        TakesList T.takes by text.now (notes_view notes) taker.old taker.new) }
{
    let mut scratch = Scratch::new(alloc);
    let Ok(mut reader) = Reader::new(text, &mut scratch) else {
        return None;
    };
    let Some(Token::BeginArray) = reader.next() else {
        return None;
    };
    let mut notes = Notes::with_hash_keys(alloc, keys);
    if !take_items(alloc, by, &mut reader, &mut notes, taker) {
        return None;
    }
    match reader.next() {
        None => Some(notes),
        Some(_) => None,
    }
}

// Takes all items of a list whose bracket was read, and answers whether they are taken.
fn take_items<T: EntryTaker>(
    alloc: Global,
    by: ItemKey,
    reader: &mut Reader<'_>,
    notes: &mut Notes,
    taker: &mut T,
) -> bool
    ensures { IsTrue result → (js : Items) × (items_left reader.old ≡ Some (js, reader.new))
        × TakesItems T.takes by js (notes_view notes.old) (notes_view notes.new)
        taker.old taker.new }
{
    let mut names = Vec::new(alloc);
    'items: for place in 0..usize::MAX {
        let item = match next_item(alloc, reader) {
            Ok(Some(item)) => item,
            Ok(None) => return true,
            Err(_) => return false,
        };
        let is_taken = take_item(alloc, by, place, &item, &mut names, notes, taker);
        drop(item);
        if !is_taken {
            return false;
        }
    }
    // No text has as many items.
    false
}

// Takes the entry of the item at this place, and answers whether it is taken.
fn take_item<'a, T: EntryTaker>(
    alloc: Global,
    by: ItemKey,
    place: usize,
    item: &Value<'a>,
    names: &mut Vec<&'a str>,
    notes: &mut Notes,
    taker: &mut T,
) -> bool
    ensures { IsTrue result → TakesOne T.takes by (value_view item.now) (notes_view notes.old)
        (notes_view notes.new) taker.old taker.new }
{
    let Ok(true) = has_unique_names(item, names) else {
        return false;
    };
    match read_at(alloc, by, place, item, notes) {
        Ok(entry) => taker.take(&entry),
        Err(_) => false,
    }
}
